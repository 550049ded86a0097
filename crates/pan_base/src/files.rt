//! Whole files by name.

ghost use Rattle.std.specs.Prelude.{◌≡◌};
ghost use Rattle.pan_base.specs.Files.{FilesState, Reads, NoneChanged, Writes, FaultCause};

use crate::blob::Blob;
use crate::file_error::FileError;
use std::alloc::Global;

/// Reads and writes whole files.
pub trait Workspace {
    /// The files, where it tells them, and how many reads and how many writes failed. No call changes whether it tells
    /// its files.
    ghost state: { Self → FilesState };

    /// The bytes of the file. `Missing` comes only where there is none of this name, and raises no count; `Fault` comes
    /// only where the count of failed reads rose. No file changes.
    fn read(&mut self, alloc: Global, name: &str) -> Result<Blob, FileError>
        ensures found { Reads (state self.old).files name.now result }
        ensures same { NoneChanged (state self.old).files (state self.new).files }
        ensures reads { FaultCause (state self.old).failed_reads (state self.new).failed_reads result }
        ensures writes { (state self.new).failed_writes ≡ (state self.old).failed_writes };

    /// Puts the bytes under the name. A failed write leaves that file as it was, or with a prefix of the new bytes, which
    /// isn't all of them where memory was wanting. `Fault` comes only where the count of failed writes rose, and
    /// `Missing` never. No other file changes.
    fn write(&mut self, alloc: Global, name: &str, bytes: &[u8]) -> Result<(), FileError>
        ensures stored { Writes (state self.old).files (state self.new).files name.now bytes.now result }
        ensures reads { (state self.new).failed_reads ≡ (state self.old).failed_reads }
        ensures writes { FaultCause (state self.old).failed_writes (state self.new).failed_writes result };
}
