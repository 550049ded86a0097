//! Files in memory.

ghost use Rattle.std.specs.Prelude.{◌≡◌, ◌⊎◌, position, Ok, Err, None, IfOk, OnOk, OnErr, IfSome, OnSome, IfNone, IsSome, IsNone, ◌↔◌};
ghost use Rattle.std.specs.Option.{option_copied};
ghost use Rattle.std.specs.Str.{bytes_eq};
ghost use Rattle.pan_base.specs.Files.{Reads, NoneChanged, Writes, FaultCause};
ghost use Rattle.pan_base.specs.MemFiles.{file_at, with_file, kept};

use crate::blob::Blob;
use crate::error::NoMemory;
use crate::file_error::FileError;
use crate::files::Workspace;
use crate::text::Text;
use sqlite_items::Items as List;
use std::alloc::Global;
use std::marker::Model;

/// The number of a call that fails. A failing write keeps the first `keep` bytes of what it was to store, or all where
/// there are fewer. With `None` it leaves the file as it was, and so it does where there is no memory for those bytes,
/// which is its answer then.
#[derive(Clone, Copy, Debug, PartialEq, Eq)]
pub struct Failing {
    pub call: u64,
    pub keep: Option<u64>,
}

/// Files in memory, and the calls that are to fail.
///
/// Reads and writes are counted together, from 0. The counts of calls, failed reads and failed writes stand still at
/// 2^64 - 1. Of two files of one name the first counts, and so does the first of two entries of one call in `failing`.
#[derive(Drop)]
pub struct MemFiles {
    files: List<(Text, Blob)>,
    failing: List<Failing>,
    calls: u64,
    failed_reads: u64,
    failed_writes: u64,
}

impl Model for MemFiles {
    ghost use Rattle.pan_base.specs.MemFiles.{MemFilesState};

    ghost Value = { MemFilesState };

    ghost view = { λ s. record {
      files = s.files;
      failing = s.failing;
      calls = s.calls;
      failed_reads = s.failed_reads;
      failed_writes = s.failed_writes;
    } };
}

impl MemFiles {
    ghost use Rattle.pan_base.specs.MemFiles.{failure, after_call};

    /// These files, of which no call was made yet.
    pub fn new(
        _alloc: Global,
        files: List<(Text, Blob)>,
        failing: List<Failing>,
    ) -> Result<MemFiles, NoMemory>
        ensures { IfOk result (λ s. s ≡ record {
          files = files;
          failing = failing;
          calls = 0;
          failed_reads = 0;
          failed_writes = 0;
        }) }
    {
        Ok(MemFiles {
            files,
            failing,
            calls: 0,
            failed_reads: 0,
            failed_writes: 0,
        })
    }

    /// Counts a call, and answers what it fails with.
    fn next_failure(&mut self) -> Option<Failing>
        ensures failure { result ≡ failure self.old }
        ensures counted { self.new ≡ after_call self.old }
    {
        let call = self.calls;
        self.calls = call.saturating_add(1);
        self.failing
            .as_slice()
            .iter()
            .copied()
            .find(|f| f.call == call)
    }
}

/// Where the first file with the name stands.
fn place_of(files: &[(Text, Blob)], name: &str) -> Option<usize>
    ensures { result ≡ position (λ file. bytes_eq file.0 name.now) files.now }
{
    files.iter().position(|file| file.0.as_str() == name)
}

/// The bytes of the first file with the name.
fn bytes_of<'x>(files: &'x [(Text, Blob)], name: &str) -> Option<&'x [u8]>
    ensures { option_copied result ≡ file_at files.now name.now }
{
    for file in files {
        if file.0.as_str() == name {
            return Some(file.1.as_slice());
        }
    }
    None
}

/// Puts the bytes under the name.
fn put_file(
    alloc: Global,
    files: &mut List<(Text, Blob)>,
    name: &str,
    bytes: &[u8],
) -> Result<(), NoMemory>
    ensures ok { OnOk result (files.new ≡ with_file files.old name.now bytes.now) }
    ensures err { OnErr result (files.new ≡ files.old) }
{
    let file = (
        Text::from_str(alloc, name)?,
        Blob::from_slice(alloc, bytes)?,
    );
    match place_of(files.as_slice(), name) {
        Some(at) => files.set(at, file),
        None => files.push(file)?,
    }
    Ok(())
}

/// Puts under the name what a failing write keeps.
fn keep_front(
    alloc: Global,
    files: &mut List<(Text, Blob)>,
    keep: Option<u64>,
    name: &str,
    bytes: &[u8],
) -> Result<(), NoMemory>
    ensures ok { OnOk result (files.new ≡ kept keep files.old name.now bytes.now) }
    ensures err { OnErr result (files.new ≡ files.old) }
    ensures nothing { keep ≡ None → result ≡ Ok tt }
{
    match keep {
        Some(keep) => put_file(alloc, files, name, &bytes[..bytes.len().min(keep as usize)]),
        None => Ok(()),
    }
}

impl Workspace for MemFiles {
    ghost use Rattle.pan_base.specs.MemFiles.{mem_files_told, failure, after_call, after_failed_read, after_failed_write};

    ghost state = { mem_files_told };

    fn read(&mut self, alloc: Global, name: &str) -> Result<Blob, FileError>
        ensures found { Reads (mem_files_told self.old).files name.now result }
        ensures same { NoneChanged (mem_files_told self.old).files (mem_files_told self.new).files }
        ensures reads { FaultCause self.old.failed_reads self.new.failed_reads result }
        ensures writes { self.new.failed_writes ≡ self.old.failed_writes }

        // It fails at the calls of `failing` alone, and else misses the file where there is none of the name.
        ensures fault { (result ≡ Err FileError.Fault) ↔ IsSome (failure self.old) }
        ensures missing { (result ≡ Err FileError.Missing) ↔
            (IsNone (failure self.old) × (file_at self.old.files name.now ≡ None)) }
        ensures failed { OnSome (failure self.old) (self.new ≡ after_failed_read self.old) }
        ensures counted { IfNone (failure self.old) (self.new ≡ after_call self.old) }
    {
        if self.next_failure().is_some() {
            self.failed_reads = self.failed_reads.saturating_add(1);
            return Err(FileError::Fault);
        }
        match bytes_of(self.files.as_slice(), name) {
            Some(bytes) => match Blob::from_slice(alloc, bytes) {
                Ok(blob) => Ok(blob),
                Err(NoMemory) => Err(FileError::NoMemory),
            },
            None => Err(FileError::Missing),
        }
    }

    fn write(&mut self, alloc: Global, name: &str, bytes: &[u8]) -> Result<(), FileError>
        ensures stored { Writes (mem_files_told self.old).files (mem_files_told self.new).files
            name.now bytes.now result }
        ensures reads { self.new.failed_reads ≡ self.old.failed_reads }
        ensures writes { FaultCause self.old.failed_writes self.new.failed_writes result }

        // It fails at the calls of `failing`, and where there is no memory for what is to be stored or kept.
        ensures fault { result ≡ Err FileError.Fault → IsSome (failure self.old) }
        ensures failing { IsSome (failure self.old) → (result ≡ Err FileError.Fault) ⊎ (result ≡ Err FileError.NoMemory) }
        ensures ok { OnOk result (self.new ≡
            record (after_call self.old) { files = with_file self.old.files name.now bytes.now }) }
        ensures failed { result ≡ Err FileError.Fault → IfSome (failure self.old) (λ f.
            self.new ≡ after_failed_write f.keep self.old name.now bytes.now) }
        ensures no_memory { result ≡ Err FileError.NoMemory → self.new ≡ after_call self.old }
        ensures nothing_kept { IfSome (failure self.old) (λ f. f.keep ≡ None → result ≡ Err FileError.Fault) }
    {
        if let Some(failing) = self.next_failure() {
            return match keep_front(alloc, &mut self.files, failing.keep, name, bytes) {
                Ok(()) => {
                    self.failed_writes = self.failed_writes.saturating_add(1);
                    Err(FileError::Fault)
                }
                Err(NoMemory) => Err(FileError::NoMemory),
            };
        }
        match put_file(alloc, &mut self.files, name, bytes) {
            Ok(()) => Ok(()),
            Err(NoMemory) => Err(FileError::NoMemory),
        }
    }
}
