//! The files and the output of the system. No contract says what they hold.

ghost use Rattle.std.specs.Prelude.{◌≡◌, ◌≤◌, vec_len, IfOk};
ghost use Rattle.std.specs.Io.{ReadsAtMost};
ghost use Rattle.std.specs.Io.KnownBytes.{ReadConsumes, Consumes, IsAtEnd};

use crate::blob::Blob;
use crate::file_error::FileError;
use crate::files::Workspace;
use crate::sinks::{Sink, SinkFault};
use std::alloc::Global;
use std::fs::{self, File};
use std::io::{self, ErrorKind, Read, Write};
use std::marker::Model;
use std::rt::Files;

/// How many bytes a file may have that is read.
const MAX_FILE_LEN: usize = 536_870_912;

/// How many bytes are read at once.
const PIECE_LEN: usize = 65_536;

/// Reads into the buffer, again where a signal interrupts it.
fn read_piece<F: Read>(file: &mut F, piece: &mut [u8]) -> io::Result<usize>
    ensures bound { ReadsAtMost result piece.new }
    ensures bytes { ReadConsumes (F.remaining file.old) (F.remaining file.new) result piece.new }
{
    'tries: for _ in 0..u64::MAX {
        match file.read(piece) {
            Err(e) if e.kind() == ErrorKind::Interrupted => {}
            result => return result,
        }
    }
    Err(io::Error::from(ErrorKind::Interrupted))
}

/// All bytes that are left, or `FileTooLarge` as soon as more than `MAX_FILE_LEN` came, so that an endless file ends.
fn read_all<F: Read>(alloc: Global, file: &mut F) -> io::Result<Vec<u8>>
    ensures bytes { IfOk result (λ bytes. Consumes (F.remaining file.old) (F.remaining file.new) bytes.items) }
    ensures end { IfOk result (λ _. IsAtEnd (F.remaining file.new)) }
    ensures limit { IfOk result (λ bytes. vec_len bytes ≤ MAX_FILE_LEN) }
{
    let mut bytes = Vec::new(alloc);
    let mut piece = vec![in alloc; 0u8; PIECE_LEN]?;
    'pieces: while bytes.len() <= MAX_FILE_LEN {
        let count = read_piece(file, piece.as_mut_slice())?;
        if count == 0 {
            return Ok(bytes);
        }
        bytes.extend_from_slice(&piece[..count])?;
    }
    Err(io::Error::from(ErrorKind::FileTooLarge))
}

/// The files of the system, which it doesn't tell.
///
/// A file of more than 536,870,912 bytes isn't read: that is a failed read. The counts of failed reads and failed
/// writes stand still at 2^64 - 1.
#[derive(Drop)]
pub struct RealFiles<'a, R> {
    rt: &'a R,
    failed_reads: u64,
    failed_writes: u64,
}

impl<'a, R> Model for RealFiles<'a, R> {
    ghost use Rattle.pan_base.specs.RealFiles.{RealFilesState};

    ghost Value = { RealFilesState };

    ghost view = { λ s. record { failed_reads = s.failed_reads; failed_writes = s.failed_writes } };
}

impl<'a, R> RealFiles<'a, R> {
    /// The files that this runtime reaches. Nothing failed yet.
    pub fn new(rt: &'a R) -> RealFiles<'a, R>
        ensures { result ≡ record { failed_reads = 0; failed_writes = 0 } }
    {
        RealFiles {
            rt,
            failed_reads: 0,
            failed_writes: 0,
        }
    }
}

impl<R: Files> Workspace for RealFiles<'_, R> {
    ghost use Rattle.pan_base.specs.RealFiles.{real_files_told};

    ghost state = { real_files_told };

    fn read(&mut self, alloc: Global, name: &str) -> Result<Blob, FileError> {
        let bytes = match File::open(self.rt, name) {
            Ok(mut file) => read_all(alloc, &mut file),
            Err(e) => Err(e),
        };
        match bytes {
            Ok(bytes) => Ok(Blob::from_vec(bytes)),
            Err(e) => match e.kind() {
                ErrorKind::NotFound => Err(FileError::Missing),
                ErrorKind::OutOfMemory => Err(FileError::NoMemory),
                _ => {
                    self.failed_reads = self.failed_reads.saturating_add(1);
                    Err(FileError::Fault)
                }
            },
        }
    }

    fn write(&mut self, _alloc: Global, name: &str, bytes: &[u8]) -> Result<(), FileError> {
        match fs::write(self.rt, name, bytes) {
            Ok(()) => Ok(()),
            Err(e) if e.kind() == ErrorKind::OutOfMemory => Err(FileError::NoMemory),
            Err(_) => {
                self.failed_writes = self.failed_writes.saturating_add(1);
                Err(FileError::Fault)
            }
        }
    }
}

/// A writer of the system, which doesn't tell what it took.
///
/// An error, and a write that takes nothing of a piece that has bytes, is a fault. The count of faults stands still at
/// 2^64 - 1.
#[derive(Drop)]
pub struct RealOut<W> {
    writer: W,
    faults: u64,
}

impl<W> Model for RealOut<W> {
    ghost use Rattle.std.specs.Prelude.{ℕ};

    ghost Value = { ℕ };

    ghost view = { λ s. s.faults };
}

impl<W> RealOut<W> {
    /// A sink that passes its text on to the writer. Nothing failed yet.
    pub fn new(writer: W) -> RealOut<W>
        ensures { result ≡ 0 }
    {
        RealOut { writer, faults: 0 }
    }
}

impl<W: Write> Sink for RealOut<W> {
    ghost use Rattle.pan_base.specs.RealOut.{real_out_told};

    ghost state = { real_out_told };

    fn put(&mut self, piece: &[u8]) -> Result<usize, SinkFault> {
        match self.writer.write(piece) {
            Ok(count) if count > 0 || piece.is_empty() => Ok(count),
            _ => {
                self.faults = self.faults.saturating_add(1);
                Err(SinkFault)
            }
        }
    }
}
