//! Why a file isn't read or written.

/// Why a file could not be read or written.
#[derive(Clone, Copy, Debug, PartialEq, Eq)]
pub enum FileError {
    /// There is no file of this name. It answers reads alone.
    Missing,
    /// The outside failed.
    Fault,
    /// There was no memory.
    NoMemory,
}
