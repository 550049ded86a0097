//! Why a row isn't run to its end.

use pan_base::{FileError, NoMemory};
use std::alloc::{AllocError, AllocFailed};

/// Why a row isn't run to its end.
#[derive(Clone, Copy, Debug, PartialEq, Eq)]
pub enum Trouble {
    /// A line that is none of a row.
    Line,
    /// A file of a row could not be stored.
    File,
    NoMemory,
}

impl From<NoMemory> for Trouble {
    fn from(_error: NoMemory) -> Trouble {
        Trouble::NoMemory
    }
}

impl From<AllocError> for Trouble {
    fn from(_error: AllocError) -> Trouble {
        Trouble::NoMemory
    }
}

impl<T: Drop> From<AllocFailed<T>> for Trouble {
    fn from(_error: AllocFailed<T>) -> Trouble {
        Trouble::NoMemory
    }
}

impl From<FileError> for Trouble {
    fn from(_error: FileError) -> Trouble {
        Trouble::File
    }
}
