//! Why rows aren't followed to their end.

use front_end::SourceError;
use pan_base::NoMemory;
use std::alloc::{AllocError, AllocFailed};

/// Why rows aren't followed to their end.
#[derive(Clone, Copy, Debug, PartialEq, Eq)]
pub enum Trouble {
    /// A line is none of a row's, or its source has no program.
    Line,
    NoMemory,
}

impl From<NoMemory> for Trouble {
    fn from(_error: NoMemory) -> Trouble {
        Trouble::NoMemory
    }
}

impl From<AllocError> for Trouble {
    fn from(_error: AllocError) -> Trouble {
        Trouble::NoMemory
    }
}

impl<T: Drop> From<AllocFailed<T>> for Trouble {
    fn from(_error: AllocFailed<T>) -> Trouble {
        Trouble::NoMemory
    }
}

impl From<SourceError> for Trouble {
    fn from(_error: SourceError) -> Trouble {
        Trouble::Line
    }
}
