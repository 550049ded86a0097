//! Why bytes are no image.

ghost use Rattle.std.specs.Prelude.{◌≡◌};
ghost use Rattle.image_file.specs.declared.error.ImageError.TheVariants.{NoMemory as OutOfMemory};

use pan_base::NoMemory;
use std::alloc::{AllocError, AllocFailed};

/// A field of the first 32 bytes of an image.
#[derive(Clone, Copy, Debug, PartialEq, Eq)]
pub enum FieldName {
    /// The code's length is no multiple of 4, or above 268,439,552.
    Code,
    /// The entry isn't 0.
    Entry,
    /// There are more than 1,024 names.
    Count,
    /// The names part has more than 67,584 bytes, or bytes after the last name.
    Names,
    /// The last field isn't 0.
    Zero,
}

/// Why bytes are no image: the first fault.
#[derive(Clone, Copy, Debug, PartialEq, Eq)]
pub enum ImageError {
    /// One of the first four bytes that are there isn't the one of `PNK1`.
    Magic,
    /// There are fewer than 32 bytes, or fewer than the fields ask for.
    Short,
    /// A field is wrong.
    Field(FieldName),
    /// The name of this number, from 0, runs past the names part, isn't 1 to 64 bytes of a letter or `_` and then
    /// letters, digits and `_`, is `base` or `biw`, or is the same as one before it.
    BadName(u32),
    /// A byte between the names and the code isn't 0.
    Padding,
    /// Bytes stand after the code.
    Tail,
    /// There was no memory.
    NoMemory,
}

impl From<NoMemory> for ImageError {
    ghost from_gives = { λ _ e. e ≡ OutOfMemory };

    fn from(_error: NoMemory) -> ImageError {
        ImageError::NoMemory
    }
}

impl From<AllocError> for ImageError {
    ghost from_gives = { λ _ e. e ≡ OutOfMemory };

    fn from(_error: AllocError) -> ImageError {
        ImageError::NoMemory
    }
}

impl<T: Drop> From<AllocFailed<T>> for ImageError {
    ghost from_gives = { λ _ e. e ≡ OutOfMemory };

    fn from(_error: AllocFailed<T>) -> ImageError {
        ImageError::NoMemory
    }
}
