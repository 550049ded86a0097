//! Why a source has no tokens.

use pan_base::NoMemory;
use std::alloc::AllocError;

/// Why a source has no tokens. Places are in bytes, from 0 on.
#[derive(Clone, Copy, Debug, PartialEq, Eq)]
pub enum LexError {
    /// The source has more than 1,048,576 bytes.
    TooLong,
    /// No token begins with this byte here, and it's neither in a number nor in a comment.
    BadByte(u32),
    /// The number that begins here isn't below 2^64, has no digit after its `0x`, or runs into a letter or `_`.
    BadNumber(u32),
    /// The comment that begins here with `/*` has no end.
    OpenComment(u32),
    /// There is no memory.
    NoMemory,
}

impl From<NoMemory> for LexError {
    ghost use Rattle.std.specs.Prelude.{◌≡◌};
    ghost use Rattle.pan_lexer.specs.declared.error.LexError.TheVariants.{NoMemory};

    ghost from_gives = { λ _ e. e ≡ NoMemory };

    fn from(_error: NoMemory) -> LexError {
        LexError::NoMemory
    }
}

impl From<AllocError> for LexError {
    ghost use Rattle.std.specs.Prelude.{◌≡◌};
    ghost use Rattle.pan_lexer.specs.declared.error.LexError.TheVariants.{NoMemory};

    ghost from_gives = { λ _ e. e ≡ NoMemory };

    fn from(_error: AllocError) -> LexError {
        LexError::NoMemory
    }
}
