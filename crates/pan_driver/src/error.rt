//! Why a source isn't built.

ghost use Rattle.std.specs.Prelude.{◌≡◌};
ghost use Rattle.pan_driver.specs.Errors.{source_error};

use front_end::SourceError;
use pan_base::NoMemory;
use pan_lexer::LexError;
use pan_parser::ParseError;
use pan_shapes::CheckError;
use thiserror::Error;

/// Why a source isn't built.
#[derive(Clone, Copy, Debug, PartialEq, Eq, Error)]
pub enum BuildError {
    #[error("the source has no tokens: {0:?}")]
    Lex(LexError),
    #[error("the tokens spell no program: {0:?}")]
    Parse(ParseError),
    #[error("the program breaks a rule: {0:?}")]
    Check(CheckError),
    #[error("out of memory")]
    NoMemory,
}

impl BuildError {
    /// The same as an error of the source, which has a place and a cause.
    pub fn source_error(self) -> SourceError
        ensures { result ≡ source_error self }
    {
        match self {
            BuildError::Lex(error) => SourceError::Lex(error),
            BuildError::Parse(error) => SourceError::Parse(error),
            BuildError::Check(error) => SourceError::Check(error),
            BuildError::NoMemory => SourceError::NoMemory,
        }
    }
}

impl From<NoMemory> for BuildError {
    ghost use Rattle.std.specs.Prelude.{◌≡◌};
    ghost use Rattle.pan_driver.specs.declared.error.BuildError.TheVariants.{NoMemory};

    ghost from_gives = { λ _ e. e ≡ NoMemory };

    fn from(_error: NoMemory) -> BuildError {
        BuildError::NoMemory
    }
}

impl From<SourceError> for BuildError {
    ghost use Rattle.std.specs.Prelude.{◌≡◌};
    ghost use Rattle.pan_driver.specs.Errors.{of_source};

    ghost from_gives = { λ inner e. e ≡ of_source inner };

    fn from(error: SourceError) -> BuildError {
        match error {
            SourceError::Lex(error) => BuildError::Lex(error),
            SourceError::Parse(error) => BuildError::Parse(error),
            SourceError::Check(error) => BuildError::Check(error),
            SourceError::NoMemory => BuildError::NoMemory,
        }
    }
}
