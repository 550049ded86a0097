//! Why a source has no program that keeps every rule.

ghost use Rattle.std.specs.Prelude.{◌≡◌};
ghost use Rattle.front_end.specs.Causes.{cause_of, place_of, rule_text};

use pan_lexer::LexError;
use pan_parser::ParseError;
use pan_shapes::{CheckError, Rule};

/// Why a source has no program that keeps every rule.
#[derive(Clone, Copy, Debug, PartialEq, Eq)]
pub enum SourceError {
    /// It has no tokens.
    Lex(LexError),
    /// Its tokens spell no program.
    Parse(ParseError),
    /// Its program breaks a rule.
    Check(CheckError),
    /// There is no memory.
    NoMemory,
}

impl SourceError {
    /// Where the source goes wrong, in bytes from 0 on; 0 where no place is to blame.
    pub fn place(self) -> u32
        ensures { result ≡ place_of self }
    {
        match self {
            SourceError::Lex(
                LexError::BadByte(place)
                | LexError::BadNumber(place)
                | LexError::OpenComment(place),
            )
            | SourceError::Parse(ParseError::Syntax(place) | ParseError::TooDeep(place))
            | SourceError::Check(CheckError::Breaks { rule: _, place }) => place,
            SourceError::Lex(LexError::TooLong | LexError::NoMemory)
            | SourceError::Parse(ParseError::NoMemory)
            | SourceError::Check(CheckError::NoMemory)
            | SourceError::NoMemory => 0,
        }
    }

    /// The name of what is wrong there.
    pub fn cause(self) -> &'static str
        ensures { result.now ≡ cause_of self }
    {
        match self {
            SourceError::Lex(LexError::TooLong) => "TooLong",
            SourceError::Lex(LexError::BadByte(_)) => "BadByte",
            SourceError::Lex(LexError::BadNumber(_)) => "BadNumber",
            SourceError::Lex(LexError::OpenComment(_)) => "OpenComment",
            SourceError::Parse(ParseError::Syntax(_)) => "Syntax",
            SourceError::Parse(ParseError::TooDeep(_)) => "TooDeep",
            SourceError::Check(CheckError::Breaks { rule, place: _ }) => name_of_rule(rule),
            SourceError::Lex(LexError::NoMemory)
            | SourceError::Parse(ParseError::NoMemory)
            | SourceError::Check(CheckError::NoMemory)
            | SourceError::NoMemory => "NoMemory",
        }
    }
}

/// The name of a rule.
fn name_of_rule(rule: Rule) -> &'static str
    ensures { result.now ≡ rule_text rule }
{
    match rule {
        Rule::TwoNames => "TwoNames",
        Rule::NoMain => "NoMain",
        Rule::MainShape => "MainShape",
        Rule::UnknownName => "UnknownName",
        Rule::UnknownFunction => "UnknownFunction",
        Rule::UnknownException => "UnknownException",
        Rule::WrongShape => "WrongShape",
        Rule::WrongCount => "WrongCount",
        Rule::NotStruct => "NotStruct",
        Rule::NoField => "NoField",
        Rule::NotWord => "NotWord",
        Rule::BadShift => "BadShift",
        Rule::LoopOutside => "LoopOutside",
        Rule::NoReturn => "NoReturn",
        Rule::ShapeTooWide => "ShapeTooWide",
        Rule::TooMany => "TooMany",
        Rule::FunctionTooHeavy => "FunctionTooHeavy",
        Rule::ProgramTooHeavy => "ProgramTooHeavy",
    }
}

impl From<LexError> for SourceError {
    ghost use Rattle.std.specs.Prelude.{◌≡◌};
    ghost use Rattle.front_end.specs.Inner.{of_lex};

    ghost from_gives = { λ inner e. e ≡ of_lex inner };

    fn from(error: LexError) -> SourceError {
        match error {
            LexError::NoMemory => SourceError::NoMemory,
            _ => SourceError::Lex(error),
        }
    }
}

impl From<ParseError> for SourceError {
    ghost use Rattle.std.specs.Prelude.{◌≡◌};
    ghost use Rattle.front_end.specs.Inner.{of_parse};

    ghost from_gives = { λ inner e. e ≡ of_parse inner };

    fn from(error: ParseError) -> SourceError {
        match error {
            ParseError::NoMemory => SourceError::NoMemory,
            _ => SourceError::Parse(error),
        }
    }
}

impl From<CheckError> for SourceError {
    ghost use Rattle.std.specs.Prelude.{◌≡◌};
    ghost use Rattle.front_end.specs.Inner.{of_check};

    ghost from_gives = { λ inner e. e ≡ of_check inner };

    fn from(error: CheckError) -> SourceError {
        match error {
            CheckError::NoMemory => SourceError::NoMemory,
            _ => SourceError::Check(error),
        }
    }
}
