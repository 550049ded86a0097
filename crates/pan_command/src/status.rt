//! How a call ends.

ghost use Rattle.std.specs.Prelude.{◌≡◌};
ghost use Rattle.pan_command.specs.Status.{code, end_code};

use pan_base::End;

/// How a call ends.
#[derive(Clone, Copy, Debug, PartialEq, Eq)]
pub enum Status {
    /// The action did what it is for.
    Done,
    /// The words are those of no action.
    Usage,
    /// A file could not be read.
    Unread,
    /// The source is refused.
    Refused,
    /// The image's bytes are no image.
    NoImage,
    /// The script is refused.
    NoScript,
    /// A file could not be written.
    Unwritten,
    /// A line could not be put.
    Unput,
    /// There was no memory.
    NoMemory,
    /// A run ended so.
    Ran(End),
}

impl Status {
    /// The exit status.
    pub fn code(self) -> u8
        ensures { result ≡ code self }
    {
        match self {
            Status::Done => 0,
            Status::Usage => 2,
            Status::Unread => 3,
            Status::Refused => 4,
            Status::NoImage => 5,
            Status::NoScript => 6,
            Status::Unwritten | Status::Unput => 7,
            Status::NoMemory => 8,
            Status::Ran(end) => code_of(end),
        }
    }
}

/// The exit status of an end of a run.
fn code_of(end: End) -> u8
    ensures { result ≡ end_code end }
{
    match end {
        End::Exit(_) => 0,
        End::Spent => 10,
        End::Stack => 11,
        End::Stopped => 12,
        End::Fault | End::Fails => 13,
        End::Uncaught(_) => 14,
        End::Asks => 15,
    }
}
