//! What a runner does next.

use crate::questions::Question;
use crate::value::Value;
use pan_base::List;

/// How a run ends of itself.
#[derive(Clone, Copy)]
pub enum Ending {
    /// Main returned this word.
    Exit(u64),
    /// The exception of this number left main.
    Uncaught(usize),
    /// A step failed.
    Fails,
}

/// What a runner does next.
#[derive(Drop)]
pub enum Phase<'a> {
    /// Enters a function.
    Enter(usize, List<Value>),
    /// Enters a function, as soon as there is a unit of fuel.
    Call(usize, List<Value>),
    /// Lets a function take the place of the running one, as soon as there is a unit of fuel.
    TailCall(usize, List<Value>),
    /// Begins a turn of a loop, as soon as there is a unit of fuel.
    Turn,
    /// A statement has ended normally.
    Next,
    /// The innermost loop is left.
    Break,
    /// The innermost loop goes on with its next turn.
    Continue,
    /// The function returns this value.
    Return(Value),
    /// An exception leaves the function.
    Raise(usize, Value),
    /// A function takes the place of the running one.
    Become(usize, List<Value>),
    /// Waits for a reply.
    Asks(Question<'a>),
    /// A reply didn't fit what was asked.
    Refused(Question<'a>),
    /// The run is over.
    Ended(Ending),
}
