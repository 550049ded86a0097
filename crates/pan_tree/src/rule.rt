//! The rules that a program keeps.

/// A rule of the check. Where one part of a program breaks several, the first of these is told.
#[derive(Clone, Copy, Debug, PartialEq, Eq)]
pub enum Rule {
    /// An earlier exception, function, parameter or variable of the same block has the name.
    TwoNames,
    /// There is no function `main`.
    NoMain,
    /// `main` has a parameter, or its result isn't one word.
    MainShape,
    /// No variable has the name here.
    UnknownName,
    /// No function has the name.
    UnknownFunction,
    /// No exception has the name.
    UnknownException,
    /// A value has another shape than where it goes.
    WrongShape,
    /// A call has more or fewer arguments than the function has parameters.
    WrongCount,
    /// A part is taken of a word.
    NotStruct,
    /// A struct has no part of this number.
    NoField,
    /// A value that must be a word isn't one.
    NotWord,
    /// A word is shifted by more than 63.
    BadShift,
    /// `break` or `continue` stands in no loop.
    LoopOutside,
    /// The body of a function may end without a return or a raise.
    NoReturn,
    /// A shape, or the parameters of a function together, have more than 64 words.
    ShapeTooWide,
    /// There are more than 1,024 exceptions, 4,096 functions or 1,024 foreign names, or a foreign name has more than 64 bytes.
    TooMany,
    /// A function weighs more than 16,384.
    FunctionTooHeavy,
    /// The functions weigh more than 262,144 together.
    ProgramTooHeavy,
}
