//! The levels of operators.

/// A level of operators of two words: those of one level stand in one chain. The last binds the tightest.
#[derive(Clone, Copy, Debug, PartialEq, Eq)]
pub enum Level {
    /// `|`
    Or,
    /// `^`
    Xor,
    /// `&`
    And,
    /// `+` and `-`
    Sum,
    /// `*`
    Product,
}
