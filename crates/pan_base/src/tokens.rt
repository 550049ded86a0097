//! The tokens of a source.

use crate::events::Size;
use crate::span::Span;

/// A reserved word, by its spelling: `Exception` is `exception`.
#[derive(Clone, Copy, Debug, PartialEq, Eq)]
pub enum Keyword {
    Exception,
    Fun,
    Skip,
    Var,
    St,
    Stb,
    If,
    Else,
    While,
    Break,
    Continue,
    Handle,
    Return,
    Raise,
    Lds,
    Ldb,
}

/// A sign.
#[derive(Clone, Copy, Debug, PartialEq, Eq)]
pub enum Sign {
    /// `(`
    OpenParen,
    /// `)`
    CloseParen,
    /// `{`
    OpenBrace,
    /// `}`
    CloseBrace,
    /// `<`
    Less,
    /// `>`
    Greater,
    /// `,`
    Comma,
    /// `;`
    Semicolon,
    /// `.`
    Dot,
    /// `=`
    Assign,
    /// `+`
    Plus,
    /// `-`
    Minus,
    /// `*`
    Star,
    /// `&`
    And,
    /// `|`
    Or,
    /// `^`
    Xor,
    /// `==`
    Equal,
    /// `!=`
    NotEqual,
    /// `>=`
    NotLess,
    /// `<+`
    LessU,
    /// `>=+`
    NotLessU,
    /// `<<`
    ShiftLeft,
    /// `>>>`
    ShiftRight,
    /// `>>`
    ShiftSigned,
    /// `#>>`
    Rotate,
}

/// What a token is. Names are the bytes of the source.
#[derive(Clone, Copy)]
pub enum TokenKind<'a> {
    /// A name that is no reserved word.
    Name(&'a [u8]),
    /// A reserved word.
    Reserved(Keyword),
    /// A number below 2^64.
    Number(u64),
    /// `!ld8`, `!ld16`, `!ld32` or `!ld64`.
    Load(Size),
    /// `!st8`, `!st16`, `!st32` or `!st64`.
    Store(Size),
    /// `@` and a name, which is without the `@` here.
    Foreign(&'a [u8]),
    /// `@base`
    Base,
    /// `@biw`
    Biw,
    /// A sign.
    Sign(Sign),
}

/// A token, and where it stands.
#[derive(Clone, Copy)]
pub struct Token<'a> {
    pub kind: TokenKind<'a>,
    pub span: Span,
}
