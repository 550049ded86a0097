//! Reserved words, and the words after `!` and `@`.

ghost use Rattle.std.specs.Prelude.{◌≡◌, option_map};
ghost use Rattle.pan_base.specs.Tokens.{kind_of, keyword_text};
ghost use Rattle.pan_lexer.specs.Pieces.{keyword_of, size_of, access_of, begins_letter, foreign_of};

use crate::bytes::is_letter;
use pan_base::{Keyword, Size, TokenKind};

/// The reserved words.
const KEYWORDS: [Keyword; 16] = [
    Keyword::Exception,
    Keyword::Fun,
    Keyword::Skip,
    Keyword::Var,
    Keyword::St,
    Keyword::Stb,
    Keyword::If,
    Keyword::Else,
    Keyword::While,
    Keyword::Break,
    Keyword::Continue,
    Keyword::Handle,
    Keyword::Return,
    Keyword::Raise,
    Keyword::Lds,
    Keyword::Ldb,
];

/// How the reserved word is spelled.
fn spelling(keyword: Keyword) -> &'static [u8]
    ensures { result.now ≡ keyword_text keyword }
{
    match keyword {
        Keyword::Exception => b"exception",
        Keyword::Fun => b"fun",
        Keyword::Skip => b"skip",
        Keyword::Var => b"var",
        Keyword::St => b"st",
        Keyword::Stb => b"stb",
        Keyword::If => b"if",
        Keyword::Else => b"else",
        Keyword::While => b"while",
        Keyword::Break => b"break",
        Keyword::Continue => b"continue",
        Keyword::Handle => b"handle",
        Keyword::Return => b"return",
        Keyword::Raise => b"raise",
        Keyword::Lds => b"lds",
        Keyword::Ldb => b"ldb",
    }
}

/// The reserved word.
#[tactic(auto, unfolding(crate::specs::Pieces::keyword_of))]
pub fn keyword(word: &[u8]) -> Option<Keyword>
    ensures { result ≡ keyword_of word.now }
{
    KEYWORDS
        .iter()
        .copied()
        .find(|keyword| word == spelling(*keyword))
}

/// The size that digits stand for, in bits.
#[tactic(auto, unfolding(crate::specs::Pieces::size_of))]
fn size(digits: &[u8]) -> Option<Size>
    ensures { result ≡ size_of digits.now }
{
    if digits == b"8".as_slice() {
        Some(Size::B1)
    } else if digits == b"16".as_slice() {
        Some(Size::B2)
    } else if digits == b"32".as_slice() {
        Some(Size::B4)
    } else if digits == b"64".as_slice() {
        Some(Size::B8)
    } else {
        None
    }
}

/// The access of the word after a `!`.
#[tactic(auto, unfolding(crate::specs::Pieces::access_of))]
pub fn access(word: &[u8]) -> Option<TokenKind<'_>>
    ensures { option_map kind_of result ≡ access_of word.now }
{
    if let Some(digits) = word.strip_prefix(b"ld") {
        return Some(TokenKind::Load(size(digits)?));
    }
    let digits = word.strip_prefix(b"st")?;
    Some(TokenKind::Store(size(digits)?))
}

/// Whether the word begins with a letter or `_`.
fn begins_letter(word: &[u8]) -> bool
    ensures { result ≡ begins_letter word.now }
{
    match word {
        [first, ..] => is_letter(*first),
        [] => false,
    }
}

/// The foreign name or constant of the word after an `@`.
#[tactic(auto, unfolding(crate::specs::Pieces::foreign_of))]
pub fn foreign(word: &[u8]) -> Option<TokenKind<'_>>
    ensures { option_map kind_of result ≡ foreign_of word.now }
{
    if word == b"base".as_slice() {
        Some(TokenKind::Base)
    } else if word == b"biw".as_slice() {
        Some(TokenKind::Biw)
    } else if begins_letter(word) {
        Some(TokenKind::Foreign(word))
    } else {
        None
    }
}
