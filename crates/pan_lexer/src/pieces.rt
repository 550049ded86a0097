//! What a text begins with.

ghost use Rattle.std.specs.Prelude.{◌≡◌, option_map};
ghost use Rattle.pan_base.specs.Tokens.{kind_of};
ghost use Rattle.pan_lexer.specs.Pieces.{number_token, word_token, access_token, foreign_token, sign_token, token_of, piece_of};
ghost use Rattle.pan_lexer.specs.Found.{kind_in};

use crate::bytes::{first, is_letter, split_word};
use crate::comments::after_gap;
use crate::signs::{sign, sign_len};
use crate::words::{access, foreign, keyword};
use numerals::number;
use pan_base::TokenKind;

/// What a text begins with.
#[derive(Clone, Copy)]
pub enum Piece<'a> {
    /// A byte of white space, or a comment.
    Gap,
    Token(TokenKind<'a>),
}

/// A token, and what follows it.
type Cut<'a> = (TokenKind<'a>, &'a [u8]);

/// The number that the text begins with.
#[tactic(auto, unfolding(crate::specs::Pieces::number_token))]
fn number_token(bytes: &[u8]) -> Option<Cut<'_>>
    ensures { option_map (λ r. (kind_of r.0, r.1.now)) result ≡ number_token bytes.now }
{
    let (word, after) = split_word(bytes);
    Some((TokenKind::Number(number(word)?), after))
}

/// The name or reserved word that the text begins with.
#[tactic(auto, unfolding(crate::specs::Pieces::word_token))]
fn word_token(bytes: &[u8]) -> Option<Cut<'_>>
    ensures { option_map (λ r. (kind_of r.0, r.1.now)) result ≡ word_token bytes.now }
{
    let (word, after) = split_word(bytes);
    let kind = match keyword(word) {
        Some(keyword) => TokenKind::Reserved(keyword),
        None => TokenKind::Name(word),
    };
    Some((kind, after))
}

/// The access that goes on after a `!`.
#[tactic(auto, unfolding(crate::specs::Pieces::access_token))]
fn access_token(bytes: &[u8]) -> Option<Cut<'_>>
    ensures { option_map (λ r. (kind_of r.0, r.1.now)) result ≡ access_token bytes.now }
{
    let (word, after) = split_word(bytes);
    Some((access(word)?, after))
}

/// The foreign name or constant that goes on after an `@`.
#[tactic(auto, unfolding(crate::specs::Pieces::foreign_token))]
fn foreign_token(bytes: &[u8]) -> Option<Cut<'_>>
    ensures { option_map (λ r. (kind_of r.0, r.1.now)) result ≡ foreign_token bytes.now }
{
    let (word, after) = split_word(bytes);
    Some((foreign(word)?, after))
}

/// The sign that the text begins with.
#[tactic(auto, unfolding(crate::specs::Pieces::sign_token))]
fn sign_token(bytes: &[u8]) -> Option<Cut<'_>>
    ensures { option_map (λ r. (kind_of r.0, r.1.now)) result ≡ sign_token bytes.now }
{
    let sign = sign(bytes)?;
    Some((TokenKind::Sign(sign), &bytes[sign_len(sign)..]))
}

/// The first token, and what follows it.
#[tactic(auto, unfolding(crate::specs::Pieces::token_of))]
fn token(bytes: &[u8]) -> Option<Cut<'_>>
    ensures { option_map (λ r. (kind_of r.0, r.1.now)) result ≡ token_of bytes.now }
{
    let (first, more) = first(bytes)?;
    if first.is_ascii_digit() {
        number_token(bytes)
    } else if is_letter(first) {
        word_token(bytes)
    } else if first == b'@' {
        foreign_token(more)
    } else if first == b'!' {
        access_token(more).or(sign_token(bytes))
    } else {
        sign_token(bytes)
    }
}

/// What the text begins with, and what follows it.
#[tactic(auto, unfolding(crate::specs::Pieces::piece_of))]
pub fn next_piece(bytes: &[u8]) -> Option<(Piece<'_>, &[u8])>
    ensures { option_map (λ r. (kind_in r.0, r.1.now)) result ≡ piece_of bytes.now }
{
    if let Some(after) = after_gap(bytes) {
        return Some((Piece::Gap, after));
    }
    let (kind, after) = token(bytes)?;
    Some((Piece::Token(kind), after))
}
