//! From the bytes of a source to its tokens.

ghost use Rattle.std.specs.Prelude.{◌≡◌, ℕ, ◌-◌, ◌<◌, ◌≤◌, ◌++◌, ◌⊎◌, List, length, map, IfOk, IfErr, OnOk, MatchResult};
ghost use Rattle.pan_base.specs.Lexing.{Lexes, begins_number};
ghost use Rattle.pan_base.specs.Tokens.{Placed, placed};
ghost use Rattle.pan_lexer.specs.Found.{kind_in, tokens_in};
ghost use Rattle.pan_lexer.specs.Refusal.{Refusal, IsStuckBy, error_at};
ghost use Rattle.pan_lexer.specs.TokenRow.{source_limit};
ghost use Rattle.pan_lexer.specs.declared.error.LexError.{LexError as IsLexError};

use crate::error::LexError;
use crate::pieces::{Piece, next_piece};
use crate::tokens::Tokens;
use pan_base::{List, Span, Token};
use std::alloc::{AllocError, Global};

/// The longest source, in bytes.
pub const MAX_SOURCE_LEN: usize = 1_048_576;

/// Whether a number begins here.
fn begins_number(rest: &[u8]) -> bool
    ensures { result ≡ begins_number rest.now }
{
    match rest {
        [first, ..] => first.is_ascii_digit(),
        [] => false,
    }
}

/// Why nothing goes on at the place, where this begins.
fn error_at(place: u32, rest: &[u8]) -> LexError
    ensures { result ≡ error_at place rest.now }
{
    if begins_number(rest) {
        LexError::BadNumber(place)
    } else if rest.starts_with(b"/*") {
        LexError::OpenComment(place)
    } else {
        LexError::BadByte(place)
    }
}

/// Where the rest of the text begins.
fn place_of(bytes: &[u8], rest: &[u8]) -> u32
    requires size { length bytes.now ≤ source_limit }
    requires within { length rest.now ≤ length bytes.now }
    ensures { result ≡ length bytes.now - length rest.now }
{
    (bytes.len() - rest.len()) as u32
}

/// Puts the token at the end, and nothing for a gap.
fn put<'a>(tokens: &mut List<Token<'a>>, piece: Piece<'a>, span: Span) -> Result<(), AllocError>
    ensures { OnOk result (map placed tokens.new ≡ map placed tokens.old ++ tokens_in (kind_in piece.entry) span) }
{
    if let Piece::Token(kind) = piece {
        tokens.push(Token { kind, span })?;
    }
    Ok(())
}

/// The tokens of the text, each the longest match, with gaps between them.
fn scan(alloc: Global, bytes: &[u8]) -> Result<List<Token<'_>>, LexError>
    requires { length bytes.now ≤ source_limit }
    ensures ok { IfOk result (λ tokens. Lexes bytes.now (map placed tokens)) }
    ensures err { IfErr result (λ e. (e ≡ LexError.NoMemory) ⊎ IsStuckBy bytes.now e) }
{
    let mut tokens = List::new(alloc);
    let mut rest = bytes;
    'pieces: while !rest.is_empty() {
        let start = place_of(bytes, rest);
        let Some((piece, after)) = next_piece(rest) else {
            return Err(error_at(start, rest));
        };
        let end = place_of(bytes, after);
        put(&mut tokens, piece, Span { start, end })?;
        rest = after;
    }
    Ok(tokens)
}

/// The tokens of a source.
///
/// # Errors
///
/// `TooLong` for more than 1,048,576 bytes. Otherwise the first place at which neither white space nor a comment nor a
/// token begins: `BadNumber` where a digit stands there, `OpenComment` where a comment begins there, and else `BadByte`.
/// `NoMemory` may come in place of any answer but `TooLong`.
pub fn lex(alloc: Global, bytes: &[u8]) -> Result<Tokens<'_>, LexError>
    ensures tokens { IfOk result (λ t. Lexes bytes.now t.tokens) }
    ensures source { IfOk result (λ t. t.source_len ≡ length bytes.now) }
    ensures refused { IfErr result (λ e. (e ≡ LexError.NoMemory) ⊎ Refusal bytes.now e) }

    // which answer comes
    ensures too_long { source_limit < length bytes.now → result ≡ Err LexError.TooLong }
    ensures lexed { (row : List Placed) → Lexes bytes.now row → length bytes.now ≤ source_limit
        → MatchResult result (λ t. t.tokens ≡ row) (λ e. e ≡ LexError.NoMemory) }
    ensures stuck { (e : IsLexError) → Refusal bytes.now e → (result ≡ Err e) ⊎ (result ≡ Err LexError.NoMemory) }
{
    if bytes.len() > MAX_SOURCE_LEN {
        return Err(LexError::TooLong);
    }
    let tokens = scan(alloc, bytes)?;
    Ok(Tokens::new(tokens, bytes.len()))
}
