//! The tokens of a row, one after another.
//!
//! A reading function answers what it has read and the number of the token that follows. Its clauses: `tree`, the tokens
//! spell this by the grammar; `reads`, the machine of `specs/Machine.antt` has read the same, so no function says what
//! may follow; `ahead`, that some tokens were read; `err`, the machine stops where the error says.

ghost use Rattle.std.specs.Prelude.{◌≡◌, false, ◌+◌, ◌<◌, ◌≤◌, [], ◌∷◌, length, IfOk, IfErr, IfSome, IfNone};
ghost use Rattle.pan_base.specs.Tokens.{Kind, placed};
ghost use Rattle.pan_base.specs.Tokens as kinds;
ghost use Rattle.pan_tree.specs.Nodes.{between, node};
ghost use Rattle.pan_tree.specs.Grammar.{nesting_limit};
ghost use Rattle.pan_parser.specs.Machine as machine;
ghost use Rattle.pan_parser.specs.Answers.{place_of};
ghost use Rattle.pan_parser.specs.Follow.{BeginsNot, NoSign};
ghost use Rattle.pan_parser.specs.Reading.{left, Comes, IsOne, Reads, Stops};

use crate::error::ParseError;
use crate::text::text;
use pan_base::{Keyword, Sign, Span, Text, Token, TokenKind};
use pan_lexer::Tokens;
use pan_tree::Spanned;
use std::alloc::Global;

/// How deep brackets and prefix operators may nest.
const NESTING_LIMIT: u32 = 128;

/// The token of this number, from 0 on, and what follows it.
pub fn first<'a>(tokens: &'a Tokens<'_>, at: usize) -> Option<(Token<'a>, usize)>
    ensures some { IfSome result (λ r. Comes tokens.now at r.1 (placed r.0)) }
    ensures none { IfNone result (left tokens.now at ≡ []) }
{
    if at < tokens.len() {
        Some((tokens.get(at), at + 1))
    } else {
        None
    }
}

/// The place of what comes there.
fn place_of(tokens: &Tokens<'_>, at: usize) -> u32
    ensures { result ≡ place_of (left tokens.now at) tokens.now.source_len }
{
    match first(tokens, at) {
        Some((t, _)) => t.span.start,
        None => tokens.source_len() as u32,
    }
}

/// Nothing continues there.
pub fn syntax(tokens: &Tokens<'_>, at: usize) -> ParseError
    ensures { result ≡ ParseError.Syntax (place_of (left tokens.now at) tokens.now.source_len) }
{
    ParseError::Syntax(place_of(tokens, at))
}

/// How deep what follows nests, where the token opens one more.
pub fn deeper(tokens: &Tokens<'_>, at: usize, depth: u32) -> Result<u32, ParseError>
    ensures ok { IfOk result (λ deep. (deep ≡ depth + 1) × (depth < nesting_limit)) }
    ensures err { IfErr result (λ e. (e ≡ ParseError.TooDeep (place_of (left tokens.now at) tokens.now.source_len)) × (nesting_limit ≤ depth)) }
{
    if depth < NESTING_LIMIT {
        Ok(depth + 1)
    } else {
        Err(ParseError::TooDeep(place_of(tokens, at)))
    }
}

/// Whether the token is this sign.
fn is_sign(kind: TokenKind<'_>, sign: Sign) -> bool
    ensures { result ≡ machine.is_sign sign (kinds.kind_of kind.entry) }
{
    match kind {
        TokenKind::Sign(other) => other == sign,
        _ => false,
    }
}

/// Whether the token is this word.
fn is_word(kind: TokenKind<'_>, word: Keyword) -> bool
    ensures { result ≡ machine.is_word word (kinds.kind_of kind.entry) }
{
    match kind {
        TokenKind::Reserved(other) => other == word,
        _ => false,
    }
}

/// From the first byte of one token to the end of the last one before another.
pub fn span_between(tokens: &Tokens<'_>, from: usize, to: usize) -> Span
    requires some { from < to }
    requires within { to ≤ length tokens.now.tokens }
    ensures { result ≡ between (left tokens.now from) (left tokens.now to) }
{
    Span {
        start: tokens.get(from).span.start,
        end: tokens.get(to - 1).span.end,
    }
}

/// What the tokens from one to before another spell, with its place.
pub fn node<K: Drop>(tokens: &Tokens<'_>, from: usize, to: usize, kind: K) -> Spanned<K>
    requires some { from < to }
    requires within { to ≤ length tokens.now.tokens }
    ensures { result ≡ node (left tokens.now from) (left tokens.now to) kind }
{
    let span = span_between(tokens, from, to);
    Spanned { kind, span }
}

/// What follows the token, if it is this sign.
pub fn after_sign(tokens: &Tokens<'_>, at: usize, sign: Sign) -> Option<usize>
    ensures some { IfSome result (λ after. IsOne tokens.now at after (kinds.ASign sign)) }
    ensures none { IfNone result (NoSign sign (left tokens.now at)) }
{
    let (t, after) = first(tokens, at)?;
    if is_sign(t.kind, sign) {
        Some(after)
    } else {
        None
    }
}

/// What follows the token, which must be this sign.
pub fn expect(tokens: &Tokens<'_>, at: usize, sign: Sign) -> Result<usize, ParseError>
    ensures ok { IfOk result (λ after. IsOne tokens.now at after (kinds.ASign sign)) }
    ensures reads { IfOk result (λ after. Reads (machine.WantSign sign ∷ []) (left tokens.now at) (left tokens.now after)) }
    ensures err { IfErr result (λ e. Stops tokens.now.source_len (machine.WantSign sign ∷ []) (left tokens.now at) e) }
{
    match after_sign(tokens, at, sign) {
        Some(after) => Ok(after),
        None => Err(syntax(tokens, at)),
    }
}

/// What follows the token, if it is this word.
pub fn after_word(tokens: &Tokens<'_>, at: usize, word: Keyword) -> Option<usize>
    ensures some { IfSome result (λ after. IsOne tokens.now at after (kinds.Reserved word)) }
    ensures none { IfNone result (BeginsNot (λ v. machine.is_word word v ≡ false) (left tokens.now at)) }
{
    let (t, after) = first(tokens, at)?;
    if is_word(t.kind, word) {
        Some(after)
    } else {
        None
    }
}

/// What follows the token, which must be this word.
pub fn expect_word(tokens: &Tokens<'_>, at: usize, word: Keyword) -> Result<usize, ParseError>
    ensures ok { IfOk result (λ after. IsOne tokens.now at after (kinds.Reserved word)) }
    ensures reads { IfOk result (λ after. Reads (machine.WantWord word ∷ []) (left tokens.now at) (left tokens.now after)) }
    ensures err { IfErr result (λ e. Stops tokens.now.source_len (machine.WantWord word ∷ []) (left tokens.now at) e) }
{
    match after_word(tokens, at, word) {
        Some(after) => Ok(after),
        None => Err(syntax(tokens, at)),
    }
}

/// The number that comes, and what follows it.
pub fn expect_number(tokens: &Tokens<'_>, at: usize) -> Result<(u64, usize), ParseError>
    ensures ok { IfOk result (λ r. IsOne tokens.now at r.1 (kinds.Number r.0)) }
    ensures reads { IfOk result (λ r. Reads (machine.WantNumber ∷ []) (left tokens.now at) (left tokens.now r.1)) }
    ensures err { IfErr result (λ e. Stops tokens.now.source_len (machine.WantNumber ∷ []) (left tokens.now at) e) }
{
    let Some((t, after)) = first(tokens, at) else {
        return Err(syntax(tokens, at));
    };
    match t.kind {
        TokenKind::Number(n) => Ok((n, after)),
        _ => Err(syntax(tokens, at)),
    }
}

/// The name that comes, and what follows it.
pub fn expect_name(
    alloc: Global,
    tokens: &Tokens<'_>,
    at: usize,
) -> Result<(Text, usize), ParseError>
    ensures ok { IfOk result (λ r. IsOne tokens.now at r.1 (kinds.Name r.0)) }
    ensures reads { IfOk result (λ r. Reads (machine.WantName ∷ []) (left tokens.now at) (left tokens.now r.1)) }
    ensures err { IfErr result (λ e. Stops tokens.now.source_len (machine.WantName ∷ []) (left tokens.now at) e) }
{
    let Some((t, after)) = first(tokens, at) else {
        return Err(syntax(tokens, at));
    };
    match t.kind {
        TokenKind::Name(name) => {
            let name = text(alloc, name)?;
            Ok((name, after))
        }
        _ => Err(syntax(tokens, at)),
    }
}
