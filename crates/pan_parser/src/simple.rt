//! Statements that hold no block, behind their first token.

ghost use Rattle.std.specs.Prelude.{◌≡◌, ◌<◌, ◌≤◌, [], ◌∷◌, length, IfOk, IfErr, IfSome, IfNone};
ghost use Rattle.pan_base.specs.declared.tokens.Keyword.TheVariants as words;
ghost use Rattle.pan_base.specs.declared.tokens.Sign.TheVariants as signs;
ghost use Rattle.pan_base.specs.Tokens as kinds;
ghost use Rattle.pan_tree.specs.Grammar as grammar;
ghost use Rattle.pan_parser.specs.Machine as machine;
ghost use Rattle.pan_parser.specs.Reading.{left, Reads, Stops, Behind, foreign_rest};

use crate::calls::{begins_call, expr_end, expr_then, plain};
use crate::cursor::{expect, expect_name};
use crate::error::ParseError;
use pan_base::{Sign, Text};
use pan_lexer::Tokens;
use pan_tree::StmtKind;
use std::alloc::Global;

/// What `return` leaves the function with, and what follows.
#[tactic(auto, using(crate::proofs::StmtStarts::starts))]
pub fn returned(
    alloc: Global,
    tokens: &Tokens<'_>,
    at: usize,
    depth: u32,
) -> Result<(StmtKind, usize), ParseError>
    requires { depth ≤ grammar.nesting_limit }
    ensures tree { IfOk result (λ r. Behind (kinds.Reserved words.Return) depth (left tokens.now at) (left tokens.now r.1) r.0) }
    ensures reads { IfOk result (λ r. Reads (machine.WantReturned depth ∷ machine.WantSign signs.Semicolon ∷ []) (left tokens.now at) (left tokens.now r.1)) }
    ensures ahead { IfOk result (λ r. (at < r.1) × (r.1 ≤ length tokens.now.tokens)) }
    ensures err { IfErr result (λ e. Stops tokens.now.source_len (machine.WantReturned depth ∷ machine.WantSign signs.Semicolon ∷ []) (left tokens.now at) e) }
{
    if begins_call(tokens, at) {
        let (function, args, after) = plain(alloc, tokens, at, depth)?;
        let after = expect(tokens, after, Sign::Semicolon)?;
        return Ok((StmtKind::TailCall(function, args), after));
    }
    let (value, after) = expr_end(alloc, tokens, at, depth)?;
    Ok((StmtKind::Return(value), after))
}

/// What `raise` leaves the function with, and what follows.
pub fn raised(
    alloc: Global,
    tokens: &Tokens<'_>,
    at: usize,
    depth: u32,
) -> Result<(StmtKind, usize), ParseError>
    requires { depth ≤ grammar.nesting_limit }
    ensures tree { IfOk result (λ r. Behind (kinds.Reserved words.Raise) depth (left tokens.now at) (left tokens.now r.1) r.0) }
    ensures reads { IfOk result (λ r. Reads (machine.WantName ∷ machine.WantExpr depth ∷ machine.WantSign signs.Semicolon ∷ []) (left tokens.now at) (left tokens.now r.1)) }
    ensures ahead { IfOk result (λ r. (at < r.1) × (r.1 ≤ length tokens.now.tokens)) }
    ensures err { IfErr result (λ e. Stops tokens.now.source_len (machine.WantName ∷ machine.WantExpr depth ∷ machine.WantSign signs.Semicolon ∷ []) (left tokens.now at) e) }
{
    let (exception, after) = expect_name(alloc, tokens, at)?;
    let (value, after) = expr_end(alloc, tokens, after, depth)?;
    Ok((StmtKind::Raise(exception, value), after))
}

/// The four arguments of a foreign function, and what follows.
pub fn foreign(
    alloc: Global,
    tokens: &Tokens<'_>,
    at: usize,
    depth: u32,
    name: Text,
) -> Result<(StmtKind, usize), ParseError>
    requires { depth ≤ grammar.nesting_limit }
    ensures tree { IfOk result (λ r. Behind (kinds.Foreign name) depth (left tokens.now at) (left tokens.now r.1) r.0) }
    ensures reads { IfOk result (λ r. Reads (foreign_rest depth) (left tokens.now at) (left tokens.now r.1)) }
    ensures ahead { IfOk result (λ r. (at < r.1) × (r.1 ≤ length tokens.now.tokens)) }
    ensures err { IfErr result (λ e. Stops tokens.now.source_len (foreign_rest depth) (left tokens.now at) e) }
{
    let after = expect(tokens, at, Sign::OpenParen)?;
    let (config, after) = expr_then(alloc, tokens, after, depth, Sign::Comma)?;
    let (config_len, after) = expr_then(alloc, tokens, after, depth, Sign::Comma)?;
    let (array, after) = expr_then(alloc, tokens, after, depth, Sign::Comma)?;
    let (array_len, after) = expr_then(alloc, tokens, after, depth, Sign::CloseParen)?;
    let after = expect(tokens, after, Sign::Semicolon)?;
    let kind = StmtKind::Foreign(name, config, config_len, array, array_len);
    Ok((kind, after))
}
