//! Calls up to their closing parenthesis, and expressions up to a `;`.

ghost use Rattle.std.specs.Prelude.{◌≡◌, ◌<◌, ◌≤◌, [], ◌∷◌, length, IfOk, IfErr};
ghost use Rattle.pan_base.specs.declared.tokens.Sign.TheVariants as signs;
ghost use Rattle.pan_tree.specs.Grammar.{Within};
ghost use Rattle.pan_tree.specs.Grammar as grammar;
ghost use Rattle.pan_parser.specs.Machine as machine;
ghost use Rattle.pan_parser.specs.Reading.{left, Reads, Stops, begins_call, ClosedArguments, ExprThen};

use crate::cursor::{after_sign, expect, expect_name, first};
use crate::error::ParseError;
use crate::expressions::{expr, exprs};
use pan_base::{List, Sign, Text, TokenKind};
use pan_lexer::Tokens;
use pan_tree::Expr;
use std::alloc::Global;

/// Whether a name and a parenthesis come.
pub fn begins_call(tokens: &Tokens<'_>, at: usize) -> bool
    ensures { result ≡ begins_call (left tokens.now at) }
{
    let Some((t, next)) = first(tokens, at) else {
        return false;
    };
    match t.kind {
        TokenKind::Name(_) => after_sign(tokens, next, Sign::OpenParen).is_some(),
        _ => false,
    }
}

/// Expressions, if there are any, up to the closing parenthesis, and what follows it.
#[tactic(auto, using(crate::proofs::StmtStarts::starts))]
fn arguments(
    alloc: Global,
    tokens: &Tokens<'_>,
    at: usize,
    depth: u32,
) -> Result<(List<Expr>, usize), ParseError>
    requires { depth ≤ grammar.nesting_limit }
    ensures tree { IfOk result (λ r. ClosedArguments depth (left tokens.now at) (left tokens.now r.1) r.0) }
    ensures reads { IfOk result (λ r. Reads (machine.MayArguments depth ∷ machine.WantSign signs.CloseParen ∷ []) (left tokens.now at) (left tokens.now r.1)) }
    ensures ahead { IfOk result (λ r. (at < r.1) × (r.1 ≤ length tokens.now.tokens)) }
    ensures err { IfErr result (λ e. Stops tokens.now.source_len (machine.MayArguments depth ∷ machine.WantSign signs.CloseParen ∷ []) (left tokens.now at) e) }
{
    if let Some(after) = after_sign(tokens, at, Sign::CloseParen) {
        return Ok((List::new(alloc), after));
    }
    let (arguments, after) = exprs(alloc, tokens, at, depth)?;
    let after = expect(tokens, after, Sign::CloseParen)?;
    Ok((arguments, after))
}

/// The name and the arguments of a call, and what follows it.
#[tactic(auto, using(crate::proofs::StmtStarts::starts))]
pub fn plain(
    alloc: Global,
    tokens: &Tokens<'_>,
    at: usize,
    depth: u32,
) -> Result<(Text, List<Expr>, usize), ParseError>
    requires { depth ≤ grammar.nesting_limit }
    ensures tree { IfOk result (λ r. grammar.Plain Within depth (left tokens.now at) (left tokens.now r.2) r.0 r.1) }
    ensures reads { IfOk result (λ r. Reads (machine.WantPlain depth ∷ []) (left tokens.now at) (left tokens.now r.2)) }
    ensures ahead { IfOk result (λ r. (at < r.2) × (r.2 ≤ length tokens.now.tokens)) }
    ensures err { IfErr result (λ e. Stops tokens.now.source_len (machine.WantPlain depth ∷ []) (left tokens.now at) e) }
{
    let (name, after) = expect_name(alloc, tokens, at)?;
    let after = expect(tokens, after, Sign::OpenParen)?;
    let (arguments, after) = arguments(alloc, tokens, after, depth)?;
    Ok((name, arguments, after))
}

/// An expression and a sign behind it, and what follows.
pub fn expr_then(
    alloc: Global,
    tokens: &Tokens<'_>,
    at: usize,
    depth: u32,
    sign: Sign,
) -> Result<(Expr, usize), ParseError>
    requires { depth ≤ grammar.nesting_limit }
    ensures tree { IfOk result (λ r. ExprThen sign depth (left tokens.now at) (left tokens.now r.1) r.0) }
    ensures reads { IfOk result (λ r. Reads (machine.WantExpr depth ∷ machine.WantSign sign ∷ []) (left tokens.now at) (left tokens.now r.1)) }
    ensures ahead { IfOk result (λ r. (at < r.1) × (r.1 ≤ length tokens.now.tokens)) }
    ensures err { IfErr result (λ e. Stops tokens.now.source_len (machine.WantExpr depth ∷ machine.WantSign sign ∷ []) (left tokens.now at) e) }
{
    let (value, after) = expr(alloc, tokens, at, depth)?;
    let after = expect(tokens, after, sign)?;
    Ok((value, after))
}

/// An expression and a `;`, and what follows.
pub fn expr_end(
    alloc: Global,
    tokens: &Tokens<'_>,
    at: usize,
    depth: u32,
) -> Result<(Expr, usize), ParseError>
    requires { depth ≤ grammar.nesting_limit }
    ensures tree { IfOk result (λ r. grammar.ExprEnd Within depth (left tokens.now at) (left tokens.now r.1) r.0) }
    ensures reads { IfOk result (λ r. Reads (machine.WantExpr depth ∷ machine.WantSign signs.Semicolon ∷ []) (left tokens.now at) (left tokens.now r.1)) }
    ensures ahead { IfOk result (λ r. (at < r.1) × (r.1 ≤ length tokens.now.tokens)) }
    ensures err { IfErr result (λ e. Stops tokens.now.source_len (machine.WantExpr depth ∷ machine.WantSign signs.Semicolon ∷ []) (left tokens.now at) e) }
{
    let (value, after) = expr_then(alloc, tokens, at, depth, Sign::Semicolon)?;
    Ok((value, after))
}

/// Two expressions with a comma between them and a `;`, and what follows.
pub fn two_exprs(
    alloc: Global,
    tokens: &Tokens<'_>,
    at: usize,
    depth: u32,
) -> Result<(Expr, Expr, usize), ParseError>
    requires { depth ≤ grammar.nesting_limit }
    ensures tree { IfOk result (λ r. grammar.TwoExprs Within depth (left tokens.now at) (left tokens.now r.2) r.0 r.1) }
    ensures reads { IfOk result (λ r. Reads (machine.two_exprs depth []) (left tokens.now at) (left tokens.now r.2)) }
    ensures ahead { IfOk result (λ r. (at < r.2) × (r.2 ≤ length tokens.now.tokens)) }
    ensures err { IfErr result (λ e. Stops tokens.now.source_len (machine.two_exprs depth []) (left tokens.now at) e) }
{
    let (one, after) = expr_then(alloc, tokens, at, depth, Sign::Comma)?;
    let (other, after) = expr_end(alloc, tokens, after, depth)?;
    Ok((one, other, after))
}
