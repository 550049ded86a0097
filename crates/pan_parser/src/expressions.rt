//! Expressions.

ghost use Rattle.std.specs.Prelude.{◌≡◌, ◌<◌, ◌≤◌, [], ◌∷◌, length, IfOk, IfErr};
ghost use Rattle.pan_tree.specs.Grammar.{Within};
ghost use Rattle.pan_tree.specs.Grammar as grammar;
ghost use Rattle.pan_tree.specs.Nodes as nodes;
ghost use Rattle.pan_parser.specs.Machine as machine;
ghost use Rattle.pan_parser.specs.Reading.{left, Reads, Stops, SomeExprs, NoPrefix};

use crate::cursor::{after_sign, deeper, expect, first, node, syntax};
use crate::error::ParseError;
use crate::operators::{comparison_at, fields, operator_at, shifts};
use crate::shapes::shape;
use crate::text::text;
use pan_base::{BinOp, Boxed, Keyword, List, ShOp, Sign, TokenKind, single};
use pan_lexer::Tokens;
use pan_tree::{Expr, ExprKind, Level};
use std::alloc::{AllocError, Global};

/// A part with the operators behind it: one node, or the part alone.
fn chained(
    alloc: Global,
    tokens: &Tokens<'_>,
    at: usize,
    after: usize,
    part: Expr,
    terms: List<(BinOp, Expr)>,
) -> Result<Expr, AllocError>
    requires some { at < after }
    requires within { after ≤ length tokens.now.tokens }
    ensures { IfOk result (λ x. x ≡ nodes.chain (left tokens.now at) (left tokens.now after) part terms) }
{
    if terms.is_empty() {
        return Ok(part);
    }
    let part = Boxed::new(alloc, part)?;
    Ok(node(tokens, at, after, ExprKind::Chain(part, terms)))
}

/// A part with the shifts behind it: one node, or the part alone.
fn shifted(
    alloc: Global,
    tokens: &Tokens<'_>,
    at: usize,
    after: usize,
    part: Expr,
    amounts: List<(ShOp, u64)>,
) -> Result<Expr, AllocError>
    requires some { at < after }
    requires within { after ≤ length tokens.now.tokens }
    ensures { IfOk result (λ x. x ≡ nodes.shifted (left tokens.now at) (left tokens.now after) part amounts) }
{
    if amounts.is_empty() {
        return Ok(part);
    }
    let part = Boxed::new(alloc, part)?;
    Ok(node(tokens, at, after, ExprKind::Shift(part, amounts)))
}

/// A part with the numbers of fields behind it: one node, or the part alone.
fn field(
    alloc: Global,
    tokens: &Tokens<'_>,
    at: usize,
    after: usize,
    part: Expr,
    indices: List<u64>,
) -> Result<Expr, AllocError>
    requires some { at < after }
    requires within { after ≤ length tokens.now.tokens }
    ensures { IfOk result (λ x. x ≡ nodes.field (left tokens.now at) (left tokens.now after) part indices) }
{
    if indices.is_empty() {
        return Ok(part);
    }
    let part = Boxed::new(alloc, part)?;
    Ok(node(tokens, at, after, ExprKind::Field(part, indices)))
}

/// An expression, and what follows it.
#[cycle(expr)]
#[tactic(auto, using(crate::proofs::Starts::starts))]
pub fn expr(
    alloc: Global,
    tokens: &Tokens<'_>,
    at: usize,
    depth: u32,
) -> Result<(Expr, usize), ParseError>
    requires { depth ≤ grammar.nesting_limit }
    ensures tree { IfOk result (λ r. grammar.AnExpr Within depth (left tokens.now at) (left tokens.now r.1) r.0) }
    ensures reads { IfOk result (λ r. Reads (machine.WantExpr depth ∷ []) (left tokens.now at) (left tokens.now r.1)) }
    ensures ahead { IfOk result (λ r. (at < r.1) × (r.1 ≤ length tokens.now.tokens)) }
    ensures err { IfErr result (λ e. Stops tokens.now.source_len (machine.WantExpr depth ∷ []) (left tokens.now at) e) }
{
    let (one, after) = chain(alloc, tokens, at, depth, Level::Or)?;
    let Some((comparison, next)) = comparison_at(tokens, after) else {
        return Ok((one, after));
    };
    let (other, after) = chain(alloc, tokens, next, depth, Level::Or)?;
    let one = Boxed::new(alloc, one)?;
    let other = Boxed::new(alloc, other)?;
    let kind = ExprKind::Compare(comparison, one, other);
    Ok((node(tokens, at, after, kind), after))
}

/// One expression or more, with commas between them, and what follows.
#[cycle(expr)]
pub fn exprs(
    alloc: Global,
    tokens: &Tokens<'_>,
    at: usize,
    depth: u32,
) -> Result<(List<Expr>, usize), ParseError>
    requires { depth ≤ grammar.nesting_limit }
    ensures tree { IfOk result (λ r. SomeExprs depth (left tokens.now at) (left tokens.now r.1) r.0) }
    ensures reads { IfOk result (λ r. Reads (machine.WantExpr depth ∷ machine.MoreExprs depth ∷ []) (left tokens.now at) (left tokens.now r.1)) }
    ensures ahead { IfOk result (λ r. (at < r.1) × (r.1 ≤ length tokens.now.tokens)) }
    ensures err { IfErr result (λ e. Stops tokens.now.source_len (machine.WantExpr depth ∷ machine.MoreExprs depth ∷ []) (left tokens.now at) e) }
{
    let (part, after) = expr(alloc, tokens, at, depth)?;
    let mut parts = single(alloc, part)?;
    let mut rest = after;
    'parts: while let Some(after) = after_sign(tokens, rest, Sign::Comma) {
        let (part, after) = expr(alloc, tokens, after, depth)?;
        parts.push(part)?;
        rest = after;
    }
    Ok((parts, rest))
}

/// Parts with operators of one level between them, and what follows.
#[cycle(expr)]
#[tactic(auto, using(crate::proofs::Starts::starts))]
fn chain(
    alloc: Global,
    tokens: &Tokens<'_>,
    at: usize,
    depth: u32,
    level: Level,
) -> Result<(Expr, usize), ParseError>
    requires { depth ≤ grammar.nesting_limit }
    ensures tree { IfOk result (λ r. grammar.Chain Within level depth (left tokens.now at) (left tokens.now r.1) r.0) }
    ensures reads { IfOk result (λ r. Reads (machine.WantChain level depth ∷ []) (left tokens.now at) (left tokens.now r.1)) }
    ensures ahead { IfOk result (λ r. (at < r.1) × (r.1 ≤ length tokens.now.tokens)) }
    ensures err { IfErr result (λ e. Stops tokens.now.source_len (machine.WantChain level depth ∷ []) (left tokens.now at) e) }
{
    let (part, after) = operand(alloc, tokens, at, depth, level)?;
    let mut terms = List::new(alloc);
    let mut rest = after;
    'terms: while let Some((operator, after)) = operator_at(tokens, rest, level) {
        let (term, after) = operand(alloc, tokens, after, depth, level)?;
        terms.push((operator, term))?;
        rest = after;
    }
    let whole = chained(alloc, tokens, at, rest, part, terms)?;
    Ok((whole, rest))
}

/// What stands between operators of a level, and what follows.
#[cycle(expr)]
#[tactic(auto, using(crate::proofs::Starts::starts))]
fn operand(
    alloc: Global,
    tokens: &Tokens<'_>,
    at: usize,
    depth: u32,
    level: Level,
) -> Result<(Expr, usize), ParseError>
    requires { depth ≤ grammar.nesting_limit }
    ensures tree { IfOk result (λ r. grammar.Operand Within level depth (left tokens.now at) (left tokens.now r.1) r.0) }
    ensures reads { IfOk result (λ r. Reads (machine.WantOperand level depth ∷ []) (left tokens.now at) (left tokens.now r.1)) }
    ensures ahead { IfOk result (λ r. (at < r.1) × (r.1 ≤ length tokens.now.tokens)) }
    ensures err { IfErr result (λ e. Stops tokens.now.source_len (machine.WantOperand level depth ∷ []) (left tokens.now at) e) }
{
    match level {
        Level::Or => chain(alloc, tokens, at, depth, Level::Xor),
        Level::Xor => chain(alloc, tokens, at, depth, Level::And),
        Level::And => shift(alloc, tokens, at, depth),
        Level::Sum => chain(alloc, tokens, at, depth, Level::Product),
        Level::Product => unary(alloc, tokens, at, depth),
    }
}

/// A sum with shifts behind it, and what follows.
#[cycle(expr)]
#[tactic(auto, using(crate::proofs::Starts::starts))]
fn shift(
    alloc: Global,
    tokens: &Tokens<'_>,
    at: usize,
    depth: u32,
) -> Result<(Expr, usize), ParseError>
    requires { depth ≤ grammar.nesting_limit }
    ensures tree { IfOk result (λ r. grammar.AShift Within depth (left tokens.now at) (left tokens.now r.1) r.0) }
    ensures reads { IfOk result (λ r. Reads (machine.WantShift depth ∷ []) (left tokens.now at) (left tokens.now r.1)) }
    ensures ahead { IfOk result (λ r. (at < r.1) × (r.1 ≤ length tokens.now.tokens)) }
    ensures err { IfErr result (λ e. Stops tokens.now.source_len (machine.WantShift depth ∷ []) (left tokens.now at) e) }
{
    let (part, after) = chain(alloc, tokens, at, depth, Level::Sum)?;
    let (amounts, after) = shifts(alloc, tokens, after)?;
    let whole = shifted(alloc, tokens, at, after, part, amounts)?;
    Ok((whole, after))
}

/// A primary with its prefix operators and its fields, and what follows.
#[cycle(expr)]
fn unary(
    alloc: Global,
    tokens: &Tokens<'_>,
    at: usize,
    depth: u32,
) -> Result<(Expr, usize), ParseError>
    requires { depth ≤ grammar.nesting_limit }
    ensures tree { IfOk result (λ r. grammar.Unary Within depth (left tokens.now at) (left tokens.now r.1) r.0) }
    ensures reads { IfOk result (λ r. Reads (machine.WantUnary depth ∷ []) (left tokens.now at) (left tokens.now r.1)) }
    ensures ahead { IfOk result (λ r. (at < r.1) × (r.1 ≤ length tokens.now.tokens)) }
    ensures err { IfErr result (λ e. Stops tokens.now.source_len (machine.WantUnary depth ∷ []) (left tokens.now at) e) }
{
    let Some((t, next)) = first(tokens, at) else {
        return Err(syntax(tokens, at));
    };
    match t.kind {
        TokenKind::Sign(Sign::Minus) => {
            let depth = deeper(tokens, at, depth)?;
            let (part, after) = unary(alloc, tokens, next, depth)?;
            let kind = ExprKind::Neg(Boxed::new(alloc, part)?);
            Ok((node(tokens, at, after, kind), after))
        }
        TokenKind::Reserved(Keyword::Lds) => {
            let depth = deeper(tokens, at, depth)?;
            let (shape, after) = shape(alloc, tokens, next, depth)?;
            let (part, after) = unary(alloc, tokens, after, depth)?;
            let kind = ExprKind::Load(shape, Boxed::new(alloc, part)?);
            Ok((node(tokens, at, after, kind), after))
        }
        TokenKind::Reserved(Keyword::Ldb) => {
            let depth = deeper(tokens, at, depth)?;
            let (part, after) = unary(alloc, tokens, next, depth)?;
            let kind = ExprKind::LoadByte(Boxed::new(alloc, part)?);
            Ok((node(tokens, at, after, kind), after))
        }
        _ => postfix(alloc, tokens, at, depth),
    }
}

/// A primary with its fields, and what follows.
#[cycle(expr)]
#[tactic(auto, using(crate::proofs::Starts::starts))]
fn postfix(
    alloc: Global,
    tokens: &Tokens<'_>,
    at: usize,
    depth: u32,
) -> Result<(Expr, usize), ParseError>
    requires nested { depth ≤ grammar.nesting_limit }
    requires alone { NoPrefix (left tokens.now at) }
    ensures tree { IfOk result (λ r. grammar.Unary Within depth (left tokens.now at) (left tokens.now r.1) r.0) }
    ensures reads { IfOk result (λ r. Reads (machine.WantUnary depth ∷ []) (left tokens.now at) (left tokens.now r.1)) }
    ensures ahead { IfOk result (λ r. (at < r.1) × (r.1 ≤ length tokens.now.tokens)) }
    ensures err { IfErr result (λ e. Stops tokens.now.source_len (machine.WantUnary depth ∷ []) (left tokens.now at) e) }
{
    let (part, after) = primary(alloc, tokens, at, depth)?;
    let (indices, after) = fields(alloc, tokens, after)?;
    let whole = field(alloc, tokens, at, after, part, indices)?;
    Ok((whole, after))
}

/// A primary, and what follows.
#[cycle(expr)]
fn primary(
    alloc: Global,
    tokens: &Tokens<'_>,
    at: usize,
    depth: u32,
) -> Result<(Expr, usize), ParseError>
    requires { depth ≤ grammar.nesting_limit }
    ensures tree { IfOk result (λ r. grammar.Primary Within depth (left tokens.now at) (left tokens.now r.1) r.0) }
    ensures reads { IfOk result (λ r. Reads (machine.WantPrimary depth ∷ []) (left tokens.now at) (left tokens.now r.1)) }
    ensures ahead { IfOk result (λ r. (at < r.1) × (r.1 ≤ length tokens.now.tokens)) }
    ensures err { IfErr result (λ e. Stops tokens.now.source_len (machine.WantPrimary depth ∷ []) (left tokens.now at) e) }
{
    let Some((t, next)) = first(tokens, at) else {
        return Err(syntax(tokens, at));
    };
    match t.kind {
        TokenKind::Number(n) => Ok((node(tokens, at, next, ExprKind::Number(n)), next)),
        TokenKind::Name(name) => {
            let name = text(alloc, name)?;
            Ok((node(tokens, at, next, ExprKind::Var(name)), next))
        }
        TokenKind::Base => Ok((node(tokens, at, next, ExprKind::Base), next)),
        TokenKind::Biw => Ok((node(tokens, at, next, ExprKind::Biw), next)),
        TokenKind::Sign(Sign::OpenParen) => {
            let depth = deeper(tokens, at, depth)?;
            let (inner, after) = expr(alloc, tokens, next, depth)?;
            let after = expect(tokens, after, Sign::CloseParen)?;
            Ok((inner, after))
        }
        TokenKind::Sign(Sign::Less) => {
            let depth = deeper(tokens, at, depth)?;
            let (parts, after) = exprs(alloc, tokens, next, depth)?;
            let after = expect(tokens, after, Sign::Greater)?;
            Ok((node(tokens, at, after, ExprKind::Struct(parts)), after))
        }
        _ => Err(syntax(tokens, at)),
    }
}
