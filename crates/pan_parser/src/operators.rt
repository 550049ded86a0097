//! Tokens that are operators.

ghost use Rattle.std.specs.Prelude.{◌≡◌, ℕ, ◌<◌, ◌≤◌, [], ◌∷◌, length, IfOk, IfErr, IfSome, IfNone};
ghost use Rattle.pan_base.specs.Tokens.{kind_of};
ghost use Rattle.pan_tree.specs.Grammar as grammar;
ghost use Rattle.pan_tree.specs.Nodes as nodes;
ghost use Rattle.pan_parser.specs.Machine as machine;
ghost use Rattle.pan_parser.specs.Follow.{NoTerm, NoShift, NoCompare, NoSign};
ghost use Rattle.pan_parser.specs.Reading.{left, Means, Reads, Stops};

use crate::cursor::{after_sign, expect_number, first};
use crate::error::ParseError;
use pan_base::{BinOp, Cmp, List, ShOp, Sign, TokenKind};
use pan_lexer::Tokens;
use pan_tree::Level;
use std::alloc::Global;

/// The operator of this level that a sign is.
fn operator_of(level: Level, kind: TokenKind<'_>) -> Option<BinOp>
    ensures { result ≡ nodes.operator_at level (kind_of kind.entry) }
{
    let TokenKind::Sign(sign) = kind else {
        return None;
    };
    match (level, sign) {
        (Level::Or, Sign::Or) => Some(BinOp::Or),
        (Level::Xor, Sign::Xor) => Some(BinOp::Xor),
        (Level::And, Sign::And) => Some(BinOp::And),
        (Level::Sum, Sign::Plus) => Some(BinOp::Add),
        (Level::Sum, Sign::Minus) => Some(BinOp::Sub),
        (Level::Product, Sign::Star) => Some(BinOp::Mul),
        _ => None,
    }
}

/// The shift that a token is.
fn shift_of(kind: TokenKind<'_>) -> Option<ShOp>
    ensures { result ≡ nodes.shift_operator (kind_of kind.entry) }
{
    match kind {
        TokenKind::Sign(Sign::ShiftLeft) => Some(ShOp::Shl),
        TokenKind::Sign(Sign::ShiftRight) => Some(ShOp::Shr),
        TokenKind::Sign(Sign::ShiftSigned) => Some(ShOp::Sar),
        TokenKind::Sign(Sign::Rotate) => Some(ShOp::Ror),
        _ => None,
    }
}

/// The comparison that a token is.
fn comparison_of(kind: TokenKind<'_>) -> Option<Cmp>
    ensures { result ≡ nodes.comparison (kind_of kind.entry) }
{
    match kind {
        TokenKind::Sign(Sign::Equal) => Some(Cmp::Eq),
        TokenKind::Sign(Sign::NotEqual) => Some(Cmp::Ne),
        TokenKind::Sign(Sign::Less) => Some(Cmp::Lt),
        TokenKind::Sign(Sign::NotLess) => Some(Cmp::Ge),
        TokenKind::Sign(Sign::LessU) => Some(Cmp::Ltu),
        TokenKind::Sign(Sign::NotLessU) => Some(Cmp::Geu),
        _ => None,
    }
}

/// The operator of this level that comes, and what follows it.
pub fn operator_at(tokens: &Tokens<'_>, at: usize, level: Level) -> Option<(BinOp, usize)>
    ensures some { IfSome result (λ r. Means tokens.now at r.1 (nodes.operator_at level) r.0) }
    ensures none { IfNone result (NoTerm level (left tokens.now at)) }
{
    let (t, after) = first(tokens, at)?;
    let operator = operator_of(level, t.kind)?;
    Some((operator, after))
}

/// The shift that comes, and what follows it.
fn shift_at(tokens: &Tokens<'_>, at: usize) -> Option<(ShOp, usize)>
    ensures some { IfSome result (λ r. Means tokens.now at r.1 nodes.shift_operator r.0) }
    ensures none { IfNone result (NoShift (left tokens.now at)) }
{
    let (t, after) = first(tokens, at)?;
    let operator = shift_of(t.kind)?;
    Some((operator, after))
}

/// The comparison that comes, and what follows it.
pub fn comparison_at(tokens: &Tokens<'_>, at: usize) -> Option<(Cmp, usize)>
    ensures some { IfSome result (λ r. Means tokens.now at r.1 nodes.comparison r.0) }
    ensures none { IfNone result (NoCompare (left tokens.now at)) }
{
    let (t, after) = first(tokens, at)?;
    let operator = comparison_of(t.kind)?;
    Some((operator, after))
}

/// Shifts by numbers, and what follows them.
pub fn shifts(
    alloc: Global,
    tokens: &Tokens<'_>,
    at: usize,
) -> Result<(List<(ShOp, u64)>, usize), ParseError>
    requires { at ≤ length tokens.now.tokens }
    ensures tree { IfOk result (λ r. grammar.Shifts (left tokens.now at) (left tokens.now r.1) r.0) }
    ensures reads { IfOk result (λ r. Reads (machine.MoreShifts ∷ []) (left tokens.now at) (left tokens.now r.1)) }
    ensures ahead { IfOk result (λ r. (at ≤ r.1) × (r.1 ≤ length tokens.now.tokens)) }
    ensures err { IfErr result (λ e. Stops tokens.now.source_len (machine.MoreShifts ∷ []) (left tokens.now at) e) }
{
    let mut amounts = List::new(alloc);
    let mut rest = at;
    'amounts: while let Some((operator, after)) = shift_at(tokens, rest) {
        let (amount, after) = expect_number(tokens, after)?;
        amounts.push((operator, amount))?;
        rest = after;
    }
    Ok((amounts, rest))
}

/// Numbers of fields, each after a dot, and what follows them.
pub fn fields(
    alloc: Global,
    tokens: &Tokens<'_>,
    at: usize,
) -> Result<(List<u64>, usize), ParseError>
    requires { at ≤ length tokens.now.tokens }
    ensures tree { IfOk result (λ r. grammar.Fields (left tokens.now at) (left tokens.now r.1) r.0) }
    ensures reads { IfOk result (λ r. Reads (machine.MoreFields ∷ []) (left tokens.now at) (left tokens.now r.1)) }
    ensures ahead { IfOk result (λ r. (at ≤ r.1) × (r.1 ≤ length tokens.now.tokens)) }
    ensures err { IfErr result (λ e. Stops tokens.now.source_len (machine.MoreFields ∷ []) (left tokens.now at) e) }
{
    let mut indices = List::new(alloc);
    let mut rest = at;
    'indices: while let Some(after) = after_sign(tokens, rest, Sign::Dot) {
        let (index, after) = expect_number(tokens, after)?;
        indices.push(index)?;
        rest = after;
    }
    Ok((indices, rest))
}
