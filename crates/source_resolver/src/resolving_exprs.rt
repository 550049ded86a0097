//! Resolves the names of expressions.

ghost use Rattle.std.specs.Prelude.{◌≡◌, map, IfOk};
ghost use Rattle.source_resolver.specs.Resolving.{resolved_expr, resolved_exprs};

use crate::places::Places;
use crate::resolved::Expr;
use pan_base::{BinOp, Boxed, List, NoMemory};
use pan_tree::{Expr as SourceExpr, ExprKind, copy_shape};
use std::alloc::Global;

/// Where local memory begins.
const BASE_ADDRESS: u64 = 0x1000_0000;

/// The number of bytes in a word.
const BYTES_IN_WORD: u64 = 8;

/// The expression, with each variable as its place.
#[cycle(resolve_expr)]
#[tactic(auto, using(crate::proofs::ResolvingExprs::resolved_expr_rules))]
pub fn resolve_expr(alloc: Global, expr: &SourceExpr, places: &Places<'_>) -> Result<Expr, NoMemory>
    ensures { IfOk result (λ e. e ≡ resolved_expr expr.now places.now) }
{
    match &expr.kind {
        ExprKind::Number(number) => Ok(Expr::Number(*number)),
        ExprKind::Var(name) => Ok(Expr::Variable(places.place(name.as_bytes()))),
        ExprKind::Base => Ok(Expr::Number(BASE_ADDRESS)),
        ExprKind::Biw => Ok(Expr::Number(BYTES_IN_WORD)),
        ExprKind::Struct(parts) => {
            let parts = resolve_parts(alloc, parts.as_slice(), places)?;
            Ok(Expr::Struct(parts))
        }
        ExprKind::Field(of, path) => {
            let of = resolve_boxed(alloc, of.get(), places)?;
            Ok(Expr::Field(of, List::from_slice(alloc, path.as_slice())?))
        }
        ExprKind::Load(shape, address) => {
            let shape = copy_shape(alloc, shape)?;
            Ok(Expr::Load(shape, resolve_boxed(alloc, address.get(), places)?))
        }
        ExprKind::LoadByte(at) => Ok(Expr::LoadByte(resolve_boxed(alloc, at.get(), places)?)),
        ExprKind::Neg(of) => Ok(Expr::Neg(resolve_boxed(alloc, of.get(), places)?)),
        ExprKind::Chain(first, rest) => {
            let first = resolve_boxed(alloc, first.get(), places)?;
            Ok(Expr::Chain(first, resolve_terms(alloc, rest.as_slice(), places)?))
        }
        ExprKind::Shift(of, amounts) => {
            let of = resolve_boxed(alloc, of.get(), places)?;
            Ok(Expr::Shift(of, List::from_slice(alloc, amounts.as_slice())?))
        }
        ExprKind::Compare(comparison, left, right) => {
            let left = resolve_boxed(alloc, left.get(), places)?;
            let right = resolve_boxed(alloc, right.get(), places)?;
            Ok(Expr::Compare(*comparison, left, right))
        }
    }
}

/// The same, on the heap.
#[cycle(resolve_expr)]
fn resolve_boxed(
    alloc: Global,
    expr: &SourceExpr,
    places: &Places<'_>,
) -> Result<Boxed<Expr>, NoMemory>
    ensures { IfOk result (λ e. e ≡ resolved_expr expr.now places.now) }
{
    Ok(Boxed::new(alloc, resolve_expr(alloc, expr, places)?)?)
}

/// The parts of a struct.
#[cycle(resolve_expr)]
fn resolve_parts(
    alloc: Global,
    parts: &[SourceExpr],
    places: &Places<'_>,
) -> Result<List<Expr>, NoMemory>
    ensures { IfOk result (λ es. es ≡ resolved_exprs parts.now places.now) }
{
    let mut all = List::new(alloc);
    for part in parts {
        all.push(resolve_expr(alloc, part, places)?)?;
    }
    Ok(all)
}

/// The terms of a chain behind its first.
#[cycle(resolve_expr)]
fn resolve_terms(
    alloc: Global,
    terms: &[(BinOp, SourceExpr)],
    places: &Places<'_>,
) -> Result<List<(BinOp, Expr)>, NoMemory>
    ensures { IfOk result (λ es. es ≡ map (λ t. (t.0, resolved_expr t.1 places.now)) terms.now) }
{
    let mut all = List::new(alloc);
    for (operator, term) in terms {
        all.push((*operator, resolve_expr(alloc, term, places)?))?;
    }
    Ok(all)
}

/// The expressions, with each variable as its place.
pub fn resolve_exprs(
    alloc: Global,
    exprs: &[SourceExpr],
    places: &Places<'_>,
) -> Result<List<Expr>, NoMemory>
    ensures { IfOk result (λ es. es ≡ resolved_exprs exprs.now places.now) }
{
    resolve_parts(alloc, exprs, places)
}
