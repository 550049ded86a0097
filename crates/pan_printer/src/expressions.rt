//! Printing expressions.

ghost use Rattle.std.specs.Prelude.{◌≡◌, ◌++◌, OnOk};
ghost use Rattle.pan_printer.specs.Pieces.{with_commas, text_of};
ghost use Rattle.pan_printer.specs.Expressions.{at, terms, shifts, fields, kind_written, expr_pieces};

use crate::binding::Binding;
use crate::output::Output;
use crate::shapes::put_shape;
use crate::spelling::{comparison_sign, operator_sign, shift_sign};
use pan_base::{BinOp, Keyword, NoMemory, ShOp, Sign, TokenKind};
use pan_tree::{Expr, ExprKind};

/// How tightly an expression binds.
#[tactic(auto, using(crate::proofs::Layers::kind_rules))]
fn binding_of(kind: &ExprKind) -> Binding
    ensures { result ≡ (kind_written kind.now).binding }
{
    match kind {
        ExprKind::Number(_)
        | ExprKind::Var(_)
        | ExprKind::Base
        | ExprKind::Biw
        | ExprKind::Struct(_) => Binding::Primary,
        ExprKind::Field(_, _) => Binding::Field,
        ExprKind::Load(_, _) | ExprKind::LoadByte(_) | ExprKind::Neg(_) => Binding::Unary,
        ExprKind::Chain(_, rest) => Binding::of_chain(rest.as_slice()),
        ExprKind::Shift(_, _) => Binding::Shift,
        ExprKind::Compare(_, _, _) => Binding::Comparison,
    }
}

/// Puts the numbers of fields.
#[tactic(auto, using(crate::proofs::Texts::text_rules))]
fn put_fields(out: &mut Output, path: &[u64]) -> Result<(), NoMemory>
    ensures { OnOk result (out.new ≡ out.old ++ text_of (fields path.now)) }
{
    for index in path {
        out.sign(Sign::Dot)?;
        out.number(*index)?;
    }
    Ok(())
}

/// Puts shifts.
#[tactic(auto, using(crate::proofs::Texts::text_rules))]
fn put_shifts(out: &mut Output, amounts: &[(ShOp, u64)]) -> Result<(), NoMemory>
    ensures { OnOk result (out.new ≡ out.old ++ text_of (shifts amounts.now)) }
{
    for (operator, amount) in amounts {
        out.sign(shift_sign(*operator))?;
        out.number(*amount)?;
    }
    Ok(())
}

/// Puts an expression at a place that asks for what binds like `least` at least: in parentheses where it binds less.
#[cycle(expr)]
#[tactic(auto, using(crate::proofs::Texts::text_rules))]
fn put_part(out: &mut Output, expr: &Expr, least: Binding) -> Result<(), NoMemory>
    ensures { OnOk result (out.new ≡ out.old ++ text_of (at least (kind_written expr.now.kind))) }
{
    if binding_of(&expr.kind).is_looser(least) {
        out.sign(Sign::OpenParen)?;
        put_expr(out, expr)?;
        out.sign(Sign::CloseParen)?;
        Ok(())
    } else {
        put_expr(out, expr)
    }
}

/// Puts an expression that stands in no other expression.
#[cycle(expr)]
#[tactic(auto, using(crate::proofs::Texts::text_rules, crate::proofs::Layers::kind_rules))]
pub fn put_expr(out: &mut Output, expr: &Expr) -> Result<(), NoMemory>
    ensures { OnOk result (out.new ≡ out.old ++ text_of (expr_pieces expr.now)) }
{
    match &expr.kind {
        ExprKind::Number(value) => {
            out.number(*value)?;
            Ok(())
        }
        ExprKind::Var(name) => {
            out.name(name)?;
            Ok(())
        }
        ExprKind::Base => {
            out.put(TokenKind::Base)?;
            Ok(())
        }
        ExprKind::Biw => {
            out.put(TokenKind::Biw)?;
            Ok(())
        }
        ExprKind::Struct(parts) => {
            out.sign(Sign::Less)?;
            put_exprs(out, parts.as_slice())?;
            out.sign(Sign::Greater)?;
            Ok(())
        }
        ExprKind::Field(of, path) => {
            put_part(out, of.get(), Binding::Primary)?;
            put_fields(out, path.as_slice())?;
            Ok(())
        }
        ExprKind::Load(shape, addr) => {
            out.word(Keyword::Lds)?;
            put_shape(out, shape)?;
            put_part(out, addr.get(), Binding::Unary)?;
            Ok(())
        }
        ExprKind::LoadByte(addr) => {
            out.word(Keyword::Ldb)?;
            put_part(out, addr.get(), Binding::Unary)?;
            Ok(())
        }
        ExprKind::Neg(of) => {
            out.sign(Sign::Minus)?;
            put_part(out, of.get(), Binding::Unary)?;
            Ok(())
        }
        ExprKind::Chain(first, rest) => {
            let least = Binding::of_chain(rest.as_slice()).tighter();
            put_part(out, first.get(), least)?;
            put_terms(out, rest.as_slice(), least)?;
            Ok(())
        }
        ExprKind::Shift(of, amounts) => {
            put_part(out, of.get(), Binding::Shift.tighter())?;
            put_shifts(out, amounts.as_slice())?;
            Ok(())
        }
        ExprKind::Compare(comparison, left, right) => {
            put_part(out, left.get(), Binding::Comparison.tighter())?;
            out.sign(comparison_sign(*comparison))?;
            put_part(out, right.get(), Binding::Comparison.tighter())?;
            Ok(())
        }
    }
}

/// Puts the operators of a chain, each with the part behind it.
#[cycle(expr)]
#[tactic(auto, using(crate::proofs::Texts::text_rules))]
fn put_terms(out: &mut Output, rest: &[(BinOp, Expr)], least: Binding) -> Result<(), NoMemory>
    ensures { OnOk result (out.new ≡ out.old ++ text_of (terms least (λ y. kind_written y.kind) rest.now)) }
{
    for (operator, part) in rest {
        out.sign(operator_sign(*operator))?;
        put_part(out, part, least)?;
    }
    Ok(())
}

/// Puts expressions with commas between them.
#[cycle(expr)]
#[tactic(auto, using(crate::proofs::Texts::text_rules))]
pub fn put_exprs(out: &mut Output, exprs: &[Expr]) -> Result<(), NoMemory>
    ensures { OnOk result (out.new ≡ out.old ++ text_of (with_commas expr_pieces exprs.now)) }
{
    if let Some((first, more)) = exprs.split_first() {
        put_expr(out, first)?;
        for expr in more {
            out.sign(Sign::Comma)?;
            put_expr(out, expr)?;
        }
    }
    Ok(())
}
