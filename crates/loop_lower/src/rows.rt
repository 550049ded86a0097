//! The operands of statements.

ghost use Rattle.std.specs.Prelude.{◌≡◌, [], ◌∷◌, ◌++◌, map, IfOk, OnOk};
ghost use Rattle.loop_lower.specs.Lowered.{lower, before_all, operands, planned, row_before, row_operands, nth, finished as step_behind};

use crate::lowering::{lower_expr, put};
use crate::places::{Placed, Room};
use crate::sizes::{next_start, sizes_of_four, sizes_of_one, sizes_of_row, sizes_of_two};
use crep_lang::Expr;
use loop_lang::Stmt;
use pan_base::{List, NoMemory};
use std::alloc::Global;

/// One operand, and the steps before it.
#[derive(Drop)]
pub struct OneReady {
    pub steps: List<Stmt>,
    pub variable: u32,
    /// Where the temporaries of the next statement may start.
    pub next: u32,
}

/// The same of two.
#[derive(Drop)]
pub struct TwoReady {
    pub steps: List<Stmt>,
    pub first: u32,
    pub second: u32,
    pub next: u32,
}

/// The same of four.
#[derive(Drop)]
pub struct FourReady {
    pub steps: List<Stmt>,
    pub first: u32,
    pub second: u32,
    pub third: u32,
    pub fourth: u32,
    pub next: u32,
}

/// The same of a row.
#[derive(Drop)]
pub struct RowReady {
    pub steps: List<Stmt>,
    pub variables: List<u32>,
    pub next: u32,
}

/// Adds the steps of operands, and gives their variables.
fn lower_all(
    alloc: Global,
    steps: &mut List<Stmt>,
    exprs: &[Expr],
    free: u32,
    apart: bool,
) -> Result<List<u32>, NoMemory>
    ensures steps { OnOk result (steps.new ≡ steps.old ++ before_all (map (lower apart) exprs.now) free) }
    ensures variables { IfOk result (λ xs. xs ≡ operands (map (lower apart) exprs.now) free) }
{
    let mut variables = List::new(alloc);
    let mut next = free;
    for i in 0..exprs.len() {
        let place = lower_expr(alloc, steps, &exprs[i], None, next, apart)?;
        variables.push(place.variable)?;
        next = place.free;
    }
    Ok(variables)
}

/// Adds the steps of an operand to others.
#[tactic(auto, using(crate::proofs::Layers::append_none))]
pub fn lower_behind(
    alloc: Global,
    room: Room,
    steps: List<Stmt>,
    expr: &Expr,
    next: u32,
) -> Result<OneReady, NoMemory>
    ensures steps { IfOk result (λ r. r.steps ≡ steps ++ row_before room.limit room.base (expr.now ∷ []) next) }
    ensures variable { IfOk result (λ r. r.variable ≡ nth 0 (row_operands room.limit room.base (expr.now ∷ []) next)) }
    ensures next { IfOk result (λ r. r.next ≡ (planned room.limit room.base (expr.now ∷ []) next).next) }
{
    let plan = next_start(room.limit, room.base, next, sizes_of_one(expr));
    let mut steps = steps;
    let place = lower_expr(alloc, &mut steps, expr, None, plan.start, plan.apart)?;
    Ok(OneReady {
        steps,
        variable: place.variable,
        next: plan.next,
    })
}

/// Computes an operand.
pub fn lower_one(alloc: Global, room: Room, expr: &Expr, next: u32) -> Result<OneReady, NoMemory>
    ensures steps { IfOk result (λ r. r.steps ≡ row_before room.limit room.base (expr.now ∷ []) next) }
    ensures variable { IfOk result (λ r. r.variable ≡ nth 0 (row_operands room.limit room.base (expr.now ∷ []) next)) }
    ensures next { IfOk result (λ r. r.next ≡ (planned room.limit room.base (expr.now ∷ []) next).next) }
{
    lower_behind(alloc, room, List::new(alloc), expr, next)
}

/// Computes two operands.
#[tactic(auto, using(crate::proofs::Layers::append_none))]
pub fn lower_two(
    alloc: Global,
    room: Room,
    first: &Expr,
    second: &Expr,
    next: u32,
) -> Result<TwoReady, NoMemory>
    ensures steps { IfOk result (λ r. r.steps ≡ row_before room.limit room.base (first.now ∷ second.now ∷ []) next) }
    ensures first { IfOk result (λ r. r.first ≡ nth 0 (row_operands room.limit room.base (first.now ∷ second.now ∷ []) next)) }
    ensures second { IfOk result (λ r. r.second ≡ nth 1 (row_operands room.limit room.base (first.now ∷ second.now ∷ []) next)) }
    ensures next { IfOk result (λ r. r.next ≡ (planned room.limit room.base (first.now ∷ second.now ∷ []) next).next) }
{
    let plan = next_start(room.limit, room.base, next, sizes_of_two(first, second));
    let mut steps = List::new(alloc);
    let first = lower_expr(alloc, &mut steps, first, None, plan.start, plan.apart)?;
    let second = lower_expr(alloc, &mut steps, second, None, first.free, plan.apart)?;
    Ok(TwoReady {
        steps,
        first: first.variable,
        second: second.variable,
        next: plan.next,
    })
}

/// Computes four operands.
#[tactic(auto, using(crate::proofs::Layers::append_none))]
pub fn lower_four(
    alloc: Global,
    room: Room,
    first: &Expr,
    second: &Expr,
    third: &Expr,
    fourth: &Expr,
    next: u32,
) -> Result<FourReady, NoMemory>
    ensures steps { IfOk result (λ r. r.steps ≡ row_before room.limit room.base (first.now ∷ second.now ∷ third.now ∷ fourth.now ∷ []) next) }
    ensures first { IfOk result (λ r. r.first ≡ nth 0 (row_operands room.limit room.base (first.now ∷ second.now ∷ third.now ∷ fourth.now ∷ []) next)) }
    ensures second { IfOk result (λ r. r.second ≡ nth 1 (row_operands room.limit room.base (first.now ∷ second.now ∷ third.now ∷ fourth.now ∷ []) next)) }
    ensures third { IfOk result (λ r. r.third ≡ nth 2 (row_operands room.limit room.base (first.now ∷ second.now ∷ third.now ∷ fourth.now ∷ []) next)) }
    ensures fourth { IfOk result (λ r. r.fourth ≡ nth 3 (row_operands room.limit room.base (first.now ∷ second.now ∷ third.now ∷ fourth.now ∷ []) next)) }
    ensures next { IfOk result (λ r. r.next ≡ (planned room.limit room.base (first.now ∷ second.now ∷ third.now ∷ fourth.now ∷ []) next).next) }
{
    let sizes = sizes_of_four(first, second, third, fourth);
    let plan = next_start(room.limit, room.base, next, sizes);
    let mut steps = List::new(alloc);
    let first = lower_expr(alloc, &mut steps, first, None, plan.start, plan.apart)?;
    let second = lower_expr(alloc, &mut steps, second, None, first.free, plan.apart)?;
    let third = lower_expr(alloc, &mut steps, third, None, second.free, plan.apart)?;
    let fourth = lower_expr(alloc, &mut steps, fourth, None, third.free, plan.apart)?;
    Ok(FourReady {
        steps,
        first: first.variable,
        second: second.variable,
        third: third.variable,
        fourth: fourth.variable,
        next: plan.next,
    })
}

/// Computes a row of operands.
pub fn lower_row(alloc: Global, room: Room, exprs: &[Expr], next: u32) -> Result<RowReady, NoMemory>
    ensures steps { IfOk result (λ r. r.steps ≡ row_before room.limit room.base exprs.now next) }
    ensures variables { IfOk result (λ r. r.variables ≡ row_operands room.limit room.base exprs.now next) }
    ensures next { IfOk result (λ r. r.next ≡ (planned room.limit room.base exprs.now next).next) }
{
    let plan = next_start(room.limit, room.base, next, sizes_of_row(exprs));
    let mut steps = List::new(alloc);
    let variables = lower_all(alloc, &mut steps, exprs, plan.start, plan.apart)?;
    Ok(RowReady {
        steps,
        variables,
        next: plan.next,
    })
}

/// The steps, and another one behind them.
pub fn finished(steps: List<Stmt>, step: Stmt, next: u32) -> Result<Placed, NoMemory>
    ensures { IfOk result (λ p. p ≡ step_behind steps step next) }
{
    let mut steps = steps;
    put(&mut steps, step)?;
    Ok(Placed {
        stmt: Stmt::Seq(steps),
        next,
    })
}
