//! The steps of expressions.

ghost use Rattle.std.specs.Prelude.{◌≡◌, [], ◌∷◌, ◌++◌, suc, IfOk, OnOk};
ghost use Rattle.loop_lower.specs.Lowered.{lower, next, steps_at, place_at, or_spot, spot_of};
ghost use Rattle.loop_lower.specs.Spine.{leaf_expr, unary_step as step_of_one, binary_step as step_of_two, steps_behind, spot_behind, target_before};

use crate::spine::{Binary, Leaf, Operation, Unary, spine_of};
use crep_lang::Expr;
use loop_lang::Stmt;
use pan_base::{List, NoMemory};
use std::alloc::Global;

/// Where an expression's word is, and the first temporary that is then free.
#[derive(Clone, Copy, Drop)]
pub struct Place {
    pub variable: u32,
    pub free: u32,
}

/// Adds a step.
pub fn put(steps: &mut List<Stmt>, step: Stmt) -> Result<(), NoMemory>
    ensures { OnOk result (steps.new ≡ steps.old ++ step ∷ []) }
{
    steps.push(step)?;
    Ok(())
}

/// Where a result goes: into the target, or where there is none to a temporary, behind its operands or in the place of the first.
fn result_at(target: Option<u32>, apart: bool, behind: u32, first: u32) -> Result<Place, NoMemory>
    ensures variable { IfOk result (λ p. p.variable ≡ or_spot target (spot_of apart behind first)) }
    ensures free { IfOk result (λ p. p.free ≡ suc (spot_of apart behind first)) }
{
    let spot = if apart { behind } else { first };
    let variable = match target {
        Some(target) => target,
        None => spot,
    };
    match spot.checked_add(1) {
        Some(free) => Ok(Place { variable, free }),
        None => Err(NoMemory),
    }
}

/// The step of an operator of one operand.
fn unary_step(operator: Unary, target: u32, operand: u32) -> Stmt
    ensures { result ≡ step_of_one operator target operand }
{
    match operator {
        Unary::LoadWord => Stmt::LoadWord(target, operand),
        Unary::LoadByte => Stmt::LoadByte(target, operand),
        Unary::Shift(operator, amount) => Stmt::Shift(operator, target, operand, amount),
    }
}

/// The step of an operator of two.
fn binary_step(operator: Binary, target: u32, first: u32, second: u32) -> Stmt
    ensures { result ≡ step_of_two operator target first second }
{
    match operator {
        Binary::Bin(operator) => Stmt::Bin(operator, target, first, second),
        Binary::Compare(comparison) => Stmt::Compare(comparison, target, first, second),
    }
}

/// Adds the step of an expression without operands; a variable that is an operand needs none.
#[tactic(auto, using(crate::proofs::LowerRules::leaf_rules))]
fn lower_leaf(
    steps: &mut List<Stmt>,
    leaf: Leaf,
    target: Option<u32>,
    free: u32,
    apart: bool,
) -> Result<Place, NoMemory>
    ensures steps { OnOk result (steps.new ≡ steps.old ++ steps_at apart target (leaf_expr leaf) free) }
    ensures variable { IfOk result (λ p. p.variable ≡ place_at apart target (leaf_expr leaf) free) }
    ensures free { IfOk result (λ p. p.free ≡ next (lower apart (leaf_expr leaf)) free) }
{
    match leaf {
        Leaf::Num(number) => {
            let at = result_at(target, apart, free, free)?;
            put(steps, Stmt::Const(at.variable, number))?;
            Ok(at)
        }
        Leaf::Var(source) => match target {
            None => Ok(Place {
                variable: source,
                free,
            }),
            Some(variable) => {
                put(steps, Stmt::Move(variable, source))?;
                Ok(Place { variable, free })
            }
        },
    }
}

/// Adds the steps of an operation behind those of its first operand.
#[cycle(lowered)]
#[tactic(auto, using(crate::proofs::LowerRules::operation_rules))]
fn lower_operation(
    alloc: Global,
    steps: &mut List<Stmt>,
    operation: Operation<'_>,
    first: Place,
    target: Option<u32>,
    free: u32,
    apart: bool,
) -> Result<Place, NoMemory>
    ensures steps { OnOk result (steps.new ≡ steps.old ++ steps_behind apart target operation.entry first.variable first.free free) }
    ensures variable { IfOk result (λ p. p.variable ≡ or_spot target (spot_behind apart operation.entry first.free free)) }
    ensures free { IfOk result (λ p. p.free ≡ suc (spot_behind apart operation.entry first.free free)) }
{
    match operation {
        Operation::Unary(operator) => {
            let at = result_at(target, apart, first.free, free)?;
            put(steps, unary_step(operator, at.variable, first.variable))?;
            Ok(at)
        }
        Operation::Binary(operator, second) => {
            let second = lower_expr(alloc, steps, second, None, first.free, apart)?;
            let at = result_at(target, apart, second.free, free)?;
            let (a, b) = (first.variable, second.variable);
            put(steps, binary_step(operator, at.variable, a, b))?;
            Ok(at)
        }
    }
}

/// The target, where no operation follows; an operand has none.
fn target_now(later: &List<Operation<'_>>, target: Option<u32>) -> Option<u32>
    ensures { result ≡ target_before later.now target }
{
    if later.is_empty() { target } else { None }
}

/// Adds the steps that compute an expression into a target, or to where it then is an operand. Calls nest as deep as second
/// operands do. `NoMemory` also says that the number of a temporary would pass 32 bits; where temporaries fit a lawful frame,
/// none does.
#[cycle(lowered)]
pub fn lower_expr(
    alloc: Global,
    steps: &mut List<Stmt>,
    expr: &Expr,
    target: Option<u32>,
    free: u32,
    apart: bool,
) -> Result<Place, NoMemory>
    ensures steps { OnOk result (steps.new ≡ steps.old ++ steps_at apart target expr.now free) }
    ensures variable { IfOk result (λ p. p.variable ≡ place_at apart target expr.now free) }
    ensures free { IfOk result (λ p. p.free ≡ next (lower apart expr.now) free) }
{
    let spine = spine_of(alloc, expr)?;
    let mut later = spine.operations;
    let into = target_now(&later, target);
    let mut place = lower_leaf(steps, spine.leaf, into, free, apart)?;
    'operations: while let Some(operation) = later.pop() {
        let into = target_now(&later, target);
        place = lower_operation(alloc, steps, operation, place, into, free, apart)?;
    }
    Ok(place)
}
