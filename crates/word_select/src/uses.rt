//! The variables that statements use.

ghost use Rattle.std.specs.Prelude.{◌≡◌, ◌++◌, [], ◌∷◌, ℕ, map, flat_map, IfOk, OnOk};
ghost use Rattle.pan_flow.specs.Flow.{has};
ghost use Rattle.word_lang.specs.Text.{variables_of, variables_read};
ghost use Rattle.word_select.specs.Pruned as pruning;

use crate::bounds::above_all;
use pan_base::{Boxed, List, NoMemory};
use pan_stage::Handler;
use std::alloc::Global;
use word_lang::{Stmt, Test};

/// Adds these variables.
fn add_all(out: &mut List<u32>, variables: &[u32]) -> Result<(), NoMemory>
    ensures { OnOk result (out.new ≡ out.old ++ variables.now) }
{
    for x in variables {
        out.push(*x)?;
    }
    Ok(())
}

/// Adds those of these variables that are others than the target.
fn add_others(out: &mut List<u32>, target: u32, variables: &[u32]) -> Result<(), NoMemory>
    ensures { OnOk result (out.new ≡ out.old ++ pruning.others target variables.now) }
{
    for x in variables {
        if *x != target {
            out.push(*x)?;
        }
    }
    Ok(())
}

fn add_operand(out: &mut List<u32>, operand: &Option<u32>) -> Result<(), NoMemory>
    ensures { OnOk result (out.new ≡ out.old ++ variables_of (operand.now ∷ [])) }
{
    match operand {
        None => Ok(()),
        Some(x) => Ok(out.push(*x)?),
    }
}

#[tactic(auto, using(crate::proofs::UsedRules::used_rules))]
fn add_test(out: &mut List<u32>, test: &Test) -> Result<(), NoMemory>
    ensures { OnOk result (out.new ≡ out.old ++ variables_read test.now) }
{
    add_operand(out, &test.left)?;
    add_operand(out, &test.right)
}

/// Adds the variables that a statement uses.
#[cycle(used)]
#[tactic(auto, using(crate::proofs::UsedRules::used_rules))]
pub fn add_used(out: &mut List<u32>, stmt: &Stmt) -> Result<(), NoMemory>
    ensures { OnOk result (out.new ≡ out.old ++ pruning.used stmt.now) }
{
    match stmt {
        Stmt::Skip => Ok(()),
        Stmt::Seq(all) => add_used_row(out, all.as_slice()),
        Stmt::Const(_, _) => Ok(()),
        Stmt::Reg(_, x, a, b) => add_others(out, *x, &[*a, *b]),
        Stmt::Imm(_, x, a, _) => add_others(out, *x, &[*a]),
        Stmt::Sh(_, x, a, _) => add_others(out, *x, &[*a]),
        Stmt::Load(_, x, a, _) => add_others(out, *x, &[*a]),
        Stmt::Store(_, x, a, _) => add_all(out, &[*a, *x]),
        Stmt::If(condition, first, second) => {
            add_test(out, condition)?;
            add_used(out, first.get())?;
            add_used(out, second.get())
        }
        Stmt::While { before, test, body } => {
            add_used_row(out, before.as_slice())?;
            add_test(out, test)?;
            add_used(out, body.get())
        }
        Stmt::Break => Ok(()),
        Stmt::Continue => Ok(()),
        Stmt::Call { args, handler, .. } => {
            add_all(out, args.as_slice())?;
            add_used_in_handler(out, handler)
        }
        Stmt::TailCall { args, .. } => add_all(out, args.as_slice()),
        Stmt::Return(xs) => add_all(out, xs.as_slice()),
        Stmt::Raise(_, xs) => add_all(out, xs.as_slice()),
        Stmt::SharedLoad(_, _, a, _) => add_all(out, &[*a]),
        Stmt::SharedStore(_, x, a, _) => add_all(out, &[*a, *x]),
        Stmt::Foreign(_, conf, conf_len, array, array_len) => {
            add_all(out, &[*conf, *conf_len, *array, *array_len])
        }
    }
}

#[cycle(used)]
#[tactic(auto, using(crate::proofs::UsedRules::used_rules))]
fn add_used_row(out: &mut List<u32>, all: &[Stmt]) -> Result<(), NoMemory>
    ensures { OnOk result (out.new ≡ out.old ++ flat_map (λ xs. xs) (map pruning.used all.now)) }
{
    for i in 0..all.len() {
        add_used(out, &all[i])?;
    }
    Ok(())
}

#[cycle(used)]
fn add_used_in_handler(
    out: &mut List<u32>,
    handler: &Option<Handler<Boxed<Stmt>>>,
) -> Result<(), NoMemory>
    ensures { OnOk result (out.new ≡ out.old ++ pruning.used_in_handler handler.now) }
{
    match handler {
        None => Ok(()),
        Some(handler) => add_used(out, handler.body.get()),
    }
}

/// A flag for each variable up to the greatest of these, set where it is one of them.
pub fn flags_of(alloc: Global, variables: &[u32]) -> Result<List<bool>, NoMemory>
    ensures { IfOk result (λ flags. (x : ℕ) → pruning.is_set flags x ≡ has variables.now x) }
{
    let count = above_all(variables);
    let mut flags = List::from_vec(vec![in alloc; false; count as usize]?);
    for x in variables {
        flags.set(*x as usize, true);
    }
    Ok(flags)
}

/// The flags of the variables that a statement uses.
pub fn used_flags(alloc: Global, stmt: &Stmt) -> Result<List<bool>, NoMemory>
    ensures { IfOk result (λ flags. (x : ℕ) → pruning.is_set flags x ≡ has (pruning.used stmt.now) x) }
{
    let mut variables = List::new(alloc);
    add_used(&mut variables, stmt)?;
    flags_of(alloc, variables.as_slice())
}
