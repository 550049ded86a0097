//! Functions and programs.

ghost use Rattle.std.specs.Prelude.{◌≡◌, map, IfOk};
ghost use Rattle.loop_lang.specs.Stage as loops;
ghost use Rattle.pan_stage.specs.Locals as locals;
ghost use Rattle.pan_stage.specs.Stage.{Keeps};
ghost use Rattle.word_lang.specs.Stage as words;
ghost use Rattle.word_select.specs.Pruned.{chosen_function};
ghost use Rattle.word_select.specs.Selected as selected;

use crate::bounds::{bound, greater};
use crate::pruning::prune_function;
use crate::selection::select_stmt;
use loop_lang::{LoopFun, LoopProg};
use pan_base::{Blob, List, NoMemory};
use std::alloc::Global;
use word_lang::{WordFun, WordProg};

/// The first variables, so many.
fn first_variables(alloc: Global, count: u32) -> Result<List<u32>, NoMemory>
    ensures { IfOk result (λ xs. xs ≡ locals.numbers_from 0 count) }
{
    let mut xs = List::new(alloc);
    for x in 0..count {
        xs.push(x)?;
    }
    Ok(xs)
}

/// The first variable that is free in a function. There is none where all numbers of 32 bits are taken.
#[tactic(auto, using(crate::proofs::BoundRules::free_is))]
fn first_free(f: &LoopFun) -> Result<u32, NoMemory>
    ensures { IfOk result (λ free. free ≡ selected.first_free f.now) }
{
    let least = greater(f.params as u64, bound(&f.body));
    match u32::try_from(least) {
        Ok(free) => Ok(free),
        Err(_) => Err(NoMemory),
    }
}

fn select_function(alloc: Global, f: &LoopFun) -> Result<WordFun, NoMemory>
    ensures { IfOk result (λ g. g ≡ selected.select_function f.now) }
{
    let free = first_free(f)?;
    let selection = select_stmt(alloc, free, &f.body, &[])?;
    Ok(WordFun {
        name: Blob::from_slice(alloc, f.name.as_slice())?,
        cost: f.cost,
        params: first_variables(alloc, f.params)?,
        results: f.results,
        body: selection.stmt,
    })
}

/// The operations of a function, without those that nothing uses. Two rounds are enough for what selection leaves: the first
/// drops the constants and comparisons that have gone into immediates, addresses and tests, and the second the zeros that
/// those comparisons alone used.
fn choose_function(alloc: Global, f: &LoopFun) -> Result<WordFun, NoMemory>
    ensures { IfOk result (λ g. g ≡ chosen_function f.now) }
{
    let selected = select_function(alloc, f)?;
    let pruned = prune_function(alloc, selected)?;
    prune_function(alloc, pruned)
}

fn choose_functions(alloc: Global, functions: &[LoopFun]) -> Result<List<WordFun>, NoMemory>
    ensures { IfOk result (λ fs. fs ≡ map chosen_function functions.now) }
{
    let mut made = List::new(alloc);
    for i in 0..functions.len() {
        made.push(choose_function(alloc, &functions[i])?)?;
    }
    Ok(made)
}

/// The program in operations. Wherever the program doesn't fail, it is seen as the program; it has the same face and sites,
/// and needs no more of frames and code. `NoMemory` is the one error; it also stands for a function that takes all numbers
/// of 32 bits, for which no lawful frame has room.
#[tactic(auto, using(crate::proofs::Chosen::chosen_keeps, crate::proofs::Chosen::chosen_well_formed))]
pub fn select(alloc: Global, prog: &LoopProg) -> Result<WordProg, NoMemory>
    ensures { IfOk result (λ w. Keeps (loops.stage prog.now.program) (words.stage w.program)) }
{
    let functions = choose_functions(alloc, prog.program.functions.as_slice())?;
    let program = prog.program.with_functions(alloc, functions)?;
    Ok(WordProg { program })
}
