//! Rows whose addresses are computed once.

ghost use Rattle.std.specs.Prelude.{◌≡◌, [], ◌∷◌, ◌++◌, IfOk, OnOk};
ghost use Rattle.crep_lang.specs.declared.syntax.Expr.TheVariants as e;
ghost use Rattle.crep_flatten.specs.Rows as rows_of;

use crate::few::Few;
use crate::rows::{Row, far};
use crep_lang::{Expr, Stmt};
use pan_base::{Boxed, List, NoMemory};
use std::alloc::Global;

/// Words, the statements that come before they are computed, and the next variable that is free.
#[derive(Drop)]
pub struct Settled {
    pub before: List<Stmt>,
    pub words: List<Expr>,
    pub next: u32,
}

/// So many variables from one on come behind some words.
pub fn push_variables(words: &mut List<Expr>, first: u32, count: u32) -> Result<(), NoMemory>
    ensures { OnOk result (words.new ≡ words.old ++ rows_of.variables first count) }
{
    let mut next = first;
    let mut left = count;
    while left > 0 {
        words.push(Expr::Var(next))?;
        let Some(after) = next.checked_add(1) else {
            return Err(NoMemory);
        };
        next = after;
        left -= 1;
    }
    Ok(())
}

/// So many words of memory, from so many words behind the address in a variable on, come behind some words.
fn push_loads(
    alloc: Global,
    words: &mut List<Expr>,
    address: u32,
    skip: u32,
    count: u32,
) -> Result<(), NoMemory>
    ensures { OnOk result (words.new ≡ words.old ++ rows_of.loads (e.Var address) skip count) }
{
    let mut next = skip;
    let mut left = count;
    while left > 0 {
        let at = far(alloc, Expr::Var(address), next)?;
        words.push(Expr::LoadWord(Boxed::new(alloc, at)?))?;
        let Some(after) = next.checked_add(1) else {
            return Err(NoMemory);
        };
        next = after;
        left -= 1;
    }
    Ok(())
}

/// The words of a row come behind some words, and before them the address of several words of memory goes to a free variable. The
/// variable that is then free is the result.
#[tactic(auto, using(crate::proofs::SettledRows::row_rules))]
fn settle_row(
    alloc: Global,
    before: &mut List<Stmt>,
    words: &mut List<Expr>,
    row: Row,
    free: u32,
) -> Result<u32, NoMemory>
    ensures before { OnOk result (before.new ≡ before.old ++ (rows_of.settle (row ∷ []) free).before) }
    ensures words { OnOk result (words.new ≡ words.old ++ (rows_of.settle (row ∷ []) free).words) }
    ensures next { IfOk result (λ n. n ≡ (rows_of.settle (row ∷ []) free).next) }
{
    match row {
        Row::Variables(first, count) => {
            push_variables(words, first, count)?;
            Ok(free)
        }
        Row::One(word) => {
            words.push(word)?;
            Ok(free)
        }
        Row::Loads(address, skip, count) => {
            if count >= 2 {
                let Some(next) = free.checked_add(1) else {
                    return Err(NoMemory);
                };
                before.push(Stmt::Assign(free, address))?;
                push_loads(alloc, words, free, skip, count)?;
                return Ok(next);
            }
            if count == 1 {
                let at = far(alloc, address, skip)?;
                words.push(Expr::LoadWord(Boxed::new(alloc, at)?))?;
            }
            Ok(free)
        }
    }
}

/// Rows with the address of several words of memory in a variable, from a free one on.
pub fn settle(alloc: Global, rows: Few<Row>, free: u32) -> Result<Settled, NoMemory>
    ensures before { IfOk result (λ s. s.before ≡ (rows_of.settle rows free).before) }
    ensures words { IfOk result (λ s. s.words ≡ (rows_of.settle rows free).words) }
    ensures next { IfOk result (λ s. s.next ≡ (rows_of.settle rows free).next) }
{
    let mut before = List::new(alloc);
    let mut words = List::new(alloc);
    let mut next = free;
    let mut left = rows.into_iter();
    while let Some(row) = left.next() {
        next = settle_row(alloc, &mut before, &mut words, row, next)?;
    }
    Ok(Settled {
        before,
        words,
        next,
    })
}
