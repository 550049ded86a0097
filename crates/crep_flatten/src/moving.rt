//! The words of a value, moved to variables and to memory.

ghost use Rattle.std.specs.Prelude.{◌≡◌, ◌+◌, ◌++◌, length, IfOk, OnOk};
ghost use Rattle.std.specs.List.{list_any};
ghost use Rattle.crep_lang.specs.declared.syntax.Expr.TheVariants as e;
ghost use Rattle.crep_flatten.specs.Rows.{variables};
ghost use Rattle.crep_flatten.specs.Reads as reads;
ghost use Rattle.crep_flatten.specs.Flattened as flattened;

use crate::few::Few;
use crate::lists::reversed;
use crate::rows::{Row, far};
use crate::settling::{Settled, push_variables, settle};
use crep_lang::{Expr, Stmt};
use pan_base::{List, NoMemory};
use std::alloc::Global;

/// The next number. `NoMemory` also stands for 2^32, which no program's variables reach.
pub fn next_after(number: u32) -> Result<u32, NoMemory>
    ensures { IfOk result (λ next. next ≡ number + 1) }
{
    match number.checked_add(1) {
        Some(next) => Ok(next),
        None => Err(NoMemory),
    }
}

/// How many words there are. `NoMemory` also stands for 2^32 or more.
fn count_of(words: &[Expr]) -> Result<u32, NoMemory>
    ensures { IfOk result (λ n. n ≡ length words.now) }
{
    match u32::try_from(words.len()) {
        Ok(count) => Ok(count),
        Err(_) => Err(NoMemory),
    }
}

/// Each word goes to the next variable, from a first one on; these assignments come behind some statements.
pub fn push_assigns(
    alloc: Global,
    stmts: &mut List<Stmt>,
    first: u32,
    words: List<Expr>,
) -> Result<(), NoMemory>
    ensures { OnOk result (stmts.new ≡ stmts.old ++ flattened.assign_row first words) }
{
    let mut variable = first;
    let mut left = reversed(alloc, words)?;
    while let Some(word) = left.pop() {
        stmts.push(Stmt::Assign(variable, word))?;
        variable = next_after(variable)?;
    }
    Ok(())
}

/// Words go to memory from the address in a variable on; these stores come behind some statements.
fn push_stores(
    alloc: Global,
    stmts: &mut List<Stmt>,
    address: u32,
    words: List<Expr>,
) -> Result<(), NoMemory>
    ensures { OnOk result (stmts.new ≡ stmts.old ++ flattened.store_row (e.Var address) 0 words) }
{
    let mut skip: u32 = 0;
    let mut left = reversed(alloc, words)?;
    while let Some(word) = left.pop() {
        let to = far(alloc, Expr::Var(address), skip)?;
        stmts.push(Stmt::StoreWord(to, word))?;
        skip = next_after(skip)?;
    }
    Ok(())
}

/// Whether a word reads none of so many variables from a first one on.
#[tactic(auto, using(crate::proofs::MovedWords::apart_rules))]
fn reads_none(first: u32, count: usize, word: &Expr) -> bool
    ensures { result ≡ reads.reads_none first count word.now }
{
    match word {
        Expr::Num(_) => true,
        Expr::Var(variable) => *variable < first || (*variable - first) as usize >= count,
        Expr::LoadWord(address) => reads_none(first, count, address.get()),
        Expr::LoadByte(address) => reads_none(first, count, address.get()),
        Expr::Bin(_, left, right) => {
            reads_none(first, count, left.get()) && reads_none(first, count, right.get())
        }
        Expr::Shift(_, shifted, _) => reads_none(first, count, shifted.get()),
        Expr::Compare(_, left, right) => {
            reads_none(first, count, left.get()) && reads_none(first, count, right.get())
        }
    }
}

/// Whether words can go to the variables from a first one on, one after another: none reads a variable that one before it goes to.
#[tactic(auto, using(crate::proofs::MovedWords::order_rules))]
fn go_straight(first: u32, words: &[Expr]) -> bool
    ensures { result ≡ reads.go_straight first 0 words.now }
{
    for i in 0..words.len() {
        if !reads_none(first, i, &words[i]) {
            return false;
        }
    }
    true
}

/// Whether a word is this very variable.
#[tactic(auto, using(crate::proofs::Variables::variable_rules))]
fn is_variable(word: &Expr, variable: u32) -> bool
    ensures { result ≡ reads.is_variable word.now variable }
{
    match word {
        Expr::Var(number) => *number == variable,
        Expr::Num(_)
        | Expr::LoadWord(_)
        | Expr::LoadByte(_)
        | Expr::Bin(_, _, _)
        | Expr::Shift(_, _, _)
        | Expr::Compare(_, _, _) => false,
    }
}

/// A word goes to a variable, which isn't given what it has; the assignment comes behind some statements.
fn push_move(stmts: &mut List<Stmt>, variable: u32, word: Expr) -> Result<(), NoMemory>
    ensures { OnOk result (stmts.new ≡ stmts.old ++ flattened.one_move variable word) }
{
    if is_variable(&word, variable) {
        return Ok(());
    }
    stmts.push(Stmt::Assign(variable, word))?;
    Ok(())
}

/// Each word goes to the next variable, from a first one on, which isn't given what it has; these assignments come behind some
/// statements.
#[tactic(auto, using(crate::proofs::MovedWords::move_rules))]
fn push_moves(
    alloc: Global,
    stmts: &mut List<Stmt>,
    first: u32,
    words: List<Expr>,
) -> Result<(), NoMemory>
    ensures { OnOk result (stmts.new ≡ stmts.old ++ flattened.moves first words) }
{
    let mut variable = first;
    let mut left = reversed(alloc, words)?;
    while let Some(word) = left.pop() {
        push_move(stmts, variable, word)?;
        variable = next_after(variable)?;
    }
    Ok(())
}

/// Words go to the variables from a free one on; these assignments come behind some statements. The words of these variables are the
/// result.
fn push_held(
    alloc: Global,
    stmts: &mut List<Stmt>,
    free: u32,
    words: List<Expr>,
) -> Result<List<Expr>, NoMemory>
    ensures stmts { OnOk result (stmts.new ≡ stmts.old ++ flattened.assign_row free words) }
    ensures held { IfOk result (λ held. held ≡ variables free (length words)) }
{
    let count = count_of(words.as_slice())?;
    let mut held = List::new(alloc);
    push_variables(&mut held, free, count)?;
    push_assigns(alloc, stmts, free, words)?;
    Ok(held)
}

/// Words go to the variables from a first one on, through others from a free one on where a word reads a variable that one before it
/// goes to.
fn push_moved(
    alloc: Global,
    stmts: &mut List<Stmt>,
    first: u32,
    words: List<Expr>,
    free: u32,
) -> Result<(), NoMemory>
    ensures { OnOk result (stmts.new ≡ stmts.old ++ flattened.moved first words free) }
{
    if go_straight(first, words.as_slice()) {
        return push_moves(alloc, stmts, first, words);
    }
    let held = push_held(alloc, stmts, free, words)?;
    push_assigns(alloc, stmts, first, held)
}

/// The words of rows go to the variables from a first one on. Variables from a free one on hold what is needed again.
pub fn assigned(
    alloc: Global,
    first: u32,
    rows: Few<Row>,
    free: u32,
) -> Result<List<Stmt>, NoMemory>
    ensures { IfOk result (λ ss. ss ≡ flattened.assigned first rows free) }
{
    let Settled {
        mut before,
        words,
        next,
    } = settle(alloc, rows, free)?;
    push_moved(alloc, &mut before, first, words, next)?;
    Ok(before)
}

/// Whether a word reads data memory.
#[tactic(auto, using(crate::proofs::Memory::memory_rules))]
fn reads_memory(word: &Expr) -> bool
    ensures { result ≡ reads.reads_memory word.now }
{
    match word {
        Expr::Num(_) | Expr::Var(_) => false,
        Expr::LoadWord(_) | Expr::LoadByte(_) => true,
        Expr::Bin(_, left, right) => reads_memory(left.get()) || reads_memory(right.get()),
        Expr::Shift(_, shifted, _) => reads_memory(shifted.get()),
        Expr::Compare(_, left, right) => reads_memory(left.get()) || reads_memory(right.get()),
    }
}

/// Whether one of some words reads data memory.
fn read_memory(words: &[Expr]) -> bool
    ensures { result ≡ list_any reads.reads_memory words.now }
{
    for word in words {
        if reads_memory(word) {
            return true;
        }
    }
    false
}

/// Words go to memory from the address in a variable on, through variables from a free one on where one reads memory.
fn push_stored(
    alloc: Global,
    stmts: &mut List<Stmt>,
    address: u32,
    words: List<Expr>,
    free: u32,
) -> Result<(), NoMemory>
    ensures { OnOk result (stmts.new ≡ stmts.old ++ flattened.stored_words address words free) }
{
    if read_memory(words.as_slice()) {
        let held = push_held(alloc, stmts, free, words)?;
        return push_stores(alloc, stmts, address, held);
    }
    push_stores(alloc, stmts, address, words)
}

/// The words of rows go to memory from an address on. Variables from a free one on hold what is needed again.
pub fn stored(
    alloc: Global,
    address: Expr,
    rows: Few<Row>,
    free: u32,
) -> Result<List<Stmt>, NoMemory>
    ensures { IfOk result (λ ss. ss ≡ flattened.stored address rows free) }
{
    let Settled {
        mut before,
        mut words,
        next,
    } = settle(alloc, rows, next_after(free)?)?;
    if words.len() <= 1 {
        if let Some(word) = words.pop() {
            before.push(Stmt::StoreWord(address, word))?;
        }
        return Ok(before);
    }
    let mut stmts = List::new(alloc);
    stmts.push(Stmt::Assign(free, address))?;
    stmts.append(before)?;
    push_stored(alloc, &mut stmts, free, words, next)?;
    Ok(stmts)
}
