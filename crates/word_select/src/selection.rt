//! The operations of statements.

ghost use Rattle.std.specs.Prelude.{◌≡◌, [], map, IfOk};
ghost use Rattle.word_lang.specs.declared.syntax.Stmt.TheVariants as word;
ghost use Rattle.word_select.specs.declared.facts.Fact.TheVariants as fact;
ghost use Rattle.word_select.specs.Facts.{forget, learn};
ghost use Rattle.word_select.specs.Selected as selection;
ghost use Rattle.word_select.specs.Selected.{in_row, selected, selected_handler};

use crate::facts::{Fact, Known, forgotten, learned};
use crate::operands::{address_at, test_at};
use crate::operators::{comparison, operation, operation_known, shift};
use loop_lang::Stmt as Loop;
use pan_base::{BinOp, Boxed, Cmp, IOp, LOp, List, NoMemory, SOp, ShOp, Size};
use pan_stage::Handler;
use std::alloc::Global;
use word_lang::Stmt;

/// A statement of operations, and what is known behind it.
#[derive(Drop)]
pub struct Selection {
    pub stmt: Stmt,
    pub facts: List<Known>,
}

/// Statements one after another, and what is known behind them.
#[derive(Drop)]
pub struct Row {
    pub stmts: List<Stmt>,
    pub facts: List<Known>,
}

// ---- statements without parts

/// A statement that writes nothing.
fn keeping(alloc: Global, stmt: Stmt, known: &[Known]) -> Result<Selection, NoMemory>
    ensures { IfOk result (λ s. s ≡ record { stmt = stmt; facts = known.now }) }
{
    let facts = List::from_slice(alloc, known)?;
    Ok(Selection { stmt, facts })
}

/// A statement that writes a variable.
fn writing(alloc: Global, stmt: Stmt, x: u32, known: &[Known]) -> Result<Selection, NoMemory>
    ensures { IfOk result (λ s. s ≡ record { stmt = stmt; facts = forget x known.now }) }
{
    let facts = forgotten(alloc, x, known)?;
    Ok(Selection { stmt, facts })
}

/// A statement behind which nothing is known.
fn forgetting(alloc: Global, stmt: Stmt) -> Selection
    ensures { result ≡ record { stmt = stmt; facts = [] } }
{
    let facts = List::new(alloc);
    Selection { stmt, facts }
}

/// A copy of variables. `NoMemory` is the one error.
pub fn copied(alloc: Global, variables: &List<u32>) -> Result<List<u32>, NoMemory>
    ensures { IfOk result (λ copy. copy ≡ variables.now) }
{
    Ok(List::from_slice(alloc, variables.as_slice())?)
}

// ---- steps

fn select_const(alloc: Global, x: u32, n: u64, known: &[Known]) -> Result<Selection, NoMemory>
    ensures { IfOk result (λ s. s ≡ record { stmt = word.Const x n; facts = learn x (fact.Number n) known.now }) }
{
    let facts = learned(alloc, x, Fact::Number(n), known)?;
    let stmt = Stmt::Const(x, n);
    Ok(Selection { stmt, facts })
}

fn select_bin(
    alloc: Global,
    op: BinOp,
    x: u32,
    a: u32,
    b: u32,
    known: &[Known],
) -> Result<Selection, NoMemory>
    ensures { IfOk result (λ s. s ≡ record { stmt = selection.operation op x a b known.now; facts = selection.operation_facts op x a b known.now }) }
{
    let stmt = operation(op, x, a, b, known);
    let facts = operation_known(alloc, op, x, a, b, known)?;
    Ok(Selection { stmt, facts })
}

fn select_shift(
    alloc: Global,
    free: u32,
    op: ShOp,
    x: u32,
    a: u32,
    n: u8,
    known: &[Known],
) -> Result<Selection, NoMemory>
    ensures { IfOk result (λ s. s ≡ record { stmt = word.Seq (selection.shift_steps free op x a n); facts = forget x (forget free known.now) }) }
{
    let stmt = Stmt::Seq(shift(alloc, free, op, x, a, n)?);
    let known = forgotten(alloc, free, known)?;
    writing(alloc, stmt, x, known.as_slice())
}

fn select_compare(
    alloc: Global,
    op: Cmp,
    x: u32,
    a: u32,
    b: u32,
    known: &[Known],
) -> Result<Selection, NoMemory>
    ensures { IfOk result (λ s. s ≡ record { stmt = word.Seq (selection.comparison op x a b known.now); facts = learn x (fact.Compared op a b) known.now }) }
{
    let stmt = Stmt::Seq(comparison(alloc, op, x, a, b, known)?);
    let facts = learned(alloc, x, Fact::Compared(op, a, b), known)?;
    Ok(Selection { stmt, facts })
}

fn select_load(
    alloc: Global,
    op: LOp,
    x: u32,
    a: u32,
    known: &[Known],
) -> Result<Selection, NoMemory>
    ensures { IfOk result (λ s. let at = selection.address_at a known.now in s ≡ record { stmt = word.Load op x at.base at.offset; facts = forget x known.now }) }
{
    let at = address_at(known, a);
    writing(alloc, Stmt::Load(op, x, at.base, at.offset), x, known)
}

fn select_store(
    alloc: Global,
    op: SOp,
    a: u32,
    x: u32,
    known: &[Known],
) -> Result<Selection, NoMemory>
    ensures { IfOk result (λ s. let at = selection.address_at a known.now in s ≡ record { stmt = word.Store op x at.base at.offset; facts = known.now }) }
{
    let at = address_at(known, a);
    keeping(alloc, Stmt::Store(op, x, at.base, at.offset), known)
}

fn select_shared_load(
    alloc: Global,
    size: Size,
    x: u32,
    a: u32,
    known: &[Known],
) -> Result<Selection, NoMemory>
    ensures { IfOk result (λ s. let at = selection.address_at a known.now in s ≡ record { stmt = word.SharedLoad size x at.base at.offset; facts = forget x known.now }) }
{
    let at = address_at(known, a);
    writing(
        alloc,
        Stmt::SharedLoad(size, x, at.base, at.offset),
        x,
        known,
    )
}

fn select_shared_store(
    alloc: Global,
    size: Size,
    a: u32,
    x: u32,
    known: &[Known],
) -> Result<Selection, NoMemory>
    ensures { IfOk result (λ s. let at = selection.address_at a known.now in s ≡ record { stmt = word.SharedStore size x at.base at.offset; facts = known.now }) }
{
    let at = address_at(known, a);
    keeping(alloc, Stmt::SharedStore(size, x, at.base, at.offset), known)
}

fn select_call(
    alloc: Global,
    results: &List<u32>,
    function: u32,
    args: &List<u32>,
    handler: Option<Handler<Boxed<Stmt>>>,
) -> Result<Selection, NoMemory>
    ensures { IfOk result (λ s. s ≡ record { stmt = word.Call results.now function args.now handler; facts = [] }) }
{
    let results = copied(alloc, results)?;
    let args = copied(alloc, args)?;
    let call = Stmt::Call {
        results,
        function,
        args,
        handler,
    };
    Ok(forgetting(alloc, call))
}

fn select_tail_call(alloc: Global, function: u32, args: &List<u32>) -> Result<Selection, NoMemory>
    ensures { IfOk result (λ s. s ≡ record { stmt = word.TailCall function args.now; facts = [] }) }
{
    let args = copied(alloc, args)?;
    Ok(forgetting(alloc, Stmt::TailCall { function, args }))
}

// ---- all statements

/// What a statement becomes, with a variable that is free for rotations, from what is known before it.
#[cycle(selected)]
#[tactic(auto, using(crate::proofs::SelectRules::select_rules))]
pub fn select_stmt(
    alloc: Global,
    free: u32,
    stmt: &Loop,
    known: &[Known],
) -> Result<Selection, NoMemory>
    ensures { IfOk result (λ s. s ≡ selected free stmt.now known.now) }
{
    match stmt {
        Loop::Skip => keeping(alloc, Stmt::Skip, known),
        Loop::Seq(all) => {
            let Row { stmts, facts } = select_row(alloc, free, all.as_slice(), known)?;
            let stmt = Stmt::Seq(stmts);
            Ok(Selection { stmt, facts })
        }
        Loop::Const(x, n) => select_const(alloc, *x, *n, known),
        Loop::Move(x, a) => writing(alloc, Stmt::Imm(IOp::Ori, *x, *a, 0), *x, known),
        Loop::Bin(op, x, a, b) => select_bin(alloc, *op, *x, *a, *b, known),
        Loop::Shift(op, x, a, n) => select_shift(alloc, free, *op, *x, *a, *n, known),
        Loop::Compare(op, x, a, b) => select_compare(alloc, *op, *x, *a, *b, known),
        Loop::LoadWord(x, a) => select_load(alloc, LOp::Ld, *x, *a, known),
        Loop::LoadByte(x, a) => select_load(alloc, LOp::Lbu, *x, *a, known),
        Loop::StoreWord(a, x) => select_store(alloc, SOp::Sd, *a, *x, known),
        Loop::StoreByte(a, x) => select_store(alloc, SOp::Sb, *a, *x, known),
        Loop::If(x, first, second) => {
            let first = select_part(alloc, free, first, known)?;
            let second = select_part(alloc, free, second, known)?;
            Ok(forgetting(alloc, Stmt::If(test_at(known, *x), first, second)))
        }
        Loop::While {
            before,
            test,
            body,
            ..
        } => {
            let row = select_row(alloc, free, before.as_slice(), &[])?;
            let body = select_part(alloc, free, body, row.facts.as_slice())?;
            let test = test_at(row.facts.as_slice(), *test);
            let before = row.stmts;
            Ok(forgetting(alloc, Stmt::While { before, test, body }))
        }
        Loop::Break => Ok(forgetting(alloc, Stmt::Break)),
        Loop::Continue => Ok(forgetting(alloc, Stmt::Continue)),
        Loop::Call {
            results,
            function,
            args,
            handler,
            ..
        } => {
            let handler = select_handler(alloc, free, handler)?;
            select_call(alloc, results, *function, args, handler)
        }
        Loop::TailCall { function, args } => select_tail_call(alloc, *function, args),
        Loop::Return(xs) => Ok(forgetting(alloc, Stmt::Return(copied(alloc, xs)?))),
        Loop::Raise(i, xs) => Ok(forgetting(alloc, Stmt::Raise(*i, copied(alloc, xs)?))),
        Loop::SharedLoad(size, x, a) => select_shared_load(alloc, *size, *x, *a, known),
        Loop::SharedStore(size, a, x) => select_shared_store(alloc, *size, *a, *x, known),
        Loop::Foreign {
            name,
            conf,
            conf_len,
            array,
            array_len,
            ..
        } => {
            let call = Stmt::Foreign(*name, *conf, *conf_len, *array, *array_len);
            Ok(forgetting(alloc, call))
        }
    }
}

/// Statements one after another.
#[cycle(selected)]
fn select_row(alloc: Global, free: u32, all: &[Loop], known: &[Known]) -> Result<Row, NoMemory>
    ensures { IfOk result (λ row. row ≡ in_row (map (selected free) all.now) known.now) }
{
    let mut stmts = List::new(alloc);
    let mut facts = List::from_slice(alloc, known)?;
    for i in 0..all.len() {
        let one = select_stmt(alloc, free, &all[i], facts.as_slice())?;
        stmts.push(one.stmt)?;
        facts = one.facts;
    }
    Ok(Row { stmts, facts })
}

/// A part of a statement, behind which nothing is known.
#[cycle(selected)]
fn select_part(
    alloc: Global,
    free: u32,
    part: &Boxed<Loop>,
    known: &[Known],
) -> Result<Boxed<Stmt>, NoMemory>
    ensures { IfOk result (λ s. s ≡ (selected free part.now known.now).stmt) }
{
    let one = select_stmt(alloc, free, part.get(), known)?;
    Ok(Boxed::new(alloc, one.stmt)?)
}

#[cycle(selected)]
fn select_handler(
    alloc: Global,
    free: u32,
    handler: &Option<Handler<Boxed<Loop>>>,
) -> Result<Option<Handler<Boxed<Stmt>>>, NoMemory>
    ensures { IfOk result (λ h. h ≡ selected_handler free handler.now) }
{
    match handler {
        None => Ok(None),
        Some(handler) => {
            let body = select_stmt(alloc, free, handler.body.get(), &[])?;
            Ok(Some(Handler {
                exception: handler.exception,
                variables: copied(alloc, &handler.variables)?,
                body: Boxed::new(alloc, body.stmt)?,
            }))
        }
    }
}
