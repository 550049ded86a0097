//! The steps of statements.

ghost use Rattle.std.specs.Prelude.{◌≡◌, [], ◌∷◌, ◌++◌, map, IfOk};
ghost use Rattle.loop_lang.specs.declared.syntax.Stmt.TheVariants as s;
ghost use Rattle.loop_lower.specs.Lowered.{placed, placed_row, handler_placed, finished as step_behind};

use crate::flat::{
    assign, foreign, raised, returned, shared_load, shared_store, store_byte, store_word, tail_call,
};
use crate::places::{Placed, PlacedHandler, PlacedRow, Room};
use crate::rows::{OneReady, RowReady, finished, lower_behind, lower_one, lower_row};
use crep_lang::Stmt as Crep;
use loop_lang::Stmt;
use pan_base::{Boxed, List, NoMemory};
use pan_stage::Handler;
use std::alloc::Global;

/// A statement that needs no temporaries.
fn alone(stmt: Stmt, next: u32) -> Result<Placed, NoMemory>
    ensures stmt { IfOk result (λ p. p.stmt ≡ stmt) }
    ensures next { IfOk result (λ p. p.next ≡ next) }
{
    Ok(Placed { stmt, next })
}

/// The loop of a body, with the steps of its test.
fn repeated(alloc: Global, test: OneReady, body: Placed) -> Result<Placed, NoMemory>
    ensures stmt { IfOk result (λ p. p.stmt ≡ s.While [] test.steps test.variable body.stmt) }
    ensures next { IfOk result (λ p. p.next ≡ body.next) }
{
    let turn = Stmt::While {
        live: List::new(alloc),
        before: test.steps,
        test: test.variable,
        body: Boxed::new(alloc, body.stmt)?,
    };
    alone(turn, body.next)
}

/// The choice between two statements, behind its test.
fn branch(alloc: Global, test: OneReady, first: Placed, second: Placed) -> Result<Placed, NoMemory>
    ensures { IfOk result (λ p. p ≡ step_behind test.steps (s.If test.variable first.stmt second.stmt) second.next) }
{
    let choice = Stmt::If(
        test.variable,
        Boxed::new(alloc, first.stmt)?,
        Boxed::new(alloc, second.stmt)?,
    );
    finished(test.steps, choice, second.next)
}

/// The call, behind its arguments.
fn called(
    alloc: Global,
    results: &[u32],
    function: u32,
    args: RowReady,
    handler: PlacedHandler,
) -> Result<Placed, NoMemory>
    ensures { IfOk result (λ p. p ≡ step_behind args.steps (s.Call [] results.now function args.variables handler.handler) handler.next) }
{
    let call = Stmt::Call {
        live: List::new(alloc),
        results: List::from_slice(alloc, results)?,
        function,
        args: args.variables,
        handler: handler.handler,
    };
    finished(args.steps, call, handler.next)
}

/// What a statement becomes, with temporaries from a number on.
#[cycle(placed)]
#[tactic(auto, using(crate::proofs::StmtRules::block_rules))]
pub fn lower_stmt(alloc: Global, room: Room, stmt: &Crep, next: u32) -> Result<Placed, NoMemory>
    ensures { IfOk result (λ p. p ≡ placed room.limit room.base stmt.now next) }
{
    match stmt {
        Crep::Skip => alone(Stmt::Skip, next),
        Crep::Seq(all) => {
            let row = lower_stmts(alloc, room, all.as_slice(), next)?;
            alone(Stmt::Seq(row.stmts), row.next)
        }
        Crep::Assign(target, expr) => assign(alloc, room, *target, expr, next),
        Crep::StoreWord(address, word) => store_word(alloc, room, address, word, next),
        Crep::StoreByte(address, word) => store_byte(alloc, room, address, word, next),
        Crep::If(test, first, second) => {
            let test = lower_one(alloc, room, test, next)?;
            let first = lower_stmt(alloc, room, first.get(), test.next)?;
            let second = lower_stmt(alloc, room, second.get(), first.next)?;
            branch(alloc, test, first, second)
        }
        Crep::While { before, test, body } => {
            let row = lower_stmts(alloc, room, before.as_slice(), next)?;
            let test = lower_behind(alloc, room, row.stmts, test, row.next)?;
            let body = lower_stmt(alloc, room, body.get(), test.next)?;
            repeated(alloc, test, body)
        }
        Crep::Break => alone(Stmt::Break, next),
        Crep::Continue => alone(Stmt::Continue, next),
        Crep::Call {
            results,
            function,
            args,
            handler,
        } => {
            let args = lower_row(alloc, room, args.as_slice(), next)?;
            let handler = lower_handler(alloc, room, handler, args.next)?;
            called(alloc, results.as_slice(), *function, args, handler)
        }
        Crep::TailCall { function, args } => {
            tail_call(alloc, room, *function, args.as_slice(), next)
        }
        Crep::Return(words) => returned(alloc, room, words.as_slice(), next),
        Crep::Raise(exception, words) => raised(alloc, room, *exception, words.as_slice(), next),
        Crep::SharedLoad(size, target, address) => {
            shared_load(alloc, room, *size, *target, address, next)
        }
        Crep::SharedStore(size, address, word) => {
            shared_store(alloc, room, *size, address, word, next)
        }
        Crep::Foreign(name, conf, conf_len, array, array_len) => {
            foreign(alloc, room, *name, conf, conf_len, array, array_len, next)
        }
    }
}

/// What statements become, one after another.
#[cycle(placed)]
fn lower_stmts(alloc: Global, room: Room, all: &[Crep], next: u32) -> Result<PlacedRow, NoMemory>
    ensures stmts { IfOk result (λ r. r.stmts ≡ (placed_row room.limit room.base (map (placed room.limit room.base) all.now) next).stmts) }
    ensures next { IfOk result (λ r. r.next ≡ (placed_row room.limit room.base (map (placed room.limit room.base) all.now) next).next) }
{
    let mut stmts = List::new(alloc);
    let mut start = next;
    for i in 0..all.len() {
        let one = lower_stmt(alloc, room, &all[i], start)?;
        start = one.next;
        let stmt = one.stmt;
        stmts.push(stmt)?;
    }
    Ok(PlacedRow { stmts, next: start })
}

#[cycle(placed)]
fn lower_handler(
    alloc: Global,
    room: Room,
    handler: &Option<Handler<Boxed<Crep>>>,
    next: u32,
) -> Result<PlacedHandler, NoMemory>
    ensures { IfOk result (λ h. h ≡ handler_placed room.limit room.base handler.now next) }
{
    match handler {
        None => Ok(PlacedHandler {
            handler: None,
            next,
        }),
        Some(handler) => {
            let body = lower_stmt(alloc, room, handler.body.get(), next)?;
            Ok(PlacedHandler {
                handler: Some(Handler {
                    exception: handler.exception,
                    variables: List::from_slice(alloc, handler.variables.as_slice())?,
                    body: Boxed::new(alloc, body.stmt)?,
                }),
                next: body.next,
            })
        }
    }
}
