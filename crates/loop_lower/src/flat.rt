//! The steps of statements without blocks.

ghost use Rattle.std.specs.Prelude.{◌≡◌, [], ◌∷◌, ◌++◌, IfOk};
ghost use Rattle.crep_lang.specs.declared.syntax.Stmt.TheVariants as c;
ghost use Rattle.loop_lower.specs.Lowered.{placed};

use crate::lowering::lower_expr;
use crate::places::{Placed, Room};
use crate::rows::{finished, lower_four, lower_one, lower_row, lower_two};
use crate::sizes::{next_start, sizes_of_one};
use crep_lang::Expr;
use loop_lang::Stmt;
use pan_base::{List, NoMemory, Size};
use std::alloc::Global;

/// Gives a variable a word.
#[tactic(auto, using(crate::proofs::StmtRules::placed_assign))]
pub fn assign(
    alloc: Global,
    room: Room,
    target: u32,
    expr: &Expr,
    next: u32,
) -> Result<Placed, NoMemory>
    ensures { IfOk result (λ p. p ≡ placed room.limit room.base (c.Assign target expr.now) next) }
{
    let plan = next_start(room.limit, room.base, next, sizes_of_one(expr));
    let mut steps = List::new(alloc);
    lower_expr(
        alloc,
        &mut steps,
        expr,
        Some(target),
        plan.start,
        plan.apart,
    )?;
    Ok(Placed {
        stmt: Stmt::Seq(steps),
        next: plan.next,
    })
}

/// Writes a word.
#[tactic(auto, using(crate::proofs::StmtRules::placed_store_word))]
pub fn store_word(
    alloc: Global,
    room: Room,
    address: &Expr,
    word: &Expr,
    next: u32,
) -> Result<Placed, NoMemory>
    ensures { IfOk result (λ p. p ≡ placed room.limit room.base (c.StoreWord address.now word.now) next) }
{
    let ready = lower_two(alloc, room, address, word, next)?;
    finished(
        ready.steps,
        Stmt::StoreWord(ready.first, ready.second),
        ready.next,
    )
}

/// Writes a byte.
#[tactic(auto, using(crate::proofs::StmtRules::placed_store_byte))]
pub fn store_byte(
    alloc: Global,
    room: Room,
    address: &Expr,
    word: &Expr,
    next: u32,
) -> Result<Placed, NoMemory>
    ensures { IfOk result (λ p. p ≡ placed room.limit room.base (c.StoreByte address.now word.now) next) }
{
    let ready = lower_two(alloc, room, address, word, next)?;
    finished(
        ready.steps,
        Stmt::StoreByte(ready.first, ready.second),
        ready.next,
    )
}

/// Leaves the function with the result of a call.
#[tactic(auto, using(crate::proofs::StmtRules::placed_tail_call))]
pub fn tail_call(
    alloc: Global,
    room: Room,
    function: u32,
    args: &[Expr],
    next: u32,
) -> Result<Placed, NoMemory>
    ensures { IfOk result (λ p. p ≡ placed room.limit room.base (c.TailCall function args.now) next) }
{
    let ready = lower_row(alloc, room, args, next)?;
    let args = ready.variables;
    finished(ready.steps, Stmt::TailCall { function, args }, ready.next)
}

/// Leaves the function with words.
#[tactic(auto, using(crate::proofs::StmtRules::placed_return))]
pub fn returned(alloc: Global, room: Room, words: &[Expr], next: u32) -> Result<Placed, NoMemory>
    ensures { IfOk result (λ p. p ≡ placed room.limit room.base (c.Return words.now) next) }
{
    let ready = lower_row(alloc, room, words, next)?;
    finished(ready.steps, Stmt::Return(ready.variables), ready.next)
}

/// Leaves the function with an exception.
#[tactic(auto, using(crate::proofs::StmtRules::placed_raise))]
pub fn raised(
    alloc: Global,
    room: Room,
    exception: u32,
    words: &[Expr],
    next: u32,
) -> Result<Placed, NoMemory>
    ensures { IfOk result (λ p. p ≡ placed room.limit room.base (c.Raise exception words.now) next) }
{
    let ready = lower_row(alloc, room, words, next)?;
    finished(
        ready.steps,
        Stmt::Raise(exception, ready.variables),
        ready.next,
    )
}

/// Reads from the shared window.
#[tactic(auto, using(crate::proofs::StmtRules::placed_shared_load))]
pub fn shared_load(
    alloc: Global,
    room: Room,
    size: Size,
    target: u32,
    address: &Expr,
    next: u32,
) -> Result<Placed, NoMemory>
    ensures { IfOk result (λ p. p ≡ placed room.limit room.base (c.SharedLoad size target address.now) next) }
{
    let ready = lower_one(alloc, room, address, next)?;
    finished(
        ready.steps,
        Stmt::SharedLoad(size, target, ready.variable),
        ready.next,
    )
}

/// Writes to the shared window.
#[tactic(auto, using(crate::proofs::StmtRules::placed_shared_store))]
pub fn shared_store(
    alloc: Global,
    room: Room,
    size: Size,
    address: &Expr,
    word: &Expr,
    next: u32,
) -> Result<Placed, NoMemory>
    ensures { IfOk result (λ p. p ≡ placed room.limit room.base (c.SharedStore size address.now word.now) next) }
{
    let ready = lower_two(alloc, room, address, word, next)?;
    finished(
        ready.steps,
        Stmt::SharedStore(size, ready.first, ready.second),
        ready.next,
    )
}

/// Calls a foreign function.
#[tactic(auto, using(crate::proofs::StmtRules::placed_foreign))]
pub fn foreign(
    alloc: Global,
    room: Room,
    name: u32,
    conf: &Expr,
    conf_len: &Expr,
    array: &Expr,
    array_len: &Expr,
    next: u32,
) -> Result<Placed, NoMemory>
    ensures { IfOk result (λ p. p ≡ placed room.limit room.base (c.Foreign name conf.now conf_len.now array.now array_len.now) next) }
{
    let ready = lower_four(alloc, room, conf, conf_len, array, array_len, next)?;
    let call = Stmt::Foreign {
        live: List::new(alloc),
        name,
        conf: ready.first,
        conf_len: ready.second,
        array: ready.third,
        array_len: ready.fourth,
    };
    finished(ready.steps, call, ready.next)
}
