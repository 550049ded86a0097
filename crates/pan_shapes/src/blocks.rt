//! Statements, with those that have blocks.

ghost use Rattle.std.specs.Prelude.{◌≡◌, [], map};
ghost use Rattle.pan_tree.specs.declared.syntax.StmtKind.TheVariants as s;
ghost use Rattle.pan_tree.specs.Check.{doing, do_kind, in_order, block, handle, handler_unknown};
ghost use Rattle.pan_shapes.specs.Doings.{IsDone, context, state, doings, handler_doings};

use crate::calls::{check_call_alone, check_tail_call, copy_of_known};
use crate::error::CheckError;
use crate::statements::{
    STMT_WEIGHT, check_assign, check_condition, check_decl, check_foreign, check_leave,
    check_raise, check_return, check_shared_load, check_store_words, check_two_words,
    shape_of_exception,
};
use crate::walking::{Around, Walk};
use pan_tree::{Block, Call, Expr, Handler, Stmt, StmtKind, count_words};

/// Checks a statement, and answers what it weighs, or 2^64 - 1 where that is less.
#[cycle(stmt)]
pub fn check_stmt<'p>(
    around: &Around<'_>,
    stmt: &'p Stmt,
    walk: &mut Walk<'p>,
) -> Result<u64, CheckError>
    ensures { IsDone (do_kind stmt.now.kind (context around.now) stmt.now.span.start (state walk.old)) walk.new result }
{
    let place = stmt.span.start;
    match &stmt.kind {
        StmtKind::Skip => Ok(STMT_WEIGHT),
        StmtKind::Decl(name, value) => check_decl(around, place, name, value, walk),
        StmtKind::Assign(name, value) => check_assign(around, place, name, value, walk),
        StmtKind::StoreWords(address, value) => {
            check_store_words(around, place, address, value, walk)
        }
        StmtKind::StoreByte(address, value) | StmtKind::SharedStore(_, address, value) => {
            check_two_words(around, place, address, value, walk)
        }
        StmtKind::If(condition, then_do, else_do) => {
            check_if(around, place, condition, then_do, else_do, walk)
        }
        StmtKind::While(condition, body) => check_while(around, place, condition, body, walk),
        StmtKind::Break | StmtKind::Continue => check_leave(around, place, walk),
        StmtKind::Call(call) => check_call(around, place, call, walk),
        StmtKind::Return(value) => check_return(around, place, value, walk),
        StmtKind::TailCall(name, args) => {
            check_tail_call(around, place, name, args.as_slice(), walk)
        }
        StmtKind::Raise(exception, value) => check_raise(around, place, exception, value, walk),
        StmtKind::SharedLoad(size, name, address) => {
            check_shared_load(around, place, *size, name, address, walk)
        }
        StmtKind::Foreign(name, config, config_len, array, array_len) => {
            let config = (config, config_len);
            let array = (array, array_len);
            check_foreign(around, place, name, config, array, walk)
        }
    }
}

/// Checks an `if`, and answers what it weighs, or 2^64 - 1 where that is less.
#[cycle(stmt)]
fn check_if<'p>(
    around: &Around<'_>,
    place: u32,
    condition: &Expr,
    then_do: &'p Block,
    else_do: &'p Block,
    walk: &mut Walk<'p>,
) -> Result<u64, CheckError>
    ensures { IsDone (do_kind (s.If condition.now then_do.now else_do.now) (context around.now) place (state walk.old)) walk.new result }
{
    let test = check_condition(around, place, condition, walk)?;
    let first = check_block(around, then_do, walk)?;
    let second = check_block(around, else_do, walk)?;
    Ok(test.saturating_add(first).saturating_add(second))
}

/// Checks a loop, and answers what it weighs, or 2^64 - 1 where that is less.
#[cycle(stmt)]
fn check_while<'p>(
    around: &Around<'_>,
    place: u32,
    condition: &Expr,
    body: &'p Block,
    walk: &mut Walk<'p>,
) -> Result<u64, CheckError>
    ensures { IsDone (do_kind (s.While condition.now body.now) (context around.now) place (state walk.old)) walk.new result }
{
    let test = check_condition(around, place, condition, walk)?;
    let inside = Around {
        alloc: around.alloc,
        heads: around.heads,
        result: around.result,
        in_loop: true,
    };
    let body = check_block(&inside, body, walk)?;
    Ok(test.saturating_add(body))
}

/// Checks a call with its handler, and answers what it weighs, or 2^64 - 1 where that is less.
#[cycle(stmt)]
fn check_call<'p>(
    around: &Around<'_>,
    place: u32,
    call: &'p Call,
    walk: &mut Walk<'p>,
) -> Result<u64, CheckError>
    ensures { IsDone (do_kind (s.Call call.now) (context around.now) place (state walk.old)) walk.new result }
{
    let no_exception = names_no_exception(around, &call.handler);
    let alone = check_call_alone(around, place, call, no_exception, walk)?;
    let handler = check_handler(around, &call.handler, walk)?;
    Ok(alone.saturating_add(handler))
}

/// Whether there is a handler, of an exception that isn't known.
fn names_no_exception(around: &Around<'_>, handler: &Option<Handler>) -> bool
    ensures { result ≡ handler_unknown (handler_doings handler.now) around.now.heads.now }
{
    match handler {
        None => false,
        Some(handler) => shape_of_exception(around.heads, &handler.exception).is_none(),
    }
}

/// Checks what catches an exception, and answers what it weighs, or 2^64 - 1 where that is less.
#[cycle(stmt)]
fn check_handler<'p>(
    around: &Around<'_>,
    handler: &'p Option<Handler>,
    walk: &mut Walk<'p>,
) -> Result<u64, CheckError>
    ensures { IsDone (handle (handler_doings handler.now) (context around.now) (state walk.old)) walk.new result }
{
    match handler {
        None => Ok(0),
        Some(handler) => {
            let shape = copy_of_known(
                around.alloc,
                shape_of_exception(around.heads, &handler.exception),
            )?;
            let weight = STMT_WEIGHT.saturating_add(count_words(&shape));
            walk.scopes.enter()?;
            walk.scopes.declare(handler.name.as_bytes(), shape)?;
            let body = check_stmts(around, handler.body.stmts.as_slice(), walk)?;
            walk.scopes.leave();
            Ok(weight.saturating_add(body))
        }
    }
}

/// Checks a block, and answers what it weighs, or 2^64 - 1 where that is less.
#[cycle(stmt)]
fn check_block<'p>(
    around: &Around<'_>,
    body: &'p Block,
    walk: &mut Walk<'p>,
) -> Result<u64, CheckError>
    ensures { IsDone (block [] (doings body.now) (context around.now) (state walk.old)) walk.new result }
{
    walk.scopes.enter()?;
    let weight = check_stmts(around, body.stmts.as_slice(), walk)?;
    walk.scopes.leave();
    Ok(weight)
}

/// Checks statements one after another, and answers what they weigh, or 2^64 - 1 where that is less.
#[cycle(stmt)]
pub fn check_stmts<'p>(
    around: &Around<'_>,
    stmts: &'p [Stmt],
    walk: &mut Walk<'p>,
) -> Result<u64, CheckError>
    ensures { IsDone (in_order (map doing stmts.now) (context around.now) (state walk.old)) walk.new result }
{
    let mut weight: u64 = 0;
    for stmt in stmts {
        weight = weight.saturating_add(check_stmt(around, stmt, walk)?);
    }
    Ok(weight)
}
