//! Resolves the names of statements.

ghost use Rattle.std.specs.Prelude.{◌≡◌, [], IfOk, OnOk};
ghost use Rattle.pan_tree.specs.Check.{function_of, result_of};
ghost use Rattle.source_resolver.specs.Resolving.{resolved_expr, resolved_target, after_target, resolved_handler, handler_resolving, block_resolving, call_resolving, resolved_call, resolved_kind, resolved_stmts, block};

use crate::directory::Directory;
use crate::places::Places;
use crate::resolved::{Block, Call, CallOf, Expr, Handler, HandlerOf, Stmt, Target};
use crate::resolving_exprs::{resolve_expr, resolve_exprs};
use crate::shared::Shared;
use pan_base::{List, NoMemory, Text};
use pan_tree::{
    Block as SourceBlock, Call as SourceCall, Expr as SourceExpr, Handler as SourceHandler,
    Stmt as SourceStmt, StmtKind, Target as SourceTarget,
};
use std::alloc::Global;

/// Two expressions, with each variable as its place.
fn resolve_two(
    alloc: Global,
    first: &SourceExpr,
    second: &SourceExpr,
    places: &Places<'_>,
) -> Result<(Expr, Expr), NoMemory>
    ensures { IfOk result (λ r. r ≡ (resolved_expr first.now places.now, resolved_expr second.now places.now)) }
{
    let first = resolve_expr(alloc, first, places)?;
    let second = resolve_expr(alloc, second, places)?;
    Ok((first, second))
}

/// Where the result of a call of this function goes. A new variable is declared.
fn resolve_target<'p>(
    alloc: Global,
    directory: &Directory<'_>,
    into: &'p SourceTarget,
    function: &Text,
    places: &mut Places<'p>,
) -> Result<Target, NoMemory>
    ensures target { IfOk result (λ t. t ≡ resolved_target into.now (result_of (function_of function.now directory.now)) places.old) }
    ensures after { OnOk result (places.new ≡ after_target into.now places.old) }
{
    match into {
        SourceTarget::Nothing => Ok(Target::Nothing),
        SourceTarget::Old(name) => Ok(Target::Old(places.place(name.as_bytes()))),
        SourceTarget::New(name) => {
            let shape = directory.result(alloc, function.as_bytes())?;
            places.declare(name.as_bytes())?;
            Ok(Target::New(shape))
        }
    }
}

/// The statement, with its names resolved. A new variable is declared.
#[cycle(resolve_stmt)]
#[tactic(auto, using(crate::proofs::ResolvingStmts::resolved_stmt_rules))]
pub fn resolve_stmt<'p>(
    alloc: Global,
    directory: &Directory<'_>,
    stmt: &'p SourceStmt,
    places: &mut Places<'p>,
) -> Result<Stmt, NoMemory>
    ensures stmt { IfOk result (λ s. s ≡ (resolved_kind stmt.now.kind directory.now places.old).0) }
    ensures after { OnOk result (places.new ≡ (resolved_kind stmt.now.kind directory.now places.old).1) }
{
    match &stmt.kind {
        StmtKind::Skip => Ok(Stmt::Skip),
        StmtKind::Decl(name, value) => {
            let value = resolve_expr(alloc, value, places)?;
            places.declare(name.as_bytes())?;
            Ok(Stmt::Declare(value))
        }
        StmtKind::Assign(name, value) => {
            let value = resolve_expr(alloc, value, places)?;
            Ok(Stmt::Assign(places.place(name.as_bytes()), value))
        }
        StmtKind::StoreWords(address, value) => {
            let (address, value) = resolve_two(alloc, address, value, places)?;
            Ok(Stmt::StoreWords(address, value))
        }
        StmtKind::StoreByte(address, value) => {
            let (address, value) = resolve_two(alloc, address, value, places)?;
            Ok(Stmt::StoreByte(address, value))
        }
        StmtKind::If(condition, then_do, else_do) => {
            let condition = resolve_expr(alloc, condition, places)?;
            let first = resolve_block(alloc, directory, then_do, places)?;
            let second = resolve_block(alloc, directory, else_do, places)?;
            Ok(Stmt::If(condition, first, second))
        }
        StmtKind::While(condition, body) => {
            let condition = resolve_expr(alloc, condition, places)?;
            let body = resolve_block(alloc, directory, body, places)?;
            Ok(Stmt::While(condition, body))
        }
        StmtKind::Break => Ok(Stmt::Break),
        StmtKind::Continue => Ok(Stmt::Continue),
        StmtKind::Call(call) => Ok(Stmt::Call(resolve_call(alloc, directory, call, places)?)),
        StmtKind::Return(value) => Ok(Stmt::Return(resolve_expr(alloc, value, places)?)),
        StmtKind::TailCall(name, args) => {
            let args = resolve_exprs(alloc, args.as_slice(), places)?;
            Ok(Stmt::TailCall(directory.function(name.as_bytes()), args))
        }
        StmtKind::Raise(name, value) => {
            let value = resolve_expr(alloc, value, places)?;
            Ok(Stmt::Raise(directory.exception(name.as_bytes()), value))
        }
        StmtKind::SharedLoad(size, name, address) => {
            let address = resolve_expr(alloc, address, places)?;
            let place = places.place(name.as_bytes());
            Ok(Stmt::SharedLoad(*size, place, address))
        }
        StmtKind::SharedStore(size, address, value) => {
            let (address, value) = resolve_two(alloc, address, value, places)?;
            Ok(Stmt::SharedStore(*size, address, value))
        }
        StmtKind::Foreign(name, config, config_len, array, array_len) => {
            let (config, config_len) = resolve_two(alloc, config, config_len, places)?;
            let (array, array_len) = resolve_two(alloc, array, array_len, places)?;
            let name = directory.foreign(name.as_bytes());
            Ok(Stmt::Foreign(name, config, config_len, array, array_len))
        }
    }
}

/// The call, with its names resolved. A new variable is declared.
#[cycle(resolve_stmt)]
fn resolve_call<'p>(
    alloc: Global,
    directory: &Directory<'_>,
    call: &'p SourceCall,
    places: &mut Places<'p>,
) -> Result<Call, NoMemory>
    ensures call { IfOk result (λ c. c ≡ resolved_call (call_resolving call.now) directory.now places.old) }
    ensures after { OnOk result (places.new ≡ after_target call.now.into places.old) }
{
    let function = directory.function(call.function.as_bytes());
    let args = resolve_exprs(alloc, call.args.as_slice(), places)?;
    let into = resolve_target(alloc, directory, &call.into, &call.function, places)?;
    let handler = resolve_handler(alloc, directory, &call.handler, places)?;
    Ok(CallOf {
        into,
        function,
        args,
        handler,
    })
}

/// What catches an exception, with its names resolved.
#[cycle(resolve_stmt)]
fn resolve_handler<'p>(
    alloc: Global,
    directory: &Directory<'_>,
    handler: &'p Option<SourceHandler>,
    places: &mut Places<'p>,
) -> Result<Option<Handler>, NoMemory>
    ensures handler { IfOk result (λ h. h ≡ resolved_handler (handler_resolving handler.now) directory.now places.old) }
    ensures kept { OnOk result (places.new ≡ places.old) }
{
    match handler {
        None => Ok(None),
        Some(handler) => {
            places.enter()?;
            places.declare(handler.name.as_bytes())?;
            let body = resolve_stmts(alloc, directory, handler.body.stmts.as_slice(), places)?;
            places.leave();
            Ok(Some(HandlerOf {
                exception: directory.exception(handler.exception.as_bytes()),
                body: Shared::new(alloc, body)?,
            }))
        }
    }
}

/// The block, with its names resolved.
#[cycle(resolve_stmt)]
fn resolve_block<'p>(
    alloc: Global,
    directory: &Directory<'_>,
    body: &'p SourceBlock,
    places: &mut Places<'p>,
) -> Result<Block, NoMemory>
    ensures body { IfOk result (λ b. b ≡ block [] (block_resolving body.now) directory.now places.old) }
    ensures kept { OnOk result (places.new ≡ places.old) }
{
    places.enter()?;
    let stmts = resolve_stmts(alloc, directory, body.stmts.as_slice(), places)?;
    places.leave();
    Ok(Shared::new(alloc, stmts)?)
}

/// Statements one after another, with their names resolved. New variables are declared.
#[cycle(resolve_stmt)]
pub fn resolve_stmts<'p>(
    alloc: Global,
    directory: &Directory<'_>,
    stmts: &'p [SourceStmt],
    places: &mut Places<'p>,
) -> Result<List<Stmt>, NoMemory>
    ensures stmts { IfOk result (λ ss. ss ≡ (resolved_stmts stmts.now directory.now places.old).0) }
    ensures after { OnOk result (places.new ≡ (resolved_stmts stmts.now directory.now places.old).1) }
{
    let mut all = List::new(alloc);
    for stmt in stmts {
        all.push(resolve_stmt(alloc, directory, stmt, places)?)?;
    }
    Ok(all)
}
