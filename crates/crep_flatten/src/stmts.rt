//! Statements in words.

ghost use Rattle.std.specs.Prelude.{◌≡◌, [], true, map, IfOk, OnOk};
ghost use Rattle.std.specs.List.{list_all};
ghost use Rattle.pan_tree.specs.Check.{function_of, result_of};
ghost use Rattle.pan_tree.specs.declared.spanned.Spanned.{Spanned};
ghost use Rattle.pan_tree.specs.declared.syntax.StmtKind.{StmtKind};
ghost use Rattle.pan_tree.specs.declared.syntax.StmtKind.TheVariants as source;
ghost use Rattle.check_soundness.specs.Spread.{spread};
ghost use Rattle.crep_lang.specs.declared.syntax.Stmt.TheVariants as stmt;
ghost use Rattle.crep_flatten.specs.Flattened as flattened;
ghost use Rattle.crep_flatten.specs.Flattened.{flat_all, flattening};
ghost use Rattle.crep_flatten.specs.Literals.{stmt_fits, stmts_fit, caught_fits};

use crate::call_parts::{call_head, called, caught, declare_cleared, declare_result, open_handler};
use crate::exprs::flatten_word;
use crate::plain::{
    flatten_assign, flatten_decl, flatten_foreign, flatten_raise, flatten_return,
    flatten_shared_load, flatten_shared_store, flatten_store_byte, flatten_store_words,
    flatten_tail_call,
};
use crate::scopes::Scopes;
use crate::targets::number_of;
use crep_lang::{Expr, Stmt};
use pan_base::{Boxed, List, NoMemory};
use pan_stage::Handler;
use pan_tree::{Block, Call, Handler as SourceHandler, Stmt as SourceStmt, StmtKind as Kind};
use source_resolver::Directory;
use std::alloc::Global;

/// The first where the word isn't 0, else the second.
fn choice(alloc: Global, test: Expr, first: Stmt, second: Stmt) -> Result<Stmt, NoMemory>
    ensures { IfOk result (λ s. s ≡ stmt.If test first second) }
{
    Ok(Stmt::If(test, Boxed::new(alloc, first)?, Boxed::new(alloc, second)?))
}

/// The body, over and over, as long as the word isn't 0.
fn repeated(alloc: Global, test: Expr, body: Stmt) -> Result<Stmt, NoMemory>
    ensures { IfOk result (λ s. s ≡ stmt.While [] test body) }
{
    Ok(Stmt::While {
        before: List::new(alloc),
        test,
        body: Boxed::new(alloc, body)?,
    })
}

/// A statement in words. A new variable is declared.
#[cycle(flatten_stmt)]
#[tactic(auto, using(crate::proofs::FlatStmts::stmt_rules))]
fn flatten_stmt<'p>(
    alloc: Global,
    directory: &Directory<'_>,
    stmt: &'p SourceStmt,
    here: &mut Scopes<'p>,
) -> Result<Stmt, NoMemory>
    ensures stmt { IfOk result (λ s. s ≡ (flattened.flat_stmt stmt.now.kind directory.now here.old).0) }
    ensures after { OnOk result (here.new ≡ (flattened.flat_stmt stmt.now.kind directory.now here.old).1) }
    ensures fits { IfOk result (λ _. stmt_fits stmt.now.kind ≡ true) }
{
    match &stmt.kind {
        Kind::Skip => Ok(Stmt::Skip),
        Kind::Decl(name, value) => flatten_decl(alloc, name.as_bytes(), value, here),
        Kind::Assign(name, value) => flatten_assign(alloc, name.as_bytes(), value, here),
        Kind::StoreWords(address, value) => flatten_store_words(alloc, address, value, here),
        Kind::StoreByte(address, value) => flatten_store_byte(alloc, address, value, here),
        Kind::If(test, then_do, else_do) => {
            let test = flatten_word(alloc, test, here)?;
            let first = flatten_block(alloc, directory, then_do, here)?;
            let second = flatten_block(alloc, directory, else_do, here)?;
            choice(alloc, test, first, second)
        }
        Kind::While(test, body) => {
            let test = flatten_word(alloc, test, here)?;
            let body = flatten_block(alloc, directory, body, here)?;
            repeated(alloc, test, body)
        }
        Kind::Break => Ok(Stmt::Break),
        Kind::Continue => Ok(Stmt::Continue),
        Kind::Call(call) => flatten_call(alloc, directory, call, here),
        Kind::Return(value) => flatten_return(alloc, value, here),
        Kind::TailCall(name, args) => {
            flatten_tail_call(alloc, directory, name.as_bytes(), args.as_slice(), here)
        }
        Kind::Raise(name, value) => {
            flatten_raise(alloc, directory, name.as_bytes(), value, here)
        }
        Kind::SharedLoad(size, name, address) => {
            flatten_shared_load(alloc, *size, name.as_bytes(), address, here)
        }
        Kind::SharedStore(size, address, value) => {
            flatten_shared_store(alloc, *size, address, value, here)
        }
        Kind::Foreign(name, config, config_len, array, array_len) => {
            let name = number_of(directory.foreign(name.as_bytes()))?;
            flatten_foreign(alloc, name, config, config_len, array, array_len, here)
        }
    }
}

/// A call in words. A new variable is declared.
#[cycle(flatten_stmt)]
fn flatten_call<'p>(
    alloc: Global,
    directory: &Directory<'_>,
    call: &'p Call,
    here: &mut Scopes<'p>,
) -> Result<Stmt, NoMemory>
    ensures stmt { IfOk result (λ s. s ≡ (flattened.flat_stmt (source.Call call.now) directory.now here.old).0) }
    ensures after { OnOk result (here.new ≡ (flattened.flat_stmt (source.Call call.now) directory.now here.old).1) }
    ensures fits { IfOk result (λ _. stmt_fits (source.Call call.now) ≡ true) }
{
    let head = call_head(alloc, directory, call, here)?;
    let handler = flatten_caught(alloc, directory, call, here)?;
    let call = called(head, handler)?;
    Ok(call)
}

/// What catches an exception of a call, in words. A new variable is declared.
#[cycle(flatten_stmt)]
fn flatten_caught<'p>(
    alloc: Global,
    directory: &Directory<'_>,
    call: &'p Call,
    here: &mut Scopes<'p>,
) -> Result<Option<Handler<Boxed<Stmt>>>, NoMemory>
    ensures handler { IfOk result (λ h. let s = spread (result_of (function_of call.now.function directory.now)) in h ≡ flattened.handler (flattened.handler_flattening call.now.handler) (flattened.cleared call.now.into s here.old) directory.now (flattened.after_target call.now.into s here.old)) }
    ensures after { OnOk result (here.new ≡ flattened.after_target call.now.into (spread (result_of (function_of call.now.function directory.now))) here.old) }
    ensures fits { IfOk result (λ _. caught_fits call.now.handler ≡ true) }
{
    match &call.handler {
        None => {
            declare_result(alloc, directory, call, here)?;
            Ok(None)
        }
        Some(handler) => {
            let before = declare_cleared(alloc, directory, call, here)?;
            let handler = flatten_handler(alloc, directory, handler, before, here)?;
            Ok(Some(handler))
        }
    }
}

/// A handler in words, before whose block these statements stand.
#[cycle(flatten_stmt)]
fn flatten_handler<'p>(
    alloc: Global,
    directory: &Directory<'_>,
    handler: &'p SourceHandler,
    before: List<Stmt>,
    here: &mut Scopes<'p>,
) -> Result<Handler<Boxed<Stmt>>, NoMemory>
    ensures handler { IfOk result (λ h. h ≡ flattened.caught (flattened.caught_flattening handler.now) before directory.now here.old) }
    ensures kept { OnOk result (here.new ≡ here.old) }
    ensures fits { IfOk result (λ _. stmts_fit ((handler.now).body).stmts ≡ true) }
{
    let catch = open_handler(alloc, directory, handler, here)?;
    let stmts = flatten_stmts(alloc, directory, handler.body.stmts.as_slice(), here)?;
    here.leave();
    let handler = caught(alloc, catch, before, stmts)?;
    Ok(handler)
}

/// A block in words.
#[cycle(flatten_stmt)]
fn flatten_block<'p>(
    alloc: Global,
    directory: &Directory<'_>,
    body: &'p Block,
    here: &mut Scopes<'p>,
) -> Result<Stmt, NoMemory>
    ensures body { IfOk result (λ s. s ≡ flattened.block [] [] (flattened.block_flattening body.now) directory.now here.old) }
    ensures kept { OnOk result (here.new ≡ here.old) }
    ensures fits { IfOk result (λ _. stmts_fit body.now.stmts ≡ true) }
{
    here.enter()?;
    let stmts = flatten_stmts(alloc, directory, body.stmts.as_slice(), here)?;
    here.leave();
    Ok(Stmt::Seq(stmts))
}

/// Statements one after another, in words. New variables are declared.
#[cycle(flatten_stmt)]
pub fn flatten_stmts<'p>(
    alloc: Global,
    directory: &Directory<'_>,
    stmts: &'p [SourceStmt],
    here: &mut Scopes<'p>,
) -> Result<List<Stmt>, NoMemory>
    ensures stmts { IfOk result (λ ss. ss ≡ (flat_all (map flattening stmts.now) directory.now here.old).0) }
    ensures after { OnOk result (here.new ≡ (flat_all (map flattening stmts.now) directory.now here.old).1) }
    ensures fits { IfOk result (λ _. list_all (λ (x : Spanned StmtKind). stmt_fits x.kind) stmts.now ≡ true) }
{
    let mut all = List::new(alloc);
    for stmt in stmts {
        all.push(flatten_stmt(alloc, directory, stmt, here)?)?;
    }
    Ok(all)
}
