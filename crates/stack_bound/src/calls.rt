//! What each function calls.

ghost use Rattle.std.specs.Prelude.{◌≡◌, ◌++◌, ◌∷◌, [], map, IfOk, OnOk};
ghost use Rattle.std.specs.List.{flat_map};
ghost use Rattle.stack_bound.specs.Calls.{calls_in, calls_in_handler};
ghost use Rattle.stack_bound.specs.Nodes.{node_of};

use pan_base::{Boxed, List, NoMemory};
use stack_lang::{Catch, StackFun, Stmt};
use std::alloc::Global;

/// A call of a function.
#[derive(Clone, Copy, Drop)]
pub struct Call {
    pub function: u32,
    /// The caller's frame is given up before.
    pub tail: bool,
}

/// A function as the stack sees it.
#[derive(Drop)]
pub struct Node {
    /// The bytes of its frame.
    pub frame: u64,
    /// Its calls, in the order of the text.
    pub calls: List<Call>,
}

/// Puts one call at the end.
fn put_call(calls: &mut List<Call>, function: u32, tail: bool) -> Result<(), NoMemory>
    ensures { OnOk result (calls.new ≡ calls.old ++ record { function = function; tail = tail } ∷ []) }
{
    calls.push(Call { function, tail })?;
    Ok(())
}

/// Puts the calls of a statement at the end, in the order of the text.
#[cycle(calls)]
#[tactic(auto, using(crate::proofs::Rules::calls_rules))]
fn put_calls(calls: &mut List<Call>, stmt: &Stmt) -> Result<(), NoMemory>
    ensures { OnOk result (calls.new ≡ calls.old ++ calls_in stmt.now) }
{
    match stmt {
        Stmt::Seq(all) => put_calls_of(calls, all.as_slice()),
        Stmt::If(_, _, _, first, second) => {
            put_calls(calls, first.get())?;
            put_calls(calls, second.get())
        }
        Stmt::While { before, body, .. } => {
            put_calls_of(calls, before.as_slice())?;
            put_calls(calls, body.get())
        }
        Stmt::Call {
            function,
            returned,
            handler,
        } => {
            put_call(calls, *function, false)?;
            put_calls(calls, returned.get())?;
            put_calls_of_handler(calls, handler)
        }
        Stmt::TailCall(function) => put_call(calls, *function, true),
        Stmt::Plain(_) | Stmt::Get(..) | Stmt::Put(..) | Stmt::SharedLoad { .. } => Ok(()),
        Stmt::SharedStore { .. } | Stmt::Foreign(_) | Stmt::Break | Stmt::Continue => Ok(()),
        Stmt::Return | Stmt::Raise(_) => Ok(()),
    }
}

/// The same of statements one after another.
#[cycle(calls)]
#[tactic(auto, using(crate::proofs::Rules::calls_rules))]
fn put_calls_of(calls: &mut List<Call>, stmts: &[Stmt]) -> Result<(), NoMemory>
    ensures { OnOk result (calls.new ≡ calls.old ++ flat_map calls_in stmts.now) }
{
    for stmt in stmts {
        put_calls(calls, stmt)?;
    }
    Ok(())
}

/// The same of a handler.
#[cycle(calls)]
#[tactic(auto, using(crate::proofs::Rules::calls_rules))]
fn put_calls_of_handler(
    calls: &mut List<Call>,
    handler: &Option<Catch<Boxed<Stmt>>>,
) -> Result<(), NoMemory>
    ensures { OnOk result (calls.new ≡ calls.old ++ calls_in_handler handler.now) }
{
    match handler {
        None => Ok(()),
        Some(handler) => put_calls(calls, handler.body.get()),
    }
}

/// A function's frame and calls.
fn node_of(alloc: Global, function: &StackFun) -> Result<Node, NoMemory>
    ensures { IfOk result (λ node. node ≡ node_of function.now) }
{
    let mut calls = List::new(alloc);
    put_calls(&mut calls, &function.body)?;
    Ok(Node {
        frame: function.frame,
        calls,
    })
}

/// The frames and calls of functions. `NoMemory` is the one error.
pub fn nodes(alloc: Global, functions: &[StackFun]) -> Result<List<Node>, NoMemory>
    ensures { IfOk result (λ nodes. nodes ≡ map node_of functions.now) }
{
    let mut nodes = List::new(alloc);
    for function in functions {
        nodes.push(node_of(alloc, function)?)?;
    }
    Ok(nodes)
}
