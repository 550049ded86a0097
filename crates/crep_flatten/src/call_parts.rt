//! What calls and handlers are made of, but for the statements of their blocks.

ghost use Rattle.std.specs.Prelude.{◌≡◌, [], ◌∷◌, ◌++◌, true, map, IfOk, OnOk};
ghost use Rattle.std.specs.List.{list_all};
ghost use Rattle.pan_stage.specs.Locals as locals;
ghost use Rattle.pan_tree.specs.Shapes.{words_of};
ghost use Rattle.pan_tree.specs.Check.{function_of, result_of, exception_of};
ghost use Rattle.pan_tree.specs.Meaning.{function_index, exception_index};
ghost use Rattle.check_soundness.specs.Spread.{spread};
ghost use Rattle.crep_lang.specs.declared.syntax.Stmt.TheVariants as stmt;
ghost use Rattle.crep_flatten.specs.Flat.{count, flat};
ghost use Rattle.crep_flatten.specs.Rows as rows_of;
ghost use Rattle.crep_flatten.specs.Flattened as flattened;
ghost use Rattle.crep_flatten.specs.Literals.{fits};

use crate::plain::{behind, settled_args};
use crate::scopes::Scopes;
use crate::shaping::size;
use crate::targets::{
    cleared, declare_target, exception_shape, number_of, numbers_from, result_shape,
    result_variables,
};
use crep_lang::{Expr, Stmt};
use pan_base::{Boxed, List, NoMemory};
use pan_stage::Handler;
use pan_tree::{Call, Handler as SourceHandler};
use source_resolver::Directory;
use std::alloc::Global;

/// A call but for its handler: the statements before it, the variables that get its result, its function and its arguments.
#[derive(Drop)]
pub struct CallHead {
    pub before: List<Stmt>,
    pub results: List<u32>,
    pub function: u32,
    pub args: List<Expr>,
}

/// The call but for its handler.
pub fn call_head(
    alloc: Global,
    directory: &Directory<'_>,
    call: &Call,
    here: &Scopes<'_>,
) -> Result<CallHead, NoMemory>
    ensures before { IfOk result (λ h. h.before ≡ (rows_of.settle (flattened.rows_of (map (λ v. flat v here.now) call.now.args)) (count here.now)).before) }
    ensures results { IfOk result (λ h. h.results ≡ flattened.results call.now.into (spread (result_of (function_of call.now.function directory.now))) here.now) }
    ensures function { IfOk result (λ h. h.function ≡ flattened.numbered (function_index call.now.function directory.now)) }
    ensures args { IfOk result (λ h. h.args ≡ (rows_of.settle (flattened.rows_of (map (λ v. flat v here.now) call.now.args)) (count here.now)).words) }
    ensures fits { IfOk result (λ _. list_all fits call.now.args ≡ true) }
{
    let function = number_of(directory.function(call.function.as_bytes()))?;
    let args = settled_args(alloc, call.args.as_slice(), here)?;
    let shape = result_shape(alloc, directory, call.function.as_bytes())?;
    let results = result_variables(alloc, &call.into, &shape, here)?;
    Ok(CallHead {
        before: args.before,
        results,
        function,
        args: args.words,
    })
}

/// The call with its handler, behind what comes before it.
pub fn called(head: CallHead, handler: Option<Handler<Boxed<Stmt>>>) -> Result<Stmt, NoMemory>
    ensures { IfOk result (λ s. s ≡ stmt.Seq (head.before ++ stmt.Call head.results head.function head.args handler ∷ [])) }
{
    let call = Stmt::Call {
        results: head.results,
        function: head.function,
        args: head.args,
        handler,
    };
    behind(head.before, call)
}

/// Declares the variable that a call declares.
pub fn declare_result<'p>(
    alloc: Global,
    directory: &Directory<'_>,
    call: &'p Call,
    here: &mut Scopes<'p>,
) -> Result<(), NoMemory>
    ensures { OnOk result (here.new ≡ flattened.after_target call.now.into (spread (result_of (function_of call.now.function directory.now))) here.old) }
{
    let shape = result_shape(alloc, directory, call.function.as_bytes())?;
    declare_target(&call.into, shape, here)
}

/// Declares the variable that a call declares. What its handler begins with: that variable's words are 0.
pub fn declare_cleared<'p>(
    alloc: Global,
    directory: &Directory<'_>,
    call: &'p Call,
    here: &mut Scopes<'p>,
) -> Result<List<Stmt>, NoMemory>
    ensures stmts { IfOk result (λ ss. ss ≡ flattened.cleared call.now.into (spread (result_of (function_of call.now.function directory.now))) here.old) }
    ensures after { OnOk result (here.new ≡ flattened.after_target call.now.into (spread (result_of (function_of call.now.function directory.now))) here.old) }
{
    let shape = result_shape(alloc, directory, call.function.as_bytes())?;
    let stmts = cleared(alloc, &call.into, &shape, here)?;
    declare_target(&call.into, shape, here)?;
    Ok(stmts)
}

/// The exception that a handler catches, and the variables that get its words.
#[derive(Drop)]
pub struct Catch {
    pub exception: u32,
    pub variables: List<u32>,
}

/// Opens the block of a handler, which begins with a variable for the exception's value.
#[tactic(auto, using(crate::proofs::FlatStmts::opened_with))]
pub fn open_handler<'p>(
    alloc: Global,
    directory: &Directory<'_>,
    handler: &'p SourceHandler,
    here: &mut Scopes<'p>,
) -> Result<Catch, NoMemory>
    ensures exception { IfOk result (λ c. c.exception ≡ flattened.numbered (exception_index handler.now.exception directory.now)) }
    ensures variables { IfOk result (λ c. c.variables ≡ locals.numbers_from (count here.old) (words_of (flattened.exception_shape (exception_of handler.now.exception directory.now)))) }
    ensures opened { OnOk result (here.new ≡ ((handler.now.name, flattened.new_place (flattened.exception_shape (exception_of handler.now.exception directory.now)) here.old) ∷ []) ∷ here.old) }
{
    let exception = number_of(directory.exception(handler.exception.as_bytes()))?;
    let shape = exception_shape(alloc, directory, handler.exception.as_bytes())?;
    let variables = numbers_from(alloc, here.count(), size(&shape)?)?;
    here.enter()?;
    here.declare(handler.name.as_bytes(), shape)?;
    Ok(Catch {
        exception,
        variables,
    })
}

/// The handler: what it begins with, and the statements of its block.
pub fn caught(
    alloc: Global,
    catch: Catch,
    before: List<Stmt>,
    stmts: List<Stmt>,
) -> Result<Handler<Boxed<Stmt>>, NoMemory>
    ensures { IfOk result (λ h. h ≡ record { exception = catch.exception; variables = catch.variables; body = stmt.Seq (before ++ stmts) }) }
{
    let mut all = before;
    all.append(stmts)?;
    Ok(Handler {
        exception: catch.exception,
        variables: catch.variables,
        body: Boxed::new(alloc, Stmt::Seq(all))?,
    })
}
