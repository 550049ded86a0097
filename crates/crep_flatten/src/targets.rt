//! The variables that get the results of calls, and the numbers of what is named.

ghost use Rattle.std.specs.Prelude.{◌≡◌, replicate, IfOk, OnOk};
ghost use Rattle.pan_stage.specs.Locals as locals;
ghost use Rattle.pan_tree.specs.Scopes.{innermost};
ghost use Rattle.pan_tree.specs.Check.{function_of, result_of, exception_of};
ghost use Rattle.check_soundness.specs.Spread as spreading;
ghost use Rattle.crep_lang.specs.declared.syntax.Expr.TheVariants as e;
ghost use Rattle.crep_flatten.specs.Flattened as flattened;

use crate::moving::next_after;
use crate::scopes::Scopes;
use crate::shaping::{size, spread};
use crep_lang::{Expr, Stmt};
use pan_base::{List, NoMemory};
use pan_tree::{Shape, Target};
use source_resolver::Directory;
use std::alloc::Global;

/// The number that was found, or 0: a checked program has every name. `NoMemory` also stands for 2^32 or more.
pub fn number_of(found: Option<usize>) -> Result<u32, NoMemory>
    ensures { IfOk result (λ n. n ≡ flattened.numbered found) }
{
    let Some(number) = found else {
        return Ok(0);
    };
    match u32::try_from(number) {
        Ok(number) => Ok(number),
        Err(_) => Err(NoMemory),
    }
}

/// The first of a variable's words, or 0: a checked program has every name.
pub fn first_word_of(name: &[u8], here: &Scopes<'_>) -> u32
    ensures { result ≡ (flattened.place_at (innermost name.now here.now)).first }
{
    match here.place(name) {
        Some(place) => place.first,
        None => 0,
    }
}

/// The numbers from a first one on, so many.
pub fn numbers_from(alloc: Global, first: u32, count: u32) -> Result<List<u32>, NoMemory>
    ensures { IfOk result (λ xs. xs ≡ locals.numbers_from first count) }
{
    let mut numbers = List::new(alloc);
    let mut number = first;
    let mut left = count;
    while left > 0 {
        numbers.push(number)?;
        number = next_after(number)?;
        left -= 1;
    }
    Ok(numbers)
}

/// The shape of a function's result, with a group of words for each struct of words.
#[tactic(auto, using(crate::proofs::SpreadRules::spread_rules))]
pub fn result_shape(
    alloc: Global,
    directory: &Directory<'_>,
    function: &[u8],
) -> Result<Shape, NoMemory>
    ensures { IfOk result (λ s. s ≡ spreading.spread (result_of (function_of function.now directory.now))) }
{
    match directory.function_named(function) {
        Some(function) => spread(alloc, &function.result),
        None => Ok(Shape::Word),
    }
}

/// The shape of an exception's value, with a group of words for each struct of words.
pub fn exception_shape(
    alloc: Global,
    directory: &Directory<'_>,
    exception: &[u8],
) -> Result<Shape, NoMemory>
    ensures { IfOk result (λ s. s ≡ flattened.exception_shape (exception_of exception.now directory.now)) }
{
    match directory.exception_named(exception) {
        Some(exception) => spread(alloc, &exception.shape),
        None => Ok(Shape::Word),
    }
}

/// The variables that get the words of a result of this shape.
pub fn result_variables(
    alloc: Global,
    into: &Target,
    shape: &Shape,
    here: &Scopes<'_>,
) -> Result<List<u32>, NoMemory>
    ensures { IfOk result (λ xs. xs ≡ flattened.results into.now shape.now here.now) }
{
    match into {
        Target::Nothing => Ok(List::new(alloc)),
        Target::Old(name) => {
            numbers_from(alloc, first_word_of(name.as_bytes(), here), size(shape)?)
        }
        Target::New(_) => numbers_from(alloc, here.count(), size(shape)?),
    }
}

/// So many variables from a first one on become 0.
fn zeros(alloc: Global, first: u32, count: u32) -> Result<List<Stmt>, NoMemory>
    ensures { IfOk result (λ ss. ss ≡ flattened.assign_row first (replicate count (e.Num 0))) }
{
    let mut stmts = List::new(alloc);
    let mut variable = first;
    let mut left = count;
    while left > 0 {
        stmts.push(Stmt::Assign(variable, Expr::Num(0)))?;
        variable = next_after(variable)?;
        left -= 1;
    }
    Ok(stmts)
}

/// What a handler begins with: a variable that the call declares has all words 0.
pub fn cleared(
    alloc: Global,
    into: &Target,
    shape: &Shape,
    here: &Scopes<'_>,
) -> Result<List<Stmt>, NoMemory>
    ensures { IfOk result (λ ss. ss ≡ flattened.cleared into.now shape.now here.now) }
{
    match into {
        Target::New(_) => zeros(alloc, here.count(), size(shape)?),
        Target::Nothing | Target::Old(_) => Ok(List::new(alloc)),
    }
}

/// Declares the variable that a call declares.
pub fn declare_target<'p>(
    into: &'p Target,
    shape: Shape,
    here: &mut Scopes<'p>,
) -> Result<(), NoMemory>
    ensures { OnOk result (here.new ≡ flattened.after_target into.now shape here.old) }
{
    match into {
        Target::New(name) => here.declare(name.as_bytes(), shape),
        Target::Nothing | Target::Old(_) => Ok(()),
    }
}
