//! Calls.

ghost use Rattle.std.specs.Prelude.{◌≡◌, ◌+◌, ◌-◌, ◌^◌, min, ◌&&◌, not, nat_eq, nat_lt, length, map, sum, option_map, false, IfOk, OnOk};
ghost use Rattle.std.specs.Option.{option_copied};
ghost use Rattle.pan_tree.specs.declared.syntax.StmtKind.TheOpen as stmt;
ghost use Rattle.pan_tree.specs.Shapes.{words_of};
ghost use Rattle.pan_tree.specs.Check as check;
ghost use Rattle.pan_tree.specs.declared.program.Function.{Function};
ghost use Rattle.pan_shapes.specs.Answers.{IsAnswer};
ghost use Rattle.pan_shapes.specs.Doings.{Does, IsDone, call_alone, context, state};
ghost use Rattle.pan_shapes.specs.Arguments.{differing, counted, misshapen, call_breaks, tail_breaks};

use crate::error::CheckError;
use crate::judging::{Judged, judge_all};
use crate::refusals::refuse;
use crate::scopes::Scopes;
use crate::statements::{STMT_WEIGHT, is_other, words_of_known};
use crate::walking::{Around, Walk};
use pan_base::{NoMemory, Text};
use pan_tree::{Call, Expr, Function, Param, Rule, Shape, Target, copy_shape, same, words};
use std::alloc::Global;

/// What the arguments weigh together, or 2^64 - 1 where that is less.
fn weight_of_all(args: &[Judged]) -> u64
    ensures { result ≡ min (sum (map (λ j. j.weight) args.now)) (2 ^ 64 - 1) }
{
    let mut total: u64 = 0;
    for arg in args {
        total = total.saturating_add(arg.weight);
    }
    total
}

/// Whether an argument has another shape than its parameter, of as many.
fn differ(params: &[Param], args: &[Judged]) -> bool
    requires { length params.now ≡ length args.now }
    ensures { result ≡ differing params.now (map (λ j. j.shape) args.now) }
{
    for i in 0..params.len() {
        if !same(&params[i].shape, &args[i].shape) {
            return true;
        }
    }
    false
}

/// Whether the function, where it is known, has another number of parameters.
fn wrong_count(function: Option<&Function>, args: &[Judged]) -> bool
    ensures { result ≡ counted (option_copied function.entry) (map (λ j. j.shape) args.now) }
{
    match function {
        None => false,
        Some(function) => function.params.len() != args.len(),
    }
}

/// Whether the function, where it is known, has as many parameters, and one of another shape than its argument.
fn wrong_shape(function: Option<&Function>, args: &[Judged]) -> bool
    ensures { result ≡ misshapen (option_copied function.entry) (map (λ j. j.shape) args.now) }
{
    match function {
        None => false,
        Some(function) => {
            function.params.len() == args.len() && differ(function.params.as_slice(), args)
        }
    }
}

/// The shape of the function's result, where it is known.
fn shape_of_result<'a>(function: Option<&'a Function>) -> Option<&'a Shape>
    ensures { option_copied result ≡ option_map (λ (g : Function). g.result) (option_copied function.entry) }
{
    match function {
        None => None,
        Some(function) => Some(&function.result),
    }
}

/// Whether the target declares a variable that the block has.
fn is_new_twice(into: &Target, scopes: &Scopes<'_>) -> bool
    ensures { result ≡ check.is_new_twice into.now scopes.now }
{
    match into {
        Target::New(name) => scopes.is_declared(name.as_bytes()),
        Target::Nothing | Target::Old(_) => false,
    }
}

/// Whether the target is a variable that isn't known.
fn is_old_unknown(into: &Target, scopes: &Scopes<'_>) -> bool
    ensures { result ≡ check.is_old_unknown into.now scopes.now }
{
    match into {
        Target::Old(name) => scopes.shape(name.as_bytes()).is_none(),
        Target::Nothing | Target::New(_) => false,
    }
}

/// Whether the target is a variable of another shape than the function's result.
fn is_old_other(into: &Target, function: Option<&Function>, scopes: &Scopes<'_>) -> bool
    ensures { result ≡ check.is_old_other into.now (option_copied function.entry) scopes.now }
{
    match into {
        Target::Nothing | Target::New(_) => false,
        Target::Old(name) => match function {
            None => false,
            Some(function) => is_other(scopes.shape(name.as_bytes()), &function.result),
        },
    }
}

/// The number of words that the target takes of a result of this shape, where an unknown function or variable counts as
/// a word, or 2^64 - 1 where that is less.
fn words_of_target(into: &Target, shape: Option<&Shape>, scopes: &Scopes<'_>) -> u64
    ensures { result ≡ min (check.target_words into.now (check.or_word (option_copied shape.entry)) scopes.now) (2 ^ 64 - 1) }
{
    match into {
        Target::Nothing => 0,
        Target::Old(name) => words_of_known(scopes.shape(name.as_bytes())),
        Target::New(_) => words_of_known(shape),
    }
}

/// A copy of the shape, where an unknown one counts as a word.
pub fn copy_of_known(alloc: Global, known: Option<&Shape>) -> Result<Shape, NoMemory>
    ensures { IfOk result (λ s. s ≡ check.or_word (option_copied known.entry)) }
{
    match known {
        None => Ok(Shape::Word),
        Some(shape) => copy_shape(alloc, shape),
    }
}

/// Declares the variable that the target declares, if it does, with the shape of the function's result.
fn declare_target<'p>(
    alloc: Global,
    into: &'p Target,
    shape: Option<&Shape>,
    scopes: &mut Scopes<'p>,
) -> Result<(), NoMemory>
    requires { check.is_new_twice into.now scopes.old ≡ false }
    ensures { OnOk result (scopes.new ≡ check.after_target into.now (check.or_word (option_copied shape.entry)) scopes.old) }
{
    match into {
        Target::Nothing | Target::Old(_) => Ok(()),
        Target::New(name) => {
            let shape = copy_of_known(alloc, shape)?;
            scopes.declare(name.as_bytes(), shape)?;
            Ok(())
        }
    }
}

/// Refuses a call that breaks a rule, but for those of its arguments and of its handler's block.
fn refuse_call(
    place: u32,
    into: &Target,
    function: Option<&Function>,
    args: &[Judged],
    no_exception: bool,
    scopes: &Scopes<'_>,
) -> Result<(), CheckError>
    ensures { IsAnswer (call_breaks place into.now (option_copied function.entry) (map (λ j. j.shape) args.now) no_exception scopes.now) (λ _. Unit {0}) result }
{
    let is_twice = is_new_twice(into, scopes);
    let is_unknown = is_old_unknown(into, scopes);
    let no_function = function.is_none();
    let is_wrong = wrong_shape(function, args) || is_old_other(into, function, scopes);
    let is_miscounted = wrong_count(function, args);
    refuse(
        place,
        &[
            (Rule::TwoNames, is_twice),
            (Rule::UnknownName, is_unknown),
            (Rule::UnknownFunction, no_function),
            (Rule::UnknownException, no_exception),
            (Rule::WrongShape, is_wrong),
            (Rule::WrongCount, is_miscounted),
        ],
    )
}

/// Calls a function. The handler's block comes after.
pub fn check_call_alone<'p>(
    around: &Around<'_>,
    place: u32,
    call: &'p Call,
    no_exception: bool,
    walk: &mut Walk<'p>,
) -> Result<u64, CheckError>
    ensures { IsDone (call_alone call.now.into call.now.function call.now.args no_exception (context around.now) place (state walk.old)) walk.new result }
{
    let args = judge_all(around.alloc, call.args.as_slice(), &walk.scopes)?;
    let args = args.as_slice();
    let function = around.heads.function(call.function.as_bytes());
    refuse_call(
        place,
        &call.into,
        function,
        args,
        no_exception,
        &walk.scopes,
    )?;
    let shape = shape_of_result(function);
    let weight = STMT_WEIGHT
        .saturating_add(weight_of_all(args))
        .saturating_add(words_of_target(&call.into, shape, &walk.scopes))
        .saturating_add(words_of_known(shape));
    declare_target(around.alloc, &call.into, shape, &mut walk.scopes)?;
    Ok(weight)
}

/// Refuses a call whose result the function returns, where it breaks a rule, but for those of its arguments.
fn refuse_tail_call(
    place: u32,
    function: Option<&Function>,
    args: &[Judged],
    result_shape: &Shape,
) -> Result<(), CheckError>
    ensures { IsAnswer (tail_breaks place (option_copied function.entry) (map (λ j. j.shape) args.now) result_shape.now) (λ _. Unit {0}) result }
{
    let no_function = function.is_none();
    let is_wrong = wrong_shape(function, args) || is_other(shape_of_result(function), result_shape);
    let is_miscounted = wrong_count(function, args);
    refuse(
        place,
        &[
            (Rule::UnknownFunction, no_function),
            (Rule::WrongShape, is_wrong),
            (Rule::WrongCount, is_miscounted),
        ],
    )
}

/// Leaves the function with the result of a call.
pub fn check_tail_call(
    around: &Around<'_>,
    place: u32,
    name: &Text,
    args: &[Expr],
    walk: &Walk<'_>,
) -> Result<u64, CheckError>
    ensures { Does (stmt.TailCall name.now args.now) around.now place walk.now walk.now result }
{
    let args = judge_all(around.alloc, args, &walk.scopes)?;
    let args = args.as_slice();
    let function = around.heads.function(name.as_bytes());
    refuse_tail_call(place, function, args, around.result)?;
    Ok(
        STMT_WEIGHT
            .saturating_add(weight_of_all(args))
            .saturating_add(words_of_known(shape_of_result(function))),
    )
}
