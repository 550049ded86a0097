//! Exceptions and functions, by name.

ghost use Rattle.std.specs.Prelude.{◌≡◌, ◌<◌, ◌-◌, ◌^◌, [], map, min, None, Some, length, slice_get, IfOk, MatchOption};
ghost use Rattle.std.specs.Option.{option_copied};
ghost use Rattle.pan_tree.specs.Check as check;
ghost use Rattle.pan_shapes.specs.Answers.{IsAnswer};
ghost use Rattle.pan_shapes.specs.HeadRules.{exception_head, head_repeats, head_is_wide, function_head, heads};

use crate::error::CheckError;
use crate::names::Names;
use crate::refusals::refuse;
use pan_base::NoMemory;
use pan_tree::{Exception, Function, Param, Program, Rule, Shape, count_words, words};
use std::alloc::Global;
use std::marker::Model;

/// The greatest number of words of a shape, or of the parameters of a function together.
const MAX_WORDS: u64 = 64;

/// The greatest number of exceptions.
const MAX_EXCEPTIONS: usize = 1024;

/// The greatest number of functions.
const MAX_FUNCTIONS: usize = 4096;

/// Whether the shape has more than 64 words.
fn is_wide(shape: &Shape) -> bool
    ensures { result ≡ check.is_wide shape.now }
{
    words(shape) > MAX_WORDS
}

/// Refuses an exception that breaks a rule, after exceptions of these names.
fn refuse_exception(exception: &Exception, before: &Names<'_>) -> Result<(), CheckError>
    ensures { IsAnswer (exception_head before.now exception.now) (λ _. Unit {0}) result }
{
    let is_known = before.contains(exception.name.as_bytes());
    let is_wide = is_wide(&exception.shape);
    let is_too_many = before.len() >= MAX_EXCEPTIONS;
    refuse(
        exception.span.start,
        &[
            (Rule::TwoNames, is_known),
            (Rule::ShapeTooWide, is_wide),
            (Rule::TooMany, is_too_many),
        ],
    )
}

/// The names of the exceptions, none of which breaks a rule.
pub fn exception_names<'p>(
    alloc: Global,
    exceptions: &'p [Exception],
) -> Result<Names<'p>, CheckError>
    ensures { IsAnswer (check.exception_heads [] exceptions.now) (λ names. names ≡ map (λ x. x.name) exceptions.now) result }
{
    let mut names = Names::new(alloc);
    for exception in exceptions {
        refuse_exception(exception, &names)?;
        names.add(exception.name.as_bytes())?;
    }
    Ok(names)
}

/// The number of words of the parameters, or 2^64 - 1 where that is less.
pub fn words_of_params(params: &[Param]) -> u64
    ensures { result ≡ min (check.parameter_words params.now) (2 ^ 64 - 1) }
{
    let mut total: u64 = 0;
    for param in params {
        total = total.saturating_add(count_words(&param.shape));
    }
    total
}

/// Whether two of the parameters have one name.
fn has_twins(alloc: Global, params: &[Param]) -> Result<bool, NoMemory>
    ensures { IfOk result (λ r. r ≡ check.repeats (map (λ p. p.name) params.now)) }
{
    let mut names = Names::new(alloc);
    for param in params {
        let name = param.name.as_bytes();
        if names.contains(name) {
            return Ok(true);
        }
        names.add(name)?;
    }
    Ok(false)
}

/// Whether the function has the name of one before it, or two of its parameters have one name.
fn repeats_name(alloc: Global, function: &Function, before: &Names<'_>) -> Result<bool, NoMemory>
    ensures { IfOk result (λ r. r ≡ head_repeats before.now function.now) }
{
    if before.contains(function.name.as_bytes()) {
        return Ok(true);
    }
    let has_twins = has_twins(alloc, function.params.as_slice())?;
    Ok(has_twins)
}

/// Whether the function's result, or its parameters together, have more than 64 words.
fn is_head_wide(function: &Function) -> bool
    ensures { result ≡ head_is_wide function.now }
{
    is_wide(&function.result) || words_of_params(function.params.as_slice()) > MAX_WORDS
}

/// Refuses a function whose head breaks a rule, after functions of these names.
fn refuse_head(alloc: Global, function: &Function, before: &Names<'_>) -> Result<(), CheckError>
    ensures { IsAnswer (function_head before.now function.now) (λ _. Unit {0}) result }
{
    let is_twin = repeats_name(alloc, function, before)?;
    let is_wide = is_head_wide(function);
    let is_too_many = before.len() >= MAX_FUNCTIONS;
    refuse(
        function.span.start,
        &[
            (Rule::TwoNames, is_twin),
            (Rule::ShapeTooWide, is_wide),
            (Rule::TooMany, is_too_many),
        ],
    )
}

/// The names of the functions, whose heads break no rule.
pub fn function_names<'p>(alloc: Global, functions: &'p [Function]) -> Result<Names<'p>, CheckError>
    ensures { IsAnswer (check.function_heads [] functions.now) (λ names. names ≡ map (λ f. f.name) functions.now) result }
{
    let mut names = Names::new(alloc);
    for function in functions {
        refuse_head(alloc, function, &names)?;
        names.add(function.name.as_bytes())?;
    }
    Ok(names)
}

/// A program whose heads break no rule, with its exceptions and functions by name.
#[derive(Drop)]
pub struct Heads<'p> {
    program: &'p Program,
    exceptions: Names<'p>,
    functions: Names<'p>,
}

impl<'p> Model for Heads<'p> {
    ghost use Rattle.std.specs.Prelude.{◌≡◌, map};
    ghost use Rattle.pan_tree.specs.declared.program.Program.{Program};
    ghost use Rattle.pan_tree.specs.declared.program.Exception.{Exception};
    ghost use Rattle.pan_tree.specs.declared.program.Function.{Function};

    ghost Value = { Program };

    ghost use Rattle.pan_tree.specs.contracts.shape.Shape as shape;
    ghost use Rattle.pan_tree.specs.contracts.syntax.ExprKind as expr_kind;
    ghost use Rattle.pan_tree.specs.contracts.syntax.StmtKind as stmt_kind;
    ghost use Rattle.std.specs.Coded.{codes};

    ghost coded = { Prim.hlevel (codes, shape.the_row.coded, expr_kind.the_row.coded, stmt_kind.the_row.coded) };

    ghost view = { λ h. h.program.now };

    ghost invariant = { λ h. (h.exceptions ≡ map (λ (x : Exception). x.name) (h.program.now).exceptions) × (h.functions ≡ map (λ (f : Function). f.name) (h.program.now).functions) };
}

impl<'p> Heads<'p> {
    /// The program, where its heads break no rule.
    pub fn of(alloc: Global, program: &'p Program) -> Result<Heads<'p>, CheckError>
        ensures { IsAnswer (heads program.now) (λ h. h ≡ program.now) result }
    {
        let exceptions = exception_names(alloc, program.exceptions.as_slice())?;
        let functions = function_names(alloc, program.functions.as_slice())?;
        Ok(Heads {
            program,
            exceptions,
            functions,
        })
    }

    /// The function of this name.
    pub fn function(&self, name: &[u8]) -> Option<&'p Function>
        ensures { option_copied result ≡ check.function_of name.now self.now }
    {
        match self.functions.position(name) {
            None => None,
            Some(i) => Some(&self.program.functions.as_slice()[i]),
        }
    }

    /// Where the function of this name stands.
    pub fn function_index(&self, name: &[u8]) -> Option<usize>
        ensures { MatchOption result (check.function_of name.now self.now ≡ None) (λ i. (check.function_of name.now self.now ≡ slice_get self.now.functions i) × (i < length self.now.functions)) }
    {
        self.functions.position(name)
    }

    /// The function at this index.
    pub fn at(&self, index: usize) -> &'p Function
        requires { index < length self.now.functions }
        ensures { Some result.now ≡ slice_get self.now.functions index }
    {
        &self.program.functions.as_slice()[index]
    }

    /// The exception of this name.
    pub fn exception(&self, name: &[u8]) -> Option<&'p Exception>
        ensures { option_copied result ≡ check.exception_of name.now self.now }
    {
        match self.exceptions.position(name) {
            None => None,
            Some(i) => Some(&self.program.exceptions.as_slice()[i]),
        }
    }
}
