//! Bodies of functions.

ghost use Rattle.std.specs.Prelude.{◌≡◌, ◌-◌, ◌^◌, false, [], ◌∷◌, map, min, OnOk};
ghost use Rattle.pan_tree.specs.Check.{parameters, repeats, body, bodies, function_heads, names_after, function_weight};
ghost use Rattle.pan_shapes.specs.Answers.{IsAnswer};
ghost use Rattle.pan_shapes.specs.Doings.{IsDone};
ghost use Rattle.pan_shapes.specs.Weights.{are_weights, body_breaks, IsFunctionDone};

use crate::blocks::check_stmts;
use crate::closing::closes;
use crate::error::CheckError;
use crate::heads::{Heads, words_of_params};
use crate::names::Names;
use crate::refusals::refuse;
use crate::scopes::Scopes;
use crate::statements::STMT_WEIGHT;
use crate::walking::{Around, Walk};
use pan_base::{List, NoMemory};
use pan_tree::{Function, Param, Rule, copy_shape, count_words};
use std::alloc::Global;

/// Declares the parameters, of which no two have one name, in a block that has no variable yet.
fn declare_params<'p>(
    alloc: Global,
    params: &'p [Param],
    scopes: &mut Scopes<'p>,
) -> Result<(), NoMemory>
    requires apart { repeats (map (λ p. p.name) params.now) ≡ false }
    requires one_block { scopes.old ≡ [] ∷ [] }
    ensures { OnOk result (scopes.new ≡ parameters params.now ∷ []) }
{
    for param in params {
        let shape = copy_shape(alloc, &param.shape)?;
        scopes.declare(param.name.as_bytes(), shape)?;
    }
    Ok(())
}

/// Checks the body of a function, and answers what it weighs, or 2^64 - 1 where that is less.
fn check_body<'p>(
    alloc: Global,
    heads: &Heads<'_>,
    function: &'p Function,
    walk: &mut Walk<'p>,
) -> Result<u64, CheckError>
    requires apart { repeats (map (λ p. p.name) function.now.params) ≡ false }
    requires outside { walk.old.scopes ≡ [] }
    ensures { IsDone (body heads.now function.now walk.old.names) walk.new result }
{
    walk.scopes.enter()?;
    declare_params(alloc, function.params.as_slice(), &mut walk.scopes)?;
    let around = Around {
        alloc,
        heads,
        result: &function.result,
        in_loop: false,
    };
    let weight = check_stmts(&around, function.body.stmts.as_slice(), walk)?;
    walk.scopes.leave();
    Ok(weight)
}

/// Checks a function behind its head, and answers what it weighs, or 2^64 - 1 where that is less.
fn check_function<'p>(
    alloc: Global,
    heads: &Heads<'_>,
    function: &'p Function,
    walk: &mut Walk<'p>,
) -> Result<u64, CheckError>
    requires apart { repeats (map (λ p. p.name) function.now.params) ≡ false }
    requires outside { walk.old.scopes ≡ [] }
    ensures { IsFunctionDone heads.now function.now walk.old.names walk.new result }
{
    let body = check_body(alloc, heads, function, walk)?;
    let falls_off = !closes(&function.body);
    refuse(function.span.start, &[(Rule::NoReturn, falls_off)])?;
    Ok(
        STMT_WEIGHT
            .saturating_add(words_of_params(function.params.as_slice()))
            .saturating_add(count_words(&function.result))
            .saturating_add(body),
    )
}

/// What the bodies of all functions tell.
#[derive(Drop)]
pub struct Told<'p> {
    /// What each function weighs, or 2^64 - 1 where that is less.
    pub weights: List<u64>,
    /// The foreign names, in the order of their first use.
    pub names: Names<'p>,
}

/// Checks the functions behind their heads, which break no rule.
pub fn check_bodies<'p>(
    alloc: Global,
    heads: &Heads<'_>,
    functions: &'p [Function],
) -> Result<Told<'p>, CheckError>
    requires { function_heads [] functions.now ≡ [] }
    ensures { IsAnswer (bodies heads.now functions.now []) (λ t. (t.weights ≡ are_weights heads.now functions.now) × (t.names ≡ names_after heads.now functions.now [])) result }
{
    let mut weights = List::new(alloc);
    let mut walk = Walk {
        scopes: Scopes::new(alloc),
        names: Names::new(alloc),
    };
    for function in functions {
        let weight = check_function(alloc, heads, function, &mut walk)?;
        weights.push(weight)?;
    }
    Ok(Told {
        weights,
        names: walk.names,
    })
}
