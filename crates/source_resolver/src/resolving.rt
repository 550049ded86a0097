//! Resolves the names of programs.

ghost use Rattle.std.specs.Prelude.{◌≡◌, ℕ, List, map, IfOk, OnOk, IsSome};
ghost use Rattle.pan_base.specs.Events.{Replied};
ghost use Rattle.pan_tree.specs.Check.{foreign_names};
ghost use Rattle.pan_tree.specs.Meaning.{source};
ghost use Rattle.source_resolver.specs.Resolving.{with_parameters, resolved_function, resolved};
ghost use Rattle.source_resolver.specs.Slots.{behaviour};

use crate::directory::Directory;
use crate::places::Places;
use crate::resolved::{Function, Program};
use crate::resolving_stmts::resolve_stmts;
use crate::shared::Shared;
use pan_base::{List, NoMemory};
use pan_shapes::Checked;
use pan_tree::{Function as SourceFunction, Param};
use std::alloc::Global;

/// Declares the parameters, in their order.
fn declare_params<'p>(params: &'p [Param], places: &mut Places<'p>) -> Result<(), NoMemory>
    ensures { OnOk result (places.new ≡ with_parameters params.now places.old) }
{
    for param in params {
        places.declare(param.name.as_bytes())?;
    }
    Ok(())
}

/// The function, with its names resolved.
fn resolve_function(
    alloc: Global,
    directory: &Directory<'_>,
    function: &SourceFunction,
) -> Result<Function, NoMemory>
    ensures { IfOk result (λ f. f ≡ resolved_function directory.now function.now) }
{
    let mut places = Places::new(alloc);
    places.enter()?;
    declare_params(function.params.as_slice(), &mut places)?;
    let body = resolve_stmts(
        alloc,
        directory,
        function.body.stmts.as_slice(),
        &mut places,
    )?;
    Ok(Function {
        params: function.params.len(),
        body: Shared::new(alloc, body)?,
    })
}

/// The functions, with their names resolved.
fn resolve_functions(
    alloc: Global,
    directory: &Directory<'_>,
    functions: &[SourceFunction],
) -> Result<List<Function>, NoMemory>
    ensures { IfOk result (λ fs. fs ≡ map (λ f. resolved_function directory.now f) functions.now) }
{
    let mut all = List::new(alloc);
    for function in functions {
        all.push(resolve_function(alloc, directory, function)?)?;
    }
    Ok(all)
}

/// The program, with its names resolved: it means what the source means, and has a `main`.
pub fn resolve(alloc: Global, checked: &Checked) -> Result<Program, NoMemory>
    ensures resolved { IfOk result (λ p. p ≡ resolved checked.now) }
    ensures means { IfOk result (λ p. (memory : List ℕ) (replies : List Replied) (n : ℕ) → behaviour (foreign_names checked.now) p memory replies n ≡ (source checked.now memory replies n).behaviour) }
    ensures main { IfOk result (λ p. IsSome p.main) }
{
    let directory = Directory::of(alloc, checked)?;
    let program = checked.program();
    let functions = resolve_functions(alloc, &directory, program.functions.as_slice())?;
    Ok(Program {
        functions,
        main: directory.function(b"main"),
    })
}
