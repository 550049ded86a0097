//! Functions.

ghost use Rattle.std.specs.Prelude.{◌≡◌, [], ◌∷◌, true, map, IfOk, OnOk};
ghost use Rattle.pan_tree.specs.Check as check;
ghost use Rattle.crep_flatten.specs.Flattened.{with_parameters, flat_function};
ghost use Rattle.crep_flatten.specs.Literals.{function_fits, program_fits};

use crate::scopes::Scopes;
use crate::shaping::{size, spread};
use crate::stmts::flatten_stmts;
use crep_lang::{CrepFun, Stmt};
use pan_base::{Blob, List, NoMemory};
use pan_shapes::Checked;
use pan_tree::{Function, Param};
use source_resolver::Directory;
use std::alloc::Global;

/// Declares the parameters, in their order.
fn declare_parameters<'p>(
    alloc: Global,
    params: &'p [Param],
    here: &mut Scopes<'p>,
) -> Result<(), NoMemory>
    ensures { OnOk result (here.new ≡ with_parameters params.now here.old) }
{
    for param in params {
        let shape = spread(alloc, &param.shape)?;
        here.declare(param.name.as_bytes(), shape)?;
    }
    Ok(())
}

/// How many words the parameters have.
fn parameter_words(params: &[Param]) -> Result<u32, NoMemory>
    ensures { IfOk result (λ n. n ≡ check.parameter_words params.now) }
{
    let mut words = 0u32;
    for param in params {
        let Some(sum) = words.checked_add(size(&param.shape)?) else {
            return Err(NoMemory);
        };
        words = sum;
    }
    Ok(words)
}

/// The body of a function in words.
fn flatten_body(
    alloc: Global,
    directory: &Directory<'_>,
    function: &Function,
) -> Result<Stmt, NoMemory>
    ensures flat { IfOk result (λ b. b ≡ (flat_function directory.now function.now).body) }
    ensures fits { IfOk result (λ _. function_fits function.now ≡ true) }
{
    let mut here = Scopes::new(alloc);
    here.enter()?;
    declare_parameters(alloc, function.params.as_slice(), &mut here)?;
    let stmts = function.body.stmts.as_slice();
    Ok(Stmt::Seq(flatten_stmts(alloc, directory, stmts, &mut here)?))
}

/// A function in words, an active call of which costs so much.
fn flatten_function(
    alloc: Global,
    directory: &Directory<'_>,
    function: &Function,
    cost: u64,
) -> Result<CrepFun, NoMemory>
    requires { cost ≡ check.cost directory.now function.now }
    ensures flat { IfOk result (λ f. f ≡ flat_function directory.now function.now) }
    ensures fits { IfOk result (λ _. function_fits function.now ≡ true) }
{
    Ok(CrepFun {
        name: Blob::from_slice(alloc, function.name.as_bytes())?,
        cost,
        params: parameter_words(function.params.as_slice())?,
        results: size(&function.result)?,
        body: flatten_body(alloc, directory, function)?,
    })
}

/// The functions in words, in their order.
pub fn flatten_functions(
    alloc: Global,
    checked: &Checked,
    directory: &Directory<'_>,
) -> Result<List<CrepFun>, NoMemory>
    requires { directory.now ≡ checked.now }
    ensures flat { IfOk result (λ fs. fs ≡ map (flat_function checked.now) checked.now.functions) }
    ensures fits { IfOk result (λ _. program_fits checked.now ≡ true) }
{
    let functions = checked.program().functions.as_slice();
    let mut all = List::new(alloc);
    for i in 0..functions.len() {
        let cost = checked.cost_of(i);
        all.push(flatten_function(alloc, directory, &functions[i], cost)?)?;
    }
    Ok(all)
}
