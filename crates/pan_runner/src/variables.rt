//! What is done with the variables of a function.

ghost use Rattle.std.specs.Prelude.{◌≡◌, take, IfOk};
ghost use Rattle.source_resolver.specs.Slots.{assigned, into, into_nothing};
ghost use Rattle.pan_runner.specs.Told.{told, all_told};

use crate::value::Value;
use crate::values::zero_value;
use pan_base::{List, NoMemory};
use source_resolver::Target;
use std::alloc::Global;

/// Gives the variable at a place another value, where there is such a variable.
pub fn assign(variables: &mut List<Value>, place: Option<usize>, value: Value)
    ensures { all_told variables.new ≡ assigned place (told value) (all_told variables.old) }
{
    if let Some(at) = place {
        if at < variables.len() {
            variables.set(at, value);
        }
    }
}

/// Keeps so many variables, the first ones.
pub fn keep_first(variables: &mut List<Value>, count: usize)
    ensures { all_told variables.new ≡ take count (all_told variables.old) }
{
    'last: while variables.len() > count {
        let _ = variables.pop();
    }
}

/// Gives a target the result of a call.
pub fn give(variables: &mut List<Value>, target: &Target, value: Value) -> Result<(), NoMemory>
    ensures { IfOk result (λ _. all_told variables.new ≡ into target.now (told value) (all_told variables.old)) }
{
    match target {
        Target::Nothing => Ok(()),
        Target::Old(place) => {
            assign(variables, *place, value);
            Ok(())
        }
        Target::New(_) => {
            variables.push(value)?;
            Ok(())
        }
    }
}

/// Declares what a call declares that gives no result: a new variable, whose words are all 0.
pub fn give_nothing(
    alloc: Global,
    variables: &mut List<Value>,
    target: &Target,
) -> Result<(), NoMemory>
    ensures { IfOk result (λ _. all_told variables.new ≡ into_nothing target.now (all_told variables.old)) }
{
    match target {
        Target::Nothing => Ok(()),
        Target::Old(_) => Ok(()),
        Target::New(shape) => {
            let value = zero_value(alloc, shape)?;
            variables.push(value)?;
            Ok(())
        }
    }
}
