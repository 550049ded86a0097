//! What functions weigh, and how much they may.

ghost use Rattle.std.specs.Prelude.{◌≡◌, ◌-◌, ◌^◌, min, sum};
ghost use Rattle.pan_tree.specs.Check.{weight_breaks, program_weight};
ghost use Rattle.pan_shapes.specs.Answers.{IsAnswer};
ghost use Rattle.pan_shapes.specs.Weights.{are_weights, heavy_functions};

use crate::error::CheckError;
use crate::refusals::refuse;
use pan_tree::{Program, Rule};

/// The greatest weight of a function.
pub const MAX_FUNCTION_WEIGHT: u64 = 16384;

/// The greatest weight of all functions together.
const MAX_PROGRAM_WEIGHT: u64 = 262144;

/// The sum of the weights, or 2^64 - 1 where that is less.
fn total_of(weights: &[u64]) -> u64
    ensures { result ≡ min (sum weights.now) (2 ^ 64 - 1) }
{
    let mut total: u64 = 0;
    for weight in weights {
        total = total.saturating_add(*weight);
    }
    total
}

/// Refuses the first function that weighs more than 16,384.
fn refuse_heavy_functions(program: &Program, weights: &[u64]) -> Result<(), CheckError>
    requires { weights.now ≡ are_weights program.now program.now.functions }
    ensures { IsAnswer (heavy_functions program.now program.now.functions) (λ _. Unit {0}) result }
{
    let functions = program.functions.as_slice();
    for i in 0..functions.len() {
        let is_heavy = weights[i] > MAX_FUNCTION_WEIGHT;
        refuse(
            functions[i].span.start,
            &[(Rule::FunctionTooHeavy, is_heavy)],
        )?;
    }
    Ok(())
}

/// Refuses the first function that weighs more than 16,384, and a program whose functions weigh more than 262,144
/// together. Answers what they weigh.
pub fn refuse_heavy(program: &Program, weights: &[u64]) -> Result<u64, CheckError>
    requires { weights.now ≡ are_weights program.now program.now.functions }
    ensures { IsAnswer (weight_breaks program.now) (λ total. total ≡ program_weight program.now) result }
{
    refuse_heavy_functions(program, weights)?;
    let total = total_of(weights);
    let is_heavy = total > MAX_PROGRAM_WEIGHT;
    refuse(0, &[(Rule::ProgramTooHeavy, is_heavy)])?;
    Ok(total)
}
