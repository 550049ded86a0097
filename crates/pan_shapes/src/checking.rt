//! The check of a whole program.

ghost use Rattle.std.specs.Prelude.{◌≡◌, codes};
ghost use Rattle.pan_tree.specs.Check.{Break, IsFirst, IsWellShaped, HasLawfulNames, breaks, function_of, main_breaks};
ghost use Rattle.pan_shapes.specs.Answers.{IsAnswer};
ghost use Rattle.pan_shapes.specs.Directions.{IsRefusedFor, IsAccepted};
ghost use Rattle.pan_shapes.specs.Kept.{Kept, IsMainAt};

use crate::bodies::check_bodies;
use crate::checked::Checked;
use crate::error::CheckError;
use crate::heads::Heads;
use crate::refusals::refuse;
use crate::weights::refuse_heavy;
use pan_base::{Blob, List};
use pan_tree::{Program, Rule, is_word};
use std::alloc::Global;

/// What is kept of a program that keeps every rule.
#[derive(Drop)]
struct Found {
    /// The index of `main`.
    main: usize,
    /// What each function weighs.
    weights: List<u64>,
    /// What they weigh together.
    weight: u64,
    /// The foreign names, in the order of their first use.
    names: List<Blob>,
}

/// The index of `main`, which breaks no rule.
fn find_main(heads: &Heads<'_>) -> Result<usize, CheckError>
    ensures { IsAnswer (main_breaks (function_of (codes "main") heads.now)) (IsMainAt heads.now) result }
{
    match heads.function_index("main".as_bytes()) {
        None => Err(CheckError::Breaks {
            rule: Rule::NoMain,
            place: 0,
        }),
        Some(index) => {
            let main = heads.at(index);
            let is_misshapen = !main.params.is_empty() || !is_word(&main.result);
            refuse(main.span.start, &[(Rule::MainShape, is_misshapen)])?;
            Ok(index)
        }
    }
}

/// What is kept of the program, where it keeps every rule.
fn examine(alloc: Global, program: &Program) -> Result<Found, CheckError>
    requires { HasLawfulNames program.now }
    ensures { IsAnswer (breaks program.now) (λ f. Kept program.now f.main f.weights f.weight f.names) result }
{
    let heads = Heads::of(alloc, program)?;
    let main = find_main(&heads)?;
    let told = check_bodies(alloc, &heads, program.functions.as_slice())?;
    let weight = refuse_heavy(program, told.weights.as_slice())?;
    let names = told.names.copy(alloc)?;
    Ok(Found {
        main,
        weights: told.weights,
        weight,
        names,
    })
}

/// Checks a program, which is given up where it breaks a rule.
///
/// Its parts are looked at in this order: the exceptions and then the heads of the functions, `main`, the bodies, and
/// what they weigh. Errs with the first rule that is broken, and with the first byte of the part that breaks it.
pub fn check(alloc: Global, program: Program) -> Result<Checked, CheckError>
    requires { HasLawfulNames program }
    ensures answer { IsAnswer (breaks program) (λ c. c ≡ program) result }
    ensures refused { (b : Break) → IsFirst program b → IsRefusedFor b result }
    ensures accepted { IsWellShaped program → IsAccepted result }
{
    let found = examine(alloc, &program)?;
    Ok(Checked::new(
        program,
        found.main,
        found.weights,
        found.weight,
        found.names,
    ))
}
