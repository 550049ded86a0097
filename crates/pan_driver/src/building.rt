//! From a source to its image.

ghost use Rattle.std.specs.Prelude.{◌≡◌, ◌⊎◌, Err, IfOk, IfErr};
ghost use Rattle.pan_tree.specs.declared.program.Program.{Program};
ghost use Rattle.front_end.specs.Sources.{IsChecked};
ghost use Rattle.pan_agree.specs.Faithful.{Faithful};
ghost use Rattle.pan_driver.specs.Chained.{parts, AreChained, Chained, ChainedFrom};
ghost use Rattle.pan_driver.specs.Bounded.{IsBoundOf};
ghost use Rattle.pan_driver.specs.InTime.{IsInTime, IsShort};
ghost use Rattle.pan_driver.specs.Errors.{Unbuilt};
ghost use Rattle.pan_driver.specs.declared.error.BuildError.{BuildError as IsBuildError};

use crate::built::{Built, Stages};
use crate::error::BuildError;
use crate::laws::chained_is_faithful;
use crate::lowering::lowered_of;
use crate::writing::image_of;
use front_end::read_program;
use pan_base::NoMemory;
use pan_shapes::Checked;
use std::alloc::Global;

/// The stages of a checked program. `NoMemory` is the one error.
fn stages_of(alloc: Global, checked: Checked) -> Result<Stages, NoMemory>
    ensures checked { IfOk result (λ stages. stages.checked ≡ checked) }
    ensures chained { IfOk result (λ stages. AreChained stages) }
{
    let lowered = lowered_of(alloc, &checked)?;
    let stages = lowered.join(checked);
    Ok(stages)
}

/// The image of a checked program, with all stages. It does what the program does, in at most 1,024 steps for each unit of
/// work and for the start, or runs out of a stack that is less than the active calls cost, and less than its bound, which it has
/// where the calls that main reaches have no cycle. `NoMemory` is the one error.
pub fn build_checked(alloc: Global, checked: Checked) -> Result<Built, NoMemory>
    ensures chained { IfOk result (λ built. ChainedFrom checked built.stages built.image) }
    ensures faithful { IfOk result (λ built. Faithful checked built.image (parts built.stages)) }
    ensures in_time { IfOk result (λ built. IsInTime checked (parts built.stages)) }
    ensures code { IfOk result (λ built. IsShort checked (parts built.stages)) }
    ensures bounded { IfOk result (λ built. IsBoundOf checked (parts built.stages) built.stages.bound) }
{
    chained_is_faithful();
    let stages = stages_of(alloc, checked)?;
    let image = image_of(alloc, &stages)?;
    Ok(Built { stages, image })
}

/// The image of a source, with all stages.
///
/// # Errors
///
/// The first that applies: `Lex` where the source has no tokens, `Parse` where they spell no program, `Check` where the
/// program breaks a rule. `NoMemory` may come in place of any answer.
pub fn build(alloc: Global, source: &[u8]) -> Result<Built, BuildError>
    ensures chained { IfOk result (λ built. Chained source.now built.stages built.image) }
    ensures faithful { IfOk result (λ built. Faithful built.stages.checked built.image (parts built.stages)) }
    ensures in_time { IfOk result (λ built. IsInTime built.stages.checked (parts built.stages)) }
    ensures code { IfOk result (λ built. IsShort built.stages.checked (parts built.stages)) }
    ensures bounded { IfOk result (λ built. IsBoundOf built.stages.checked (parts built.stages) built.stages.bound) }
    ensures refused { IfErr result (λ e. (e ≡ BuildError.NoMemory) ⊎ Unbuilt source.now e) }

    // which answer comes
    ensures passes { (program : Program) → IsChecked source.now program → IfErr result (λ e. e ≡ BuildError.NoMemory) }
    ensures exact { (e : IsBuildError) → Unbuilt source.now e → (result ≡ Err e) ⊎ (result ≡ Err BuildError.NoMemory) }
{
    let checked = read_program(alloc, source)?;
    let built = build_checked(alloc, checked)?;
    Ok(built)
}
