//! What follows for stages that are chained, on a call that does nothing.

ghost use Rattle.std.specs.Prelude.{◌≡◌, ℕ, List};
ghost use Rattle.riscv_isa.specs.Image.{ImageOf};
ghost use Rattle.pan_agree.specs.Faithful.{Faithful};
ghost use Rattle.pan_driver.specs.Chained.{parts, AreChained, Chained};
ghost use Rattle.pan_driver.specs.Bounded.{IsBoundOf};
ghost use Rattle.pan_driver.specs.InTime.{IsInTime, IsShort};
ghost use Rattle.pan_driver.specs.declared.built.Stages.{Stages as AreStages};

use front_end::one_reading;
use pan_chain::chain;
use pan_tree::source_meets_no_limit;
use reg_alloc::renaming_keeps;
use riscv_isa::machine_goes_on;

/// Where each stage is what its pass may give for the one before it, the image is faithful to the program that they begin
/// with, its machine is in time, its code is short, and its bound is one on the stack. Two builds of the same bytes begin with one program, to which both images are
/// faithful.
pub fn chained_is_faithful()
    ensures faithful { (s : AreStages) (image : List ℕ) → AreChained s → ImageOf image (parts s) → Faithful s.checked image (parts s) }
    ensures in_time { (s : AreStages) → AreChained s → IsInTime s.checked (parts s) }
    ensures code { (s : AreStages) → AreChained s → IsShort s.checked (parts s) }
    ensures bounded { (s : AreStages) → AreChained s → IsBoundOf s.checked (parts s) s.bound }
    ensures one_program { (bytes : List ℕ) (s t : AreStages) (i j : List ℕ) → Chained bytes s i → Chained bytes t j
        → (s.checked ≡ t.checked) × Faithful s.checked i (parts s) × Faithful s.checked j (parts t) }
{
    chain();
    renaming_keeps();
    one_reading();
    source_meets_no_limit();
    machine_goes_on();
}
