//! The law of both directions, on a call that does nothing.

ghost use Rattle.std.specs.Prelude.{ℕ};
ghost use Rattle.pan_base.specs.Events.{Behaviour};
ghost use Rattle.pan_control.specs.Seen.{Seen};
ghost use Rattle.riscv_isa.specs.Running.{IsSteady};
ghost use Rattle.pan_agree.specs.Agree.{Agree};
ghost use Rattle.pan_tree.specs.Ends.{IsSourceLike};
ghost use Rattle.pan_agree.specs.Laws.{ForwardInTime, ForwardWithin};

use pan_base::prefixes;

/// A machine whose longer runs go on from the shorter ones, and that does all that a source does and takes at least as many
/// steps as the source uses fuel, does no more either, and runs out of stack only where the source's calls cost more. What
/// is done within limits is done in time.
pub fn both_ways()
    ensures agree { (stack : ℕ) (source : ℕ → Seen) (runs : ℕ → Behaviour)
        → IsSteady runs → IsSourceLike source → ForwardInTime stack source runs → Agree stack source runs }
    ensures in_time { (stack : ℕ) (limit : ℕ → ℕ) (source : ℕ → Seen) (runs : ℕ → Behaviour)
        → ForwardWithin stack limit source runs → ForwardInTime stack source runs }
{
    prefixes();
}
