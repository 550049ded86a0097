//! What agreement refuses, on a call that does nothing.

ghost use Rattle.std.specs.Prelude.{ℕ, [], ◌∷◌};
ghost use Rattle.pan_base.specs.Events.{Event, Exit, Spent, Stack, Fault, only};
ghost use Rattle.pan_agree.specs.Agree.{Agree};
ghost use Rattle.pan_agree.specs.Samples.{loops, exits, at_once};

/// No machine agrees with a source that loops in silence and meets a fault, runs out of any stack, exits, or has an event;
/// and none agrees with a source that exits and does nothing. A machine that does nothing agrees with the loop.
pub fn refuses_wrong_machines()
    ensures fault { (stack : ℕ) → ¬ Agree stack loops (at_once (only Fault)) }
    ensures no_stack { (stack : ℕ) → ¬ Agree stack loops (at_once (only Stack)) }
    ensures exit { (stack : ℕ) → ¬ Agree stack loops (at_once (only (Exit 0))) }
    ensures event { (stack : ℕ) (e : Event) → ¬ Agree stack loops (at_once (record { events = e ∷ []; ending = Spent })) }
    ensures idle { (stack : ℕ) → ¬ Agree stack exits (at_once (only Spent)) }
    ensures right { (stack : ℕ) → Agree stack loops (at_once (only Spent)) }
{}
