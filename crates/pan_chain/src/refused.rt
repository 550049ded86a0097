//! What no pass may do, on a call that does nothing.

ghost use Rattle.std.specs.Prelude.{ℕ, ◌+◌, ◌<◌, ◌≤◌, [], ◌∷◌};
ghost use Rattle.pan_base.specs.Events.{Exit, only};
ghost use Rattle.pan_stage.specs.Stage.{Needs, Keeps, KeepsOverStack, RunsInSteps};
ghost use Rattle.pan_chain.specs.Samples.{sample, needing, without_stack, exits_after};

/// A pass that does more than the program before it counts as done keeps nothing, nor does one that exits with another
/// number, whose calls cost another sum, or that needs a wider frame or more code; a pass onto a stack may not run out of one as long as the calls cost; and a
/// machine that takes more steps than were counted is too slow. One that takes as many does what it must.
pub fn refuses_wrong_passes()
    ensures dearer { (toll : ℕ) → ¬ Keeps (sample (only (Exit 0)) 64 toll) (sample (only (Exit 0)) 64 (toll + 1)) }
    ensures other_end { (toll : ℕ) → ¬ Keeps (sample (only (Exit 0)) 64 toll) (sample (only (Exit 1)) 64 toll) }
    ensures other_cost { (toll : ℕ) → ¬ Keeps (sample (only (Exit 0)) 64 toll) (sample (only (Exit 0)) 80 toll) }
    ensures wider { ¬ Keeps (needing (record { frames = 64 ∷ []; code = 8 })) (needing (record { frames = 72 ∷ []; code = 8 })) }
    ensures longer { ¬ Keeps (needing (record { frames = 64 ∷ []; code = 8 })) (needing (record { frames = 64 ∷ []; code = 12 })) }
    ensures early { (toll : ℕ) → ¬ KeepsOverStack (sample (only (Exit 0)) 64 toll) without_stack }
    ensures slow { (toll : ℕ) → ¬ RunsInSteps (sample (only (Exit 0)) 64 toll) (λ size m r. exits_after toll) }
    ensures in_time { (toll : ℕ) → RunsInSteps (sample (only (Exit 0)) 64 (toll + 1)) (λ size m r. exits_after toll) }
{}
