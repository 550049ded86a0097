//! The law of the one pass, on a call that does nothing.

ghost use Rattle.std.specs.Prelude.{◌≡◌, ◌↔◌, ℕ, true, false};
ghost use Rattle.pan_flow.specs.Flow.{Flow, Live, ways, behind};
ghost use Rattle.pan_flow.specs.Live.{live_before};

/// One pass over a function finds exactly the variables that some way reads before it writes them.
pub fn pass_is_exact()
    ensures { (f : Flow) (x : ℕ) → (live_before x f (λ e. false) ≡ true) ↔ Live (ways f behind) x }
{}
