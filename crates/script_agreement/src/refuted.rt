//! What concurring refuses, on a call that does nothing.

ghost use Rattle.std.specs.Prelude.{◌≡◌, ◌≢◌, ℕ, List, [], ◌∷◌};
ghost use Rattle.pan_base.specs.Events.{Asked, Event, Exit, Stopped, Replied, only};
ghost use Rattle.device_script.specs.Script.{Content};
ghost use Rattle.device_script.specs.Runs.{IsGiven};
ghost use Rattle.script_agreement.specs.Given.{Concur};

/// Two whole runs that end differently don't concur, and one that exits doesn't with one that has an event more. A run that
/// asks nothing is given nothing.
pub fn refuses_other_runs()
    ensures ends { (n m : ℕ) → n ≢ m → ¬ Concur (only (Exit n)) (only (Exit m)) }
    ensures stopped { (n : ℕ) (q : Asked) → ¬ Concur (only (Exit n)) (only (Stopped q)) }
    ensures event { (n : ℕ) (e : Event) → ¬ Concur (only (Exit n)) (record { events = e ∷ []; ending = Exit n }) }
    ensures unasked { (script : Content) (n : ℕ) (replies : List Replied) → IsGiven script (only (Exit n)) replies → replies ≡ [] }
{}
