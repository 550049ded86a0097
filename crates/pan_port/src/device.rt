//! What answers requests.

ghost use Rattle.std.specs.Prelude.{◌≡◌, ℕ, List};
ghost use Rattle.pan_base.specs.Events.{Asked, Load, Store, Foreign};
ghost use Rattle.pan_port.specs.Device.{Given, given, given_by_array, Counted, Alike};

use pan_base::Size;

/// What a device answers.
#[derive(Clone, Copy, Debug, PartialEq, Eq)]
pub enum Answer {
    /// The value of a load.
    Value(u64),
    /// A store is done; at a foreign call, the array now holds the reply.
    Done,
    /// The run is to stop.
    Stop,
    /// It has no reply left.
    Quiet,
}

/// Answers requests. An answer of the wrong kind, or a value that is too large, is a reply that doesn't fit.
///
/// A device that answers `Quiet` may answer from then on as it might have before: its counts alone change.
pub trait Device {
    /// From one state it may answer a request so, and then has another state. It says nothing of the counts, and holds
    /// always where it isn't told.
    ghost gives: { Self → Asked → Given → Self → Type 0 } = { λ _ _ _ _. Unit {0} };

    /// How often it answered `Stop`.
    ghost stops: { Self → ℕ };

    /// How often it answered `Quiet`.
    ghost silences: { Self → ℕ };

    /// Answers a load of so many bytes.
    fn load(&mut self, size: Size, addr: u64) -> Answer
        ensures step { gives self.old (Load size addr) (given result) self.new }
        ensures counts { Counted result (stops self.old) (stops self.new) (silences self.old) (silences self.new) }
        ensures quiet { result ≡ Answer.Quiet → Alike gives self.old self.new };

    /// Answers a store of so many bytes.
    fn store(&mut self, size: Size, addr: u64, value: u64) -> Answer
        ensures step { gives self.old (Store size addr value) (given result) self.new }
        ensures counts { Counted result (stops self.old) (stops self.new) (silences self.old) (silences self.new) }
        ensures quiet { result ≡ Answer.Quiet → Alike gives self.old self.new };

    /// Answers a foreign call, writing the reply over the array.
    fn foreign(&mut self, name: &[u8], conf: &[u8], array: &mut [u8]) -> Answer
        ensures step { (number : ℕ) → gives self.old (Foreign number name.now conf.now array.old) (given_by_array result array.new) self.new }
        ensures counts { Counted result (stops self.old) (stops self.new) (silences self.old) (silences self.new) }
        ensures quiet { result ≡ Answer.Quiet → Alike gives self.old self.new };
}
