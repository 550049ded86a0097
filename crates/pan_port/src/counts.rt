//! Counts of a device's answers.

ghost use Rattle.std.specs.Prelude.{◌≡◌};
ghost use Rattle.pan_port.specs.Device.{Counted};

use crate::device::Answer;

/// How often a device answered `Stop` and `Quiet`. Both counts stand still at 2^64 - 1.
#[derive(Debug, Drop)]
pub struct Counts {
    pub stops: u64,
    pub silences: u64,
}

impl Counts {
    /// No answer yet.
    pub fn new() -> Counts
        ensures { (result.stops ≡ 0) × (result.silences ≡ 0) }
    {
        Counts {
            stops: 0,
            silences: 0,
        }
    }

    /// Counts an answer.
    pub fn count(&mut self, answer: Answer)
        ensures { Counted answer self.old.stops self.new.stops self.old.silences self.new.silences }
    {
        match answer {
            Answer::Stop => self.stops = self.stops.saturating_add(1),
            Answer::Quiet => self.silences = self.silences.saturating_add(1),
            _ => {}
        }
    }
}
