//! A device that stops after a while.

ghost use Rattle.std.specs.Prelude.{◌≡◌, ◌-◌, if◌then◌else◌};
ghost use Rattle.pan_port.specs.Device.{Counted, is_quiet};

use crate::counts::Counts;
use crate::device::{Answer, Device};
use pan_base::Size;
use std::marker::Model;

/// Passes requests on until the inner device has given so many answers other than `Quiet`, and answers `Stop` to each
/// later one. It takes no memory.
#[derive(Drop)]
pub struct StopAfter<D> {
    inner: D,
    left: u64,
    counts: Counts,
}

impl<D> Model for StopAfter<D> {
    ghost use Rattle.pan_port.specs.StopAfter.{StopAfterState};

    ghost Value = { StopAfterState D };

    ghost view = { λ s. record {
      inner = s.inner;
      left = s.left;
      stops = s.counts.stops;
      silences = s.counts.silences;
    } };
}

impl<D> StopAfter<D> {
    /// Stops after so many answers.
    pub fn new(inner: D, after: u64) -> StopAfter<D>
        ensures { result ≡ record { inner = inner; left = after; stops = 0; silences = 0 } }
    {
        StopAfter {
            inner,
            left: after,
            counts: Counts::new(),
        }
    }

    /// Counts an answer, and that one answer less is left where it isn't `Quiet`.
    fn count(&mut self, answer: Answer)
        ensures inner { self.new.inner ≡ self.old.inner }
        ensures left { self.new.left ≡ (if is_quiet answer then self.old.left else self.old.left - 1) }
        ensures counted { Counted answer self.old.stops self.new.stops self.old.silences self.new.silences }
    {
        if answer != Answer::Quiet {
            self.left = self.left.saturating_sub(1);
        }
        self.counts.count(answer);
    }
}

impl<D: Device> Device for StopAfter<D> {
    ghost use Rattle.pan_port.specs.StopAfter.{PassesOn};

    ghost gives = { λ s q g t. PassesOn D.gives s.left s.inner q g t.inner t.left };

    ghost stops = { λ s. s.stops };

    ghost silences = { λ s. s.silences };

    fn load(&mut self, size: Size, addr: u64) -> Answer {
        let answer = match self.left {
            0 => Answer::Stop,
            _ => self.inner.load(size, addr),
        };
        self.count(answer);
        answer
    }

    fn store(&mut self, size: Size, addr: u64, value: u64) -> Answer {
        let answer = match self.left {
            0 => Answer::Stop,
            _ => self.inner.store(size, addr, value),
        };
        self.count(answer);
        answer
    }

    fn foreign(&mut self, name: &[u8], conf: &[u8], array: &mut [u8]) -> Answer {
        let answer = match self.left {
            0 => Answer::Stop,
            _ => self.inner.foreign(name, conf, array),
        };
        self.count(answer);
        answer
    }
}
