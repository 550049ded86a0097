//! A device that answers by the rules of a script.

ghost use Rattle.std.specs.Prelude.{◌≡◌};

use crate::rule_list::RuleList;
use pan_base::Size;
use pan_port::{Answer, Counts, Device};
use std::marker::Model;

/// Answers by the rules of a script: each request by the one rule that answers it, and `Stop` where there is none. It takes
/// no memory.
#[derive(Drop)]
pub struct ScriptDevice {
    rules: RuleList,
    counts: Counts,
}

impl Model for ScriptDevice {
    ghost use Rattle.device_script.specs.Device.{DeviceState};

    ghost Value = { DeviceState };

    ghost view = { λ d. record {
      rules = d.rules;
      stops = d.counts.stops;
      silences = d.counts.silences;
    } };
}

impl ScriptDevice {
    /// Nothing answered yet.
    pub(crate) fn new(rules: RuleList) -> ScriptDevice
        ensures { result ≡ record { rules = rules; stops = 0; silences = 0 } }
    {
        ScriptDevice {
            rules,
            counts: Counts::new(),
        }
    }
}

impl Device for ScriptDevice {
    ghost use Rattle.device_script.specs.Device.{Steps};

    ghost gives = { Steps };

    ghost stops = { λ s. s.stops };

    ghost silences = { λ s. s.silences };

    fn load(&mut self, size: Size, addr: u64) -> Answer {
        let answer = self.rules.load(size, addr);
        self.counts.count(answer);
        answer
    }

    fn store(&mut self, size: Size, addr: u64, value: u64) -> Answer {
        let answer = self.rules.store(size, addr, value);
        self.counts.count(answer);
        answer
    }

    fn foreign(&mut self, name: &[u8], conf: &[u8], array: &mut [u8]) -> Answer {
        let answer = self.rules.call(name, conf, array);
        self.counts.count(answer);
        answer
    }
}
