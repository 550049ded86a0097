//! The rules of a script.

ghost use Rattle.std.specs.Prelude.{◌≡◌, ℕ, [], ◌∷◌, ◌++◌, IfOk, false};
ghost use Rattle.pan_base.specs.Events as events;
ghost use Rattle.pan_port.specs.Device.{given, given_by_array};
ghost use Rattle.device_script.specs.Rules.{step};
ghost use Rattle.device_script.specs.Script.{is_taken};

use crate::index::Index;
use crate::rules::Rule;
use pan_base::{NoMemory, Size};
use pan_port::Answer;
use std::alloc::Global;
use std::marker::Model;

/// Rules, of which no two answer one request.
#[derive(Drop)]
pub struct RuleList {
    rules: Vec<Rule>,
    index: Index,
}

impl Model for RuleList {
    ghost use Rattle.std.specs.Prelude.{List};
    ghost use Rattle.device_script.specs.declared.rules.Rule.{Rule};

    ghost Value = { List Rule };

    ghost use Rattle.device_script.specs.Index.{IsIndex};

    ghost view = { λ r. r.rules.items };

    ghost invariant = { λ r. IsIndex r.index r.rules.items };
}

impl RuleList {
    /// No rules.
    pub fn new(alloc: Global) -> RuleList
        ensures { result ≡ [] }
    {
        RuleList {
            rules: Vec::new(alloc),
            index: Index::new(alloc),
        }
    }

    /// Whether one of the rules answers what this one would.
    pub fn is_taken(&self, rule: &Rule) -> bool
        ensures { result ≡ is_taken self.now rule.now }
    {
        self.index.is_taken(rule)
    }

    /// The rules with one more. Without memory they are lost.
    pub fn with(self, alloc: Global, rule: Rule) -> Result<RuleList, NoMemory>
        requires { is_taken self rule ≡ false }
        ensures { IfOk result (λ more. more ≡ self ++ rule ∷ []) }
    {
        let RuleList {
            mut rules,
            mut index,
        } = self;
        index.insert(alloc, &rule, rules.len())?;
        rules.push(rule)?;
        Ok(RuleList { rules, index })
    }

    /// Answers a load.
    pub fn load(&mut self, size: Size, addr: u64) -> Answer
        ensures { (given result, self.new) ≡ step self.old (events.Load size addr) }
    {
        match self.index.load(size, addr) {
            Some(at) => {
                let rule = &mut self.rules[at];
                rule.load()
            }
            None => Answer::Stop,
        }
    }

    /// Answers a store.
    pub fn store(&mut self, size: Size, addr: u64, value: u64) -> Answer
        ensures { (given result, self.new) ≡ step self.old (events.Store size addr value) }
    {
        match self.index.store(size, addr) {
            Some(at) => {
                let rule = &mut self.rules[at];
                rule.store(value)
            }
            None => Answer::Stop,
        }
    }

    /// Answers a foreign call, writing the reply over the array.
    pub fn call(&self, name: &[u8], conf: &[u8], array: &mut [u8]) -> Answer
        ensures { (number : ℕ) → (given_by_array result array.new, self.now)
            ≡ step self.now (events.Foreign number name.now conf.now array.old) }
    {
        match self.index.call(name) {
            Some(at) => {
                let rule = &self.rules[at];
                rule.call(conf, array)
            }
            None => Answer::Stop,
        }
    }
}
