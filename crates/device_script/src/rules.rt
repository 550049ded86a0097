//! Rules, with what each keeps.

ghost use Rattle.std.specs.Prelude.{◌≡◌, ◌+◌, ◌%◌, [], ◌∷◌, ◌++◌, map, OnOk, MatchOption};
ghost use Rattle.pan_port.specs.Device.{given, given_by_array};
ghost use Rattle.device_script.specs.Rules.{answer_load, answer_store, answer_call, call_given};

use crate::memory::overwrite;
use pan_base::{Blob, NoMemory, Size};
use pan_port::Answer;
use std::alloc::Global;
use std::collections::VecDeque;
use std::marker::Model;

/// Values that are left, in order.
#[derive(Debug, Drop)]
pub struct Values {
    left: VecDeque<u64>,
}

impl Model for Values {
    ghost use Rattle.std.specs.Prelude.{List, ℕ};

    ghost Value = { List ℕ };

    ghost view = { λ v. v.left.items };
}

impl Values {
    /// No values.
    pub fn new(alloc: Global) -> Values
        ensures { result ≡ [] }
    {
        Values {
            left: VecDeque::new(alloc),
        }
    }

    /// Puts a value after the others.
    pub fn push(&mut self, value: u64) -> Result<(), NoMemory>
        ensures { OnOk result (self.new ≡ self.old ++ value ∷ []) }
    {
        self.left.push_back(value)?;
        Ok(())
    }

    /// Takes the first value.
    pub fn pop(&mut self) -> Option<u64>
        ensures { MatchOption result ((self.old ≡ []) × (self.new ≡ [])) (λ v. self.old ≡ v ∷ self.new) }
    {
        self.left.pop_front()
    }
}

/// What a foreign call does to its array.
#[derive(Debug, Drop)]
pub enum Effect {
    /// The bytes replace its first ones; a shorter array stops the run.
    Bytes(Blob),
    /// The configuration replaces its first bytes, as many as there are.
    Conf,
    /// Each byte grows by so much, modulo 256.
    Add(u64),
}

/// What answers requests of one kind, with what it keeps.
#[derive(Debug, Drop)]
pub enum Rule {
    /// Loads give the value, and stores replace it.
    Register {
        size: Size,
        addr: u64,
        value: u64,
    },
    /// Loads give the values that are left, in order.
    Queue {
        size: Size,
        addr: u64,
        values: Values,
    },
    /// Loads give `first`, and then `step` more each time. `loads` is how many there were, modulo 2^64.
    Counter {
        size: Size,
        addr: u64,
        first: u64,
        step: u64,
        loads: u64,
    },
    /// So many stores are still done.
    Collector {
        size: Size,
        addr: u64,
        left: u64,
    },
    /// Foreign calls of this name.
    Foreign {
        name: Blob,
        effect: Effect,
    },
}

/// Lets each byte grow by so much, modulo 256.
fn add_to_each(array: &mut [u8], n: u64)
    ensures { array.new ≡ map (λ b. (b + n) % 256) array.old }
{
    let n = (n % 256) as u8;
    for byte in array.iter_mut() {
        *byte = byte.wrapping_add(n);
    }
}

impl Effect {
    /// Writes the reply to a foreign call over its array.
    fn call(&self, conf: &[u8], array: &mut [u8]) -> Answer
        ensures { given_by_array result array.new ≡ call_given self.now conf.now array.old }
    {
        match self {
            Effect::Bytes(bytes) => {
                let bytes = bytes.as_slice();
                if array.len() < bytes.len() {
                    return Answer::Stop;
                }
                overwrite(array, 0, bytes);
            }
            Effect::Conf => overwrite(array, 0, conf),
            Effect::Add(n) => add_to_each(array, *n),
        }
        Answer::Done
    }
}

impl Rule {
    /// Answers a load.
    pub fn load(&mut self) -> Answer
        ensures { (given result, self.new) ≡ answer_load self.old }
    {
        match self {
            Rule::Register { value, .. } => Answer::Value(*value),
            Rule::Queue { values, .. } => match values.pop() {
                Some(value) => Answer::Value(value),
                None => Answer::Quiet,
            },
            Rule::Counter {
                size,
                first,
                step,
                loads,
                ..
            } => {
                let value = first.wrapping_add(loads.wrapping_mul(*step));
                *loads = loads.wrapping_add(1);
                Answer::Value(size.cut(value))
            }
            _ => Answer::Stop,
        }
    }

    /// Answers a store.
    pub fn store(&mut self, value: u64) -> Answer
        ensures { (given result, self.new) ≡ answer_store self.old value }
    {
        match self {
            Rule::Register { value: kept, .. } => {
                *kept = value;
                Answer::Done
            }
            Rule::Collector { left, .. } => {
                if *left == 0 {
                    return Answer::Stop;
                }
                *left -= 1;
                Answer::Done
            }
            _ => Answer::Stop,
        }
    }

    /// Answers a foreign call, writing the reply over the array.
    pub fn call(&self, conf: &[u8], array: &mut [u8]) -> Answer
        ensures { (given_by_array result array.new, self.now) ≡ answer_call self.now conf.now array.old }
    {
        match self {
            Rule::Foreign { effect, .. } => effect.call(conf, array),
            _ => Answer::Stop,
        }
    }
}
