//! A script.

ghost use Rattle.std.specs.Prelude.{◌≡◌, [], length};
ghost use Rattle.device_script.specs.Lines.{words};
ghost use Rattle.device_script.specs.Memory.{filled};
ghost use Rattle.device_script.specs.Saying as saying;
ghost use Rattle.device_script.specs.Script.{with_line};
ghost use Rattle.device_script.specs.Told.{Tells};

use crate::device::ScriptDevice;
use crate::error::{Cause, LineError};
use crate::line::{Line, Piece};
use crate::memory::fill;
use crate::rule_list::RuleList;
use crate::saying::said;
use pan_base::List;
use std::alloc::Global;
use std::marker::Model;

/// What a script says: pieces of local memory, and the rules by which a device answers.
#[derive(Drop)]
pub struct Script {
    pieces: List<Piece>,
    rules: RuleList,
}

impl Model for Script {
    ghost use Rattle.device_script.specs.Script.{Content};

    ghost Value = { Content };

    ghost view = { λ s. record { pieces = s.pieces; rules = s.rules } };
}

impl Script {
    /// The script that says nothing.
    pub(crate) fn new(alloc: Global) -> Script
        ensures { result ≡ record { pieces = []; rules = [] } }
    {
        Script {
            pieces: List::new(alloc),
            rules: RuleList::new(alloc),
        }
    }

    /// The script with what one more line says. It is lost where that fits no rule or there is no memory.
    pub(crate) fn with_line(self, alloc: Global, line: &[u8]) -> Result<Script, LineError>
        ensures { Tells result (with_line self (saying.said (words line.now))) }
    {
        let Script { mut pieces, rules } = self;
        match said(alloc, line)? {
            Line::Silence => Ok(Script { pieces, rules }),
            Line::Piece(piece) => {
                pieces.push(piece)?;
                Ok(Script { pieces, rules })
            }
            Line::Rule(rule) => {
                if rules.is_taken(&rule) {
                    return Err(LineError::Wrong(Cause::Twice));
                }
                let rules = rules.with(alloc, rule)?;
                Ok(Script { pieces, rules })
            }
        }
    }

    /// The pieces of local memory, in order.
    pub fn memory_pieces(&self) -> &List<Piece>
        ensures { result.now ≡ self.now.pieces }
    {
        &self.pieces
    }

    /// Fills the memory with zeros, and then with the pieces in order, of which what goes past the end is dropped.
    pub fn fill(&self, memory: &mut [u8])
        ensures { memory.new ≡ filled self.now.pieces (length memory.old) }
    {
        fill(memory, self.pieces.as_slice());
    }

    /// The device that answers by the rules.
    pub fn into_device(self) -> ScriptDevice
        ensures { result ≡ record { rules = self.rules; stops = 0; silences = 0 } }
    {
        let Script { rules, .. } = self;
        ScriptDevice::new(rules)
    }
}
