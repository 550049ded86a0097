//! A sink that keeps its text in memory.

ghost use Rattle.std.specs.Prelude.{◌≡◌, ◌-◌, [], ◌++◌, length, IfOk, OnOk, OnErr, IsErr, IsTrue, ◌↔◌, Contains};
ghost use Rattle.pan_base.specs.Causes.{HasCause};
ghost use Rattle.pan_base.specs.Counts.{next_count};
ghost use Rattle.pan_base.specs.MemSink.{mem_sink_told, Refuses};
ghost use Rattle.pan_base.specs.Sinks.{Puts};

use crate::error::NoMemory;
use crate::sinks::{Sink, SinkFault};
use sqlite_items::Items as List;
use std::alloc::Global;
use std::marker::Model;

/// Keeps its text in memory, and fails at the puts that it is told to fail at and where its room ends.
///
/// Puts are counted from 0. The counts of puts and of faults stand still at 2^64 - 1.
#[derive(Drop)]
pub struct MemSink {
    text: Vec<u8>,
    room: usize,
    calls: u64,
    failing: List<u64>,
    faults: u64,
}

impl Model for MemSink {
    ghost use Rattle.std.specs.Prelude.{◌+◌, ◌≤◌, vec_len, vec_capacity};
    ghost use Rattle.pan_base.specs.MemSink.{MemSinkState};

    ghost Value = { MemSinkState };

    ghost view = { λ s. record {
      bytes = s.text.items;
      room = s.room;
      calls = s.calls;
      failing = s.failing;
      faults = s.faults;
    } };

    ghost invariant = { λ s. vec_len s.text + s.room ≤ vec_capacity s.text };
}

impl MemSink {
    /// An empty sink with room for so many bytes, all of which it takes from memory here. The puts whose numbers are in
    /// `failing` fail.
    pub fn new(alloc: Global, room: usize, failing: List<u64>) -> Result<MemSink, NoMemory>
        ensures { IfOk result (λ s. s ≡ record {
          bytes = [];
          room = room;
          calls = 0;
          failing = failing;
          faults = 0;
        }) }
    {
        let text = Vec::with_capacity(alloc, room)?;
        Ok(MemSink {
            text,
            room,
            calls: 0,
            failing,
            faults: 0,
        })
    }

    /// The bytes that it took so far.
    pub fn bytes(&self) -> &[u8]
        ensures { result.now ≡ self.now.bytes }
    {
        self.text.as_slice()
    }
}

fn is_listed(numbers: &[u64], number: u64) -> bool
    ensures { IsTrue result ↔ Contains numbers.now number }
{
    numbers.contains(&number)
}

impl Sink for MemSink {
    ghost state = { mem_sink_told };

    /// Takes the whole piece, or fails.
    fn put(&mut self, piece: &[u8]) -> Result<usize, SinkFault>
        ensures took { Puts (mem_sink_told self.old) (mem_sink_told self.new) result piece.now }
        ensures cause { HasCause self.old.faults self.new.faults result }
        ensures exact { IsErr result ↔ Refuses self.old piece.now }
        ensures whole { IfOk result (λ n. n ≡ length piece.now) }
        ensures ok { OnOk result (self.new ≡ record self.old {
          bytes = self.old.bytes ++ piece.now;
          room = self.old.room - length piece.now;
          calls = next_count self.old.calls;
        }) }
        ensures err { OnErr result (self.new ≡ record self.old {
          calls = next_count self.old.calls;
          faults = next_count self.old.faults;
        }) }
    {
        let fails = is_listed(self.failing.as_slice(), self.calls);
        self.calls = self.calls.saturating_add(1);
        if fails || piece.len() > self.room {
            self.faults = self.faults.saturating_add(1);
            return Err(SinkFault);
        }
        match self.text.extend_from_slice(piece) {
            Ok(()) => {
                self.room -= piece.len();
                Ok(piece.len())
            }
            Err(_) => unreachable!(),
        }
    }
}
