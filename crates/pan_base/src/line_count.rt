//! A sink that counts lines.

ghost use Rattle.std.specs.Prelude.{◌≡◌, ◌+◌, ◌%◌, ◌^◌, Ok, length};
ghost use Rattle.pan_base.specs.Causes.{HasCause};
ghost use Rattle.pan_base.specs.LineCount.{line_count_told};
ghost use Rattle.pan_base.specs.Sinks.{Puts, feeds};

use crate::sinks::{Sink, SinkFault};
use std::marker::Model;

/// Counts the line feeds of a text that it doesn't keep, modulo 2^64. It never fails.
#[derive(Drop)]
pub struct LineCount {
    lines: u64,
}

impl Model for LineCount {
    ghost use Rattle.std.specs.Prelude.{ℕ};

    ghost Value = { ℕ };

    ghost view = { λ c. c.lines };
}

impl LineCount {
    /// No line yet.
    pub fn new() -> LineCount
        ensures { result ≡ 0 }
    {
        LineCount { lines: 0 }
    }

    /// The number of line feeds so far, modulo 2^64.
    pub fn lines(&self) -> u64
        ensures { result ≡ self.now }
    {
        self.lines
    }
}

fn feeds_of(text: &[u8]) -> usize
    ensures { result ≡ feeds text.now }
{
    text.iter().filter(|b| **b == b'\n').count()
}

impl Sink for LineCount {
    ghost state = { line_count_told };

    /// Takes the whole piece.
    fn put(&mut self, piece: &[u8]) -> Result<usize, SinkFault>
        ensures took { Puts (line_count_told self.old) (line_count_told self.new) result piece.now }
        ensures cause { HasCause (line_count_told self.old).faults (line_count_told self.new).faults result }
        ensures whole { result ≡ Ok (length piece.now) }
        ensures counted { self.new ≡ (self.old + feeds piece.now) % 2 ^ 64 }
    {
        self.lines = self.lines.wrapping_add(feeds_of(piece) as u64);
        Ok(piece.len())
    }
}
