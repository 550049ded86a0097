//! The local memory of a runner.

ghost use Rattle.std.specs.Prelude.{◌≡◌, ◌+◌, ◌≤◌, ◌++◌, Some, None, length, take, drop, IfOk, MatchOption, IsTrue};
ghost use Rattle.std.specs.Bool.{OnTrue, OnFalse};
ghost use Rattle.std.specs.Prelude.{◌%◌};
ghost use Rattle.pan_control.specs.Memory.{bytes_at, with_byte, with_words};
ghost use Rattle.pan_tree.specs.Value.{words_in};
ghost use Rattle.pan_runner.specs.Told.{told};
ghost use Rattle.pan_base.specs.Words.{base_address};
ghost use Rattle.pan_runner.specs.View.{part, is_inside};

use crate::memory;
use crate::questions::Buffer;
use crate::value::Value;
use pan_base::NoMemory;
use std::alloc::Global;
use std::marker::Model;

/// The bytes of local memory.
#[derive(Drop)]
pub struct LocalMemory {
    bytes: Vec<u8>,
}

impl Model for LocalMemory {
    ghost use Rattle.std.specs.Prelude.{List, ℕ};

    ghost Value = { List ℕ };

    ghost view = { λ m. m.bytes.items };
}

impl LocalMemory {
    /// A copy of these bytes.
    pub fn new(alloc: Global, bytes: &[u8]) -> Result<LocalMemory, NoMemory>
        ensures { IfOk result (λ m. m ≡ bytes.now) }
    {
        Ok(LocalMemory {
            bytes: Vec::from_slice(alloc, bytes)?,
        })
    }

    /// The bytes.
    pub fn as_slice(&self) -> &[u8]
        ensures { result.now ≡ self.now }
    {
        self.bytes.as_slice()
    }

    /// The part of so many bytes from an address on, if they lie wholly in local memory.
    pub fn buffer(&self, addr: u64, count: u64) -> Option<Buffer>
        ensures { MatchOption result (bytes_at self.now addr count ≡ None) (λ b.
            (bytes_at self.now addr count ≡ Some (part b self.now))
            × (b.at + base_address ≡ addr)
            × IsTrue (is_inside b (length self.now))) }
    {
        match memory::buffer(&self.bytes, addr, count) {
            Some((at, count)) => Some(Buffer { at, count }),
            None => None,
        }
    }

    /// A part of them.
    pub fn part(&self, buffer: Buffer) -> &[u8]
        requires { buffer.at + buffer.count ≤ length self.now }
        ensures bytes { result.now ≡ part buffer self.now }
        ensures size { length result.now ≤ length self.now }
    {
        &self.bytes[buffer.at..buffer.at + buffer.count]
    }

    /// Replaces bytes from a place on.
    pub fn replace(&mut self, at: usize, bytes: &[u8])
        requires { at + length bytes.now ≤ length self.old }
        ensures bytes { self.new ≡ take at self.old ++ bytes.now ++ drop (at + length bytes.now) self.old }
        ensures size { length self.new ≡ length self.old }
    {
        self.bytes[at..at + bytes.len()].copy_from_slice(bytes);
    }

    /// Puts the words of a value from an address on. False: one of them doesn't lie in local memory.
    pub fn store_words(&mut self, addr: u64, value: &Value) -> bool
        ensures stored { OnTrue result (with_words self.old addr (words_in (told value.now)) ≡ Some self.new) }
        ensures refused { OnFalse result (with_words self.old addr (words_in (told value.now)) ≡ None) }
        ensures size { length self.new ≡ length self.old }
    {
        memory::store_words(&mut self.bytes, addr, value)
    }

    /// Puts the low byte of a word at an address. False: it doesn't lie in local memory.
    pub fn store_byte(&mut self, addr: u64, word: u64) -> bool
        ensures stored { OnTrue result (with_byte self.old addr (word % 256) ≡ Some self.new) }
        ensures refused { OnFalse result (with_byte self.old addr (word % 256) ≡ None) }
        ensures size { length self.new ≡ length self.old }
    {
        memory::store_byte(&mut self.bytes, addr, word)
    }
}
