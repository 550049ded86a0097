//! Data memory.

ghost use Rattle.std.specs.Prelude.{◌≡◌, ◌+◌, ◌*◌, ◌%◌, ◌^◌, ◌≤◌, ◌<◌, ◌==◌, [], length, replicate, IfOk};
ghost use Rattle.pan_base.specs.Events.{byte_count};
ghost use Rattle.pan_base.specs.Bytes.{is_within, number_at, with_number, part, with_part};
ghost use Rattle.riscv_isa.specs.Regions.{is_in, bytes_of, with_bytes, place_of};
ghost use Rattle.riscv_isa.specs.declared.place.Region.TheVariants.{Local};
ghost use Rattle.riscv_machine.specs.Places.{EndsWithin, IsSmall};

use pan_base::{NoMemory, Size};
use riscv_isa::{Buffer, Place, Region};
use std::alloc::Global;
use std::marker::Model;

/// The bytes of each region of data memory.
#[derive(Drop)]
pub struct DataMemory {
    block: Vec<u8>,
    globals: Vec<u8>,
    local: Vec<u8>,
    stack: Vec<u8>,
}

impl Model for DataMemory {
    ghost use Rattle.riscv_isa.specs.Regions.{Memory};
    ghost use Rattle.riscv_machine.specs.Places.{IsSmall};

    ghost Value = { Memory };

    ghost view = { λ d. record {
      block = d.block.items;
      globals = d.globals.items;
      local = d.local.items;
      stack = d.stack.items;
    } };

    ghost invariant = { λ d. IsSmall (record {
      block = d.block.items;
      globals = d.globals.items;
      local = d.local.items;
      stack = d.stack.items;
    }) };
}

/// Whether an access of so many bytes lies wholly in what begins at `from` and has `count` bytes.
fn is_within(from: u64, count: u64, addr: u64, size: u64) -> bool
    requires { from + count < 2 ^ 64 }
    ensures { result ≡ is_within from count addr size }
{
    addr >= from && size <= count && addr - from <= count - size
}

/// Whether the address is a multiple of the size.
fn is_aligned(addr: u64, size: Size) -> bool
    ensures { result ≡ (addr % byte_count size == 0) }
{
    match size {
        Size::B1 => true,
        Size::B2 => addr % 2 == 0,
        Size::B4 => addr % 4 == 0,
        Size::B8 => addr % 8 == 0,
    }
}

/// So many zero bytes.
fn zeros(alloc: Global, count: usize) -> Result<Vec<u8>, NoMemory>
    ensures { IfOk result (λ v. v.items ≡ replicate count 0) }
{
    Ok(vec![in alloc; 0; count]?)
}

/// The number of the bytes at a place, the lowest first.
fn read_number(bytes: &[u8], at: usize, size: Size) -> u64
    requires { at + byte_count size ≤ length bytes.now }
    ensures value { result ≡ number_at size bytes.now at }
    ensures bound { result < 2 ^ (8 * byte_count size) }
{
    match size {
        Size::B1 => u64::from(bytes[at]),
        Size::B2 => {
            let s = &bytes[at..at + 2];
            u64::from(u16::from_le_bytes([s[0], s[1]]))
        }
        Size::B4 => {
            let s = &bytes[at..at + 4];
            u64::from(u32::from_le_bytes([s[0], s[1], s[2], s[3]]))
        }
        Size::B8 => {
            let s = &bytes[at..at + 8];
            u64::from_le_bytes([s[0], s[1], s[2], s[3], s[4], s[5], s[6], s[7]])
        }
    }
}

/// The word of four bytes at a place, the lowest first.
pub fn read_word(bytes: &[u8], at: usize) -> u32
    requires { at + 4 ≤ length bytes.now }
    ensures { result ≡ number_at Size.B4 bytes.now at }
{
    let s = &bytes[at..at + 4];
    u32::from_le_bytes([s[0], s[1], s[2], s[3]])
}

/// Puts the number's low bytes at a place, the lowest first.
fn write_number(bytes: &mut [u8], at: usize, size: Size, value: u64)
    requires { at + byte_count size ≤ length bytes.old }
    ensures { bytes.new ≡ with_number size bytes.old at value }
{
    let low = value.to_le_bytes();
    match size {
        Size::B1 => bytes[at..at + 1].copy_from_slice(&low[..1]),
        Size::B2 => bytes[at..at + 2].copy_from_slice(&low[..2]),
        Size::B4 => bytes[at..at + 4].copy_from_slice(&low[..4]),
        Size::B8 => bytes[at..at + 8].copy_from_slice(&low),
    }
}

impl DataMemory {
    /// The memory at a start: a block of 1,024 zero bytes, no globals, a copy of `local`, and a stack of zeros.
    pub fn new(alloc: Global, local: &[u8], stack: u64) -> Result<DataMemory, NoMemory>
        requires local { length local.now ≤ 67108864 }
        requires stack { stack ≤ 67108864 }
        ensures { IfOk result (λ d. d ≡ record {
          block = replicate 1024 0;
          globals = [];
          local = local.now;
          stack = replicate stack 0;
        }) }
    {
        Ok(DataMemory {
            block: zeros(alloc, 1024)?,
            globals: Vec::new(alloc),
            local: Vec::from_slice(alloc, local)?,
            stack: zeros(alloc, stack as usize)?,
        })
    }

    /// The bytes of local memory.
    pub fn local(&self) -> &[u8]
        ensures { result.now ≡ self.now.local }
    {
        self.local.as_slice()
    }

    /// A part of local memory.
    pub fn part(&self, buffer: Buffer) -> &[u8]
        requires { buffer.at + buffer.count ≤ length self.now.local }
        ensures bytes { result.now ≡ part self.now.local buffer.at buffer.count }
        ensures size { length result.now ≡ buffer.count }
    {
        let at = buffer.at as usize;
        &self.local[at..at + buffer.count as usize]
    }

    /// Where an access goes: its address is a multiple of its size, and it lies wholly in one region or in the shared
    /// window, 0x40000000 to 0x7fffffff.
    #[tactic(auto, unfolding(riscv_isa::specs::Regions::place_of))]
    pub fn find_place(&self, addr: u64, size: Size) -> Place
        ensures place { result ≡ place_of self.now addr (byte_count size) }
        ensures bounds { EndsWithin self.now (byte_count size) result }
    {
        let count = size.bytes();
        if !is_aligned(addr, size) {
            Place::Nowhere
        } else if is_within(0x0800_0000, self.block.len() as u64, addr, count) {
            Place::In(Region::Block, addr - 0x0800_0000)
        } else if is_within(0x0c00_0000, self.globals.len() as u64, addr, count) {
            Place::In(Region::Globals, addr - 0x0c00_0000)
        } else if is_within(0x1000_0000, self.local.len() as u64, addr, count) {
            Place::In(Region::Local, addr - 0x1000_0000)
        } else if is_within(0x2000_0000, self.stack.len() as u64, addr, count) {
            Place::In(Region::Stack, addr - 0x2000_0000)
        } else if is_within(0x4000_0000, 0x4000_0000, addr, count) {
            Place::Window
        } else {
            Place::Nowhere
        }
    }

    /// Whether so many bytes from an address on lie in local memory.
    pub fn is_local(&self, addr: u64, count: u64) -> bool
        ensures { result ≡ is_in Local self.now addr count }
    {
        is_within(0x1000_0000, self.local.len() as u64, addr, count)
    }

    /// The number that lies at a place of a region.
    pub fn read(&self, region: Region, at: u64, size: Size) -> u64
        requires { at + byte_count size ≤ length (bytes_of region self.now) }
        ensures value { result ≡ number_at size (bytes_of region self.now) at }
        ensures bound { result < 2 ^ (8 * byte_count size) }
    {
        let at = at as usize;
        match region {
            Region::Block => read_number(&self.block, at, size),
            Region::Globals => read_number(&self.globals, at, size),
            Region::Local => read_number(&self.local, at, size),
            Region::Stack => read_number(&self.stack, at, size),
        }
    }

    /// Puts a number's low bytes at a place of a region.
    pub fn write(&mut self, region: Region, at: u64, size: Size, value: u64)
        requires { at + byte_count size ≤ length (bytes_of region self.old) }
        ensures { self.new ≡ with_bytes region (with_number size (bytes_of region self.old) at value) self.old }
    {
        let at = at as usize;
        match region {
            Region::Block => write_number(&mut self.block, at, size, value),
            Region::Globals => write_number(&mut self.globals, at, size, value),
            Region::Local => write_number(&mut self.local, at, size, value),
            Region::Stack => write_number(&mut self.stack, at, size, value),
        }
    }

    /// Replaces bytes of local memory.
    pub fn replace(&mut self, at: u64, bytes: &[u8])
        requires { at + length bytes.now ≤ length self.old.local }
        ensures { self.new ≡ record self.old { local = with_part self.old.local at bytes.now } }
    {
        let at = at as usize;
        self.local[at..at + bytes.len()].copy_from_slice(bytes);
    }
}
