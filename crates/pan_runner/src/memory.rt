//! Local memory: bytes from the address 0x10000000 on. A word lies there at a multiple of 8, its lowest byte first.

ghost use Rattle.std.specs.Prelude.{◌≡◌, ◌+◌, ◌-◌, ◌%◌, ◌≤◌, Some, None, length, IfOk, IfSome};
ghost use Rattle.std.specs.Bool.{OnTrue, OnFalse};
ghost use Rattle.std.specs.Option.{is_some};
ghost use Rattle.pan_base.specs.Words.{base_address};
ghost use Rattle.pan_control.specs.Memory.{is_local, is_local_word, byte_at, with_byte, word_at, with_word, words_at, with_words};
ghost use Rattle.pan_tree.specs.Value.{words_in};
ghost use Rattle.pan_runner.specs.Told.{told};
ghost use Rattle.pan_runner.specs.Stored.{words_in_each, IsStored};

use crate::value::Value;
use pan_base::{List, NoMemory};
use std::alloc::Global;

/// The address at which local memory begins.
const BASE_ADDRESS: u64 = 0x1000_0000;

/// The number of bytes in a word.
const BYTES_IN_WORD: u64 = 8;

/// Where so many bytes from an address on begin in local memory, and how many they are, if they lie wholly in it.
pub fn buffer(memory: &[u8], addr: u64, count: u64) -> Option<(usize, usize)>
    ensures local { is_some result ≡ is_local memory.now addr count }
    ensures place { IfSome result (λ b. b.0 ≡ addr - base_address) }
    ensures size { IfSome result (λ b. b.1 ≡ count) }
    ensures within { IfSome result (λ b. b.0 + b.1 ≤ length memory.now) }
{
    let at = addr.checked_sub(BASE_ADDRESS)?;
    let size = memory.len() as u64;
    if at <= size && count <= size - at {
        Some((at as usize, count as usize))
    } else {
        None
    }
}

/// Where the word at an address begins in local memory, if it lies wholly in it.
fn word_place(memory: &[u8], addr: u64) -> Option<usize>
    ensures local { is_some result ≡ is_local_word memory.now addr }
    ensures place { IfSome result (λ at. at ≡ addr - base_address) }
    ensures within { IfSome result (λ at. at + 8 ≤ length memory.now) }
{
    let (at, _) = buffer(memory, addr, BYTES_IN_WORD)?;
    if addr % BYTES_IN_WORD == 0 {
        Some(at)
    } else {
        None
    }
}

/// The word at the address.
pub fn load_word(memory: &[u8], addr: u64) -> Option<u64>
    ensures { result ≡ word_at memory.now addr }
{
    let at = word_place(memory, addr)?;
    let s = &memory[at..at + 8];
    Some(u64::from_le_bytes([s[0], s[1], s[2], s[3], s[4], s[5], s[6], s[7]]))
}

/// The byte at the address.
pub fn load_byte(memory: &[u8], addr: u64) -> Option<u64>
    ensures { result ≡ byte_at memory.now addr }
{
    let (at, _) = buffer(memory, addr, 1)?;
    Some(u64::from(memory[at]))
}

/// The words from the address on, so many.
pub fn load_words(
    alloc: Global,
    memory: &[u8],
    addr: u64,
    count: u64,
) -> Result<Option<List<u64>>, NoMemory>
    ensures { IfOk result (λ o. o ≡ words_at memory.now addr count) }
{
    let mut words = List::new(alloc);
    let mut at = addr;
    for _ in 0..count {
        match load_word(memory, at) {
            Some(word) => words.push(word)?,
            None => return Ok(None),
        }
        at = at.wrapping_add(BYTES_IN_WORD);
    }
    Ok(Some(words))
}

/// Puts the low byte of a value at the address. False: the byte doesn't lie in local memory.
pub fn store_byte(memory: &mut [u8], addr: u64, value: u64) -> bool
    ensures stored { OnTrue result (with_byte memory.old addr (value % 256) ≡ Some memory.new) }
    ensures refused { OnFalse result (with_byte memory.old addr (value % 256) ≡ None) }
    ensures same_length { length memory.new ≡ length memory.old }
{
    match buffer(memory, addr, 1) {
        Some((at, _)) => {
            memory[at] = (value % 256) as u8;
            true
        }
        None => false,
    }
}

/// Puts a word at the address. False: the word doesn't lie in local memory.
fn store_word(memory: &mut [u8], addr: u64, word: u64) -> bool
    ensures stored { OnTrue result (with_word memory.old addr word ≡ Some memory.new) }
    ensures refused { OnFalse result (with_word memory.old addr word ≡ None) }
    ensures same_length { length memory.new ≡ length memory.old }
{
    match word_place(memory, addr) {
        Some(at) => {
            memory[at..at + 8].copy_from_slice(&word.to_le_bytes());
            true
        }
        None => false,
    }
}

/// Puts the words of a value from the address on: the address behind them, or nothing where one doesn't lie in local
/// memory.
#[cycle(store)]
fn store_value(memory: &mut [u8], addr: u64, value: &Value) -> Option<u64>
    ensures written { IsStored memory.old addr (words_in (told value.now)) memory.new result }
    ensures same_length { length memory.new ≡ length memory.old }
{
    match value {
        Value::Word(word) => {
            if store_word(memory, addr, *word) {
                Some(addr.wrapping_add(BYTES_IN_WORD))
            } else {
                None
            }
        }
        Value::Struct(parts) => store_each(memory, addr, parts.as_slice()),
    }
}

/// Puts the words of values from the address on, one value after another.
#[cycle(store)]
fn store_each(memory: &mut [u8], addr: u64, values: &[Value]) -> Option<u64>
    ensures written { IsStored memory.old addr (words_in_each values.now) memory.new result }
    ensures same_length { length memory.new ≡ length memory.old }
{
    let mut at = addr;
    for value in values {
        at = store_value(memory, at, value)?;
    }
    Some(at)
}

/// Puts the words of a value from the address on. False: one of them doesn't lie in local memory, which may then have
/// those before it.
pub fn store_words(memory: &mut [u8], addr: u64, value: &Value) -> bool
    ensures stored { OnTrue result (with_words memory.old addr (words_in (told value.now)) ≡ Some memory.new) }
    ensures refused { OnFalse result (with_words memory.old addr (words_in (told value.now)) ≡ None) }
    ensures same_length { length memory.new ≡ length memory.old }
{
    store_value(memory, addr, value).is_some()
}
