//! What single words say.

ghost use Rattle.std.specs.Prelude.{◌≡◌, ◌<◌};
ghost use Rattle.std.specs.List.{list_all};
ghost use Rattle.pan_base.specs.Names as names;
ghost use Rattle.device_script.specs.Saying as saying;
ghost use Rattle.device_script.specs.Told.{Tells, hex_refusal};

use crate::error::{Cause, LineError};
use hex::FromHexError;
use numerals::number;
use pan_base::{Blob, Size};
use std::alloc::Global;

/// A number below 2^64.
pub fn number_of(word: &[u8]) -> Result<u64, Cause>
    ensures { result ≡ saying.number_said word.now }
{
    number(word).ok_or(Cause::Number)
}

/// The size of an access, in bits.
fn size_of(word: &[u8]) -> Result<Size, Cause>
    ensures { result ≡ saying.size_said word.now }
{
    match number(word) {
        Some(8) => Ok(Size::B1),
        Some(16) => Ok(Size::B2),
        Some(32) => Ok(Size::B4),
        Some(64) => Ok(Size::B8),
        _ => Err(Cause::Size),
    }
}

/// Whether an access of the size is aligned there, and lies in the shared window.
fn is_address(size: Size, addr: u64) -> bool
    ensures { result ≡ saying.is_address size addr }
{
    let count = size.bytes();
    addr % count == 0 && addr >= 0x4000_0000 && addr <= 0x8000_0000 - count
}

/// The address of an access of the size.
fn address_of(size: Size, word: &[u8]) -> Result<u64, Cause>
    ensures { result ≡ saying.address_said size word.now }
{
    let addr = number_of(word)?;
    if is_address(size, addr) {
        Ok(addr)
    } else {
        Err(Cause::Address)
    }
}

/// The size and the address of an access.
pub fn place_of(bits: &[u8], addr: &[u8]) -> Result<(Size, u64), Cause>
    ensures { result ≡ saying.place_said bits.now addr.now }
{
    let size = size_of(bits)?;
    let addr = address_of(size, addr)?;
    Ok((size, addr))
}

fn is_letter(byte: u8) -> bool
    ensures { result ≡ names.is_letter byte }
{
    byte.is_ascii_alphabetic() || byte == b'_'
}

fn is_word_byte(byte: u8) -> bool
    ensures { result ≡ names.is_word_byte byte }
{
    is_letter(byte) || byte.is_ascii_digit()
}

fn are_word_bytes(bytes: &[u8]) -> bool
    ensures { result ≡ list_all names.is_word_byte bytes.now }
{
    bytes.iter().all(|byte| is_word_byte(*byte))
}

fn is_spelled(name: &[u8]) -> bool
    ensures { result ≡ names.is_spelled name.now }
{
    match name.split_first() {
        Some((first, rest)) => is_letter(*first) && are_word_bytes(rest),
        None => false,
    }
}

/// Whether the word may be the name of a foreign function.
pub fn is_name(word: &[u8]) -> bool
    ensures { result ≡ saying.is_name word.now }
{
    is_spelled(word) && word.len() <= 64 && word != b"base".as_slice() && word != b"biw".as_slice()
}

/// Why digits give no bytes.
fn refusal_of(error: FromHexError) -> LineError
    ensures { result ≡ hex_refusal error }
{
    match error {
        FromHexError::OutOfMemory => LineError::NoMemory,
        _ => LineError::Wrong(Cause::Hex),
    }
}

/// The bytes that hexadecimal digits spell, or none for `-`.
pub fn bytes_of(alloc: Global, word: &[u8]) -> Result<Blob, LineError>
    ensures { Tells result (saying.hex_said word.now) }
{
    if word == b"-".as_slice() {
        return Ok(Blob::from_vec(Vec::new(alloc)));
    }
    match hex::decode(alloc, word) {
        Ok(bytes) => Ok(Blob::from_vec(bytes)),
        Err(error) => Err(refusal_of(error)),
    }
}
