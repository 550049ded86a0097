//! Numbers that fit an instruction.

ghost use Rattle.std.specs.Prelude.{◌≡◌};
ghost use Rattle.word_select.specs.Facts as facts;

use crate::facts::{Known, number_at};

/// A word as an immediate of 12 bits.
pub fn immediate_of(word: u64) -> Option<i32>
    ensures { result ≡ facts.immediate_of word }
{
    if word < 2048 {
        Some(word as i32)
    } else if word < 0xffff_ffff_ffff_f800 {
        None
    } else {
        Some(-((u64::MAX - word) as i32) - 1)
    }
}

/// The word with the sign turned round.
pub fn negated(word: u64) -> u64
    ensures { result ≡ facts.negated word }
{
    word.wrapping_neg()
}

/// The exponent of a power of two.
fn exponent_of(word: u64) -> Option<u8>
    ensures { result ≡ facts.exponent_of word }
{
    for i in 0..64u8 {
        let exponent = 63 - i;
        if word == 1 << exponent {
            return Some(exponent);
        }
    }
    None
}

/// The immediate that a variable has.
pub fn immediate_at(known: &[Known], variable: u32) -> Option<i32>
    ensures { result ≡ facts.immediate_at variable known.now }
{
    match number_at(known, variable) {
        Some(number) => immediate_of(number),
        None => None,
    }
}

/// The immediate that a variable has, with the sign turned round.
pub fn negated_at(known: &[Known], variable: u32) -> Option<i32>
    ensures { result ≡ facts.negated_at variable known.now }
{
    match number_at(known, variable) {
        Some(number) => immediate_of(negated(number)),
        None => None,
    }
}

/// The exponent of the power of two that a variable has.
pub fn exponent_at(known: &[Known], variable: u32) -> Option<u8>
    ensures { result ≡ facts.exponent_at variable known.now }
{
    match number_at(known, variable) {
        Some(number) => exponent_of(number),
        None => None,
    }
}
