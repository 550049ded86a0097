//! Tests and addresses.

ghost use Rattle.std.specs.Prelude.{◌≡◌};
ghost use Rattle.word_select.specs.Selected as selected;

use crate::facts::{Fact, Known, found, number_at};
use crate::immediates::immediate_of;
use pan_base::Cmp;
use word_lang::Test;

/// A variable and an offset.
#[derive(Clone, Copy)]
pub struct Address {
    pub base: u32,
    pub offset: i32,
}

/// A variable, or `None` where it is known to be 0.
fn operand(known: &[Known], x: u32) -> Option<u32>
    ensures { result ≡ selected.operand x known.now }
{
    match number_at(known, x) {
        Some(0) => None,
        _ => Some(x),
    }
}

/// Whether a number isn't 0, as a test that reads no variable.
fn test_of_number(number: u64) -> Test
    ensures { result ≡ selected.test_of_number number }
{
    let comparison = match number {
        0 => Cmp::Ne,
        _ => Cmp::Eq,
    };
    Test {
        comparison,
        left: None,
        right: None,
    }
}

/// Whether a variable isn't 0: by its number or the comparison that gave it, where that is known.
pub fn test_at(known: &[Known], x: u32) -> Test
    ensures { result ≡ selected.test_at x known.now }
{
    match found(known, x) {
        Some(Fact::Number(number)) => test_of_number(number),
        Some(Fact::Compared(comparison, a, b)) => Test {
            comparison,
            left: operand(known, a),
            right: operand(known, b),
        },
        _ => Test {
            comparison: Cmp::Ne,
            left: Some(x),
            right: None,
        },
    }
}

/// The variable as an address: a sum with an immediate where that is known.
pub fn address_at(known: &[Known], x: u32) -> Address
    ensures { result ≡ selected.address_at x known.now }
{
    let itself = Address { base: x, offset: 0 };
    match found(known, x) {
        Some(Fact::Sum(a, c)) => match immediate_of(c) {
            Some(offset) => Address { base: a, offset },
            None => itself,
        },
        _ => itself,
    }
}
