//! Reads the names part of an image.

ghost use Rattle.std.specs.Prelude.{◌≡◌, ◌⊎◌, ◌≤◌, None, Some, IsTrue, IfOk, IfErr, OnOk, length, nat_lt, [], ◌∷◌, ◌++◌};
ghost use Rattle.std.specs.List.{list_all};
ghost use Rattle.std.specs.Option.{option_map};
ghost use Rattle.pan_base.specs.Names as names;
ghost use Rattle.pan_base.specs.Names.{is_short_foreign_name};
ghost use Rattle.riscv_isa.specs.Image.{are_foreign_names};
ghost use Rattle.image_file.specs.Faults.{first_fault, name_tests};
ghost use Rattle.image_file.specs.Fields.{front_name, names_at};

use crate::error::ImageError;
use byteorder::{ByteOrder, LittleEndian};
use pan_base::{Blob, List};
use std::alloc::Global;
use std::collections::BTreeSet;

fn is_letter(byte: u8) -> bool
    ensures { result ≡ names.is_letter byte }
{
    byte.is_ascii_alphabetic() || byte == b'_'
}

fn is_word_byte(byte: u8) -> bool
    ensures { result ≡ names.is_word_byte byte }
{
    is_letter(byte) || byte.is_ascii_digit()
}

fn are_word_bytes(bytes: &[u8]) -> bool
    ensures { result ≡ list_all names.is_word_byte bytes.now }
{
    bytes.iter().all(|byte| is_word_byte(*byte))
}

/// Whether the bytes are a letter or `_` and then letters, digits and `_`.
fn is_spelled(name: &[u8]) -> bool
    ensures { result ≡ names.is_spelled name.now }
{
    match name.split_first() {
        Some((first, rest)) => is_letter(*first) && are_word_bytes(rest),
        None => false,
    }
}

/// Whether the bytes may be the name of a foreign function.
fn is_lawful(name: &[u8]) -> bool
    ensures { result ≡ is_short_foreign_name name.now }
{
    is_spelled(name) && name != b"base".as_slice() && name != b"biw".as_slice() && name.len() <= 64
}

/// The name at the front of a names part, and the bytes after it.
#[tactic(auto, unfolding(crate::specs::Fields::front_name))]
fn front_of(part: &[u8]) -> Option<(&[u8], &[u8])>
    ensures { option_map (λ n. (n.0.now, n.1.now)) result ≡ front_name part.now }
{
    if part.len() < 2 {
        return None;
    }
    let length = LittleEndian::read_u16(part) as usize;
    let rest = &part[2..];
    if rest.len() < length {
        return None;
    }
    Some(rest.split_at(length))
}

/// The first `count` names of a names part, and the bytes after them.
pub fn first_names(
    alloc: Global,
    part: &[u8],
    count: u32,
) -> Result<(List<Blob>, &[u8]), ImageError>
    ensures right { OnOk result (first_fault (name_tests part.now 0 count) ≡ None) }
    ensures value { IfOk result (λ r. names_at count part.now ≡ Some (r.0, r.1.now)) }
    ensures lawful { IfOk result (λ r. IsTrue (are_foreign_names r.0)) }
    ensures fault { IfErr result (λ e.
        (e ≡ ImageError.NoMemory) ⊎ (first_fault (name_tests part.now 0 count) ≡ Some e)) }
{
    let mut names = List::new(alloc);
    let mut seen: BTreeSet<&[u8], Global> = BTreeSet::new(alloc);
    let mut rest = part;
    'names: for i in 0..count {
        let Some((name, after)) = front_of(rest) else {
            return Err(ImageError::BadName(i));
        };
        if !is_lawful(name) || !seen.insert(name)? {
            return Err(ImageError::BadName(i));
        }
        names.push(Blob::from_slice(alloc, name)?)?;
        rest = after;
    }
    Ok((names, rest))
}
