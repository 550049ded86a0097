//! Reads the first 32 bytes of an image.

ghost use Rattle.std.specs.List.{starts_with};
ghost use Rattle.std.specs.Option.{option_map};
ghost use Rattle.std.specs.Prelude.{OnOk, ◌≡◌, ◌≤◌, ◌<◌, ◌+◌, ◌^◌, nat_eq, None, Some, IsTrue, IfOk, IfErr, length, nat_lt, take, codes};
ghost use Rattle.image_file.specs.Faults.{first_fault, field_tests, header_tests};
ghost use Rattle.image_file.specs.Fields.{header_of, padding, size};

use crate::error::{FieldName, ImageError};
use byteorder::{ByteOrder, LittleEndian};

/// The most bytes of code.
const MOST_CODE: u32 = 268_439_552;

/// The most names.
const MOST_NAMES: u32 = 1_024;

/// The most bytes of the names part.
const MOST_NAME_BYTES: u32 = 67_584;

/// What the fields say.
#[derive(Clone, Copy, Debug)]
pub struct Header {
    pub code_len: u32,
    pub entry: u32,
    pub name_count: u32,
    pub bound: u64,
    pub names_len: u32,
    pub zero: u32,
}

/// Whether the bytes that are there of the first four are those of `PNK1`.
fn begins_right(bytes: &[u8]) -> bool
    ensures { result ≡ starts_with nat_eq (codes "PNK1") (take 4 bytes.now) }
{
    b"PNK1".starts_with(&bytes[..bytes.len().min(4)])
}

/// The fields of the first 32 bytes.
#[tactic(auto, unfolding(crate::specs::Fields::header_of))]
fn fields_of(bytes: &[u8]) -> Header
    requires { 32 ≤ length bytes.now }
    ensures { result ≡ header_of bytes.now }
{
    Header {
        code_len: LittleEndian::read_u32(&bytes[4..]),
        entry: LittleEndian::read_u32(&bytes[8..]),
        name_count: LittleEndian::read_u32(&bytes[12..]),
        bound: LittleEndian::read_u64(&bytes[16..]),
        names_len: LittleEndian::read_u32(&bytes[24..]),
        zero: LittleEndian::read_u32(&bytes[28..]),
    }
}

/// How many bytes fill so many up to a multiple of 4.
pub fn padding_of(length: usize) -> usize
    ensures { result ≡ padding length }
{
    (4 - length % 4) % 4
}

/// How many bytes the fields ask for.
fn size_of(header: &Header) -> usize
    ensures { result ≡ size header.now }
{
    let names_len = header.names_len as usize;
    32 + names_len + padding_of(names_len) + header.code_len as usize
}

/// The first field that is wrong.
fn wrong_field(header: &Header) -> Option<FieldName>
    ensures { option_map ImageError.Field result ≡ first_fault (field_tests header.now) }
{
    if header.code_len % 4 != 0 || header.code_len > MOST_CODE {
        Some(FieldName::Code)
    } else if header.entry != 0 {
        Some(FieldName::Entry)
    } else if header.name_count > MOST_NAMES {
        Some(FieldName::Count)
    } else if header.names_len > MOST_NAME_BYTES {
        Some(FieldName::Names)
    } else if header.zero != 0 {
        Some(FieldName::Zero)
    } else {
        None
    }
}

/// The header at the front of the bytes, which has all that it asks for behind it.
pub fn read_header(bytes: &[u8]) -> Result<Header, ImageError>
    ensures right { OnOk result (first_fault (header_tests bytes.now) ≡ None) }
    ensures value { IfOk result (λ h. h ≡ header_of bytes.now) }
    ensures there { OnOk result (size (header_of bytes.now) ≤ length bytes.now) }
    ensures fault { IfErr result (λ e. first_fault (header_tests bytes.now) ≡ Some e) }
{
    if !begins_right(bytes) {
        return Err(ImageError::Magic);
    }
    if bytes.len() < 32 {
        return Err(ImageError::Short);
    }
    let header = fields_of(bytes);
    if let Some(field) = wrong_field(&header) {
        return Err(ImageError::Field(field));
    }
    if bytes.len() < size_of(&header) {
        return Err(ImageError::Short);
    }
    Ok(header)
}
