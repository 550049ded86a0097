//! Writes images.

ghost use Rattle.std.specs.Prelude.{◌≡◌, ◌≤◌, ◌<◌, ◌^◌, ◌+◌, ◌-◌, ◌%◌, [], ◌∷◌, ◌++◌, length, replicate, IfOk, OnOk, All};
ghost use Rattle.std.specs.Option.{unwrap_or, ForSome};
ghost use Rattle.riscv_isa.specs.Image.{ImageOf, names_part};
ghost use Rattle.image_file.specs.Fields.{padding};
ghost use Rattle.image_file.specs.Parts.{parts_of};
ghost use Rattle.image_file.specs.Split.{header};

use crate::header::padding_of;
use byteorder::{ByteOrder, LittleEndian};
use pan_base::{Blob, NoMemory};
use riscv_isa::{Code, Names};
use std::alloc::Global;

/// The first 32 bytes of an image.
fn header_of(code: u32, count: u32, bound: u64, names: u32) -> [u8; 32]
    ensures { result ≡ header code count bound names }
{
    let mut bytes = [0; 32];
    bytes[..4].copy_from_slice(b"PNK1");
    LittleEndian::write_u32(&mut bytes[4..], code);
    LittleEndian::write_u32(&mut bytes[12..], count);
    LittleEndian::write_u64(&mut bytes[16..], bound);
    LittleEndian::write_u32(&mut bytes[24..], names);
    bytes
}

/// Writes a name after its length.
fn push_name(part: &mut Vec<u8>, name: &[u8]) -> Result<(), NoMemory>
    requires { length name.now ≤ 64 }
    ensures { OnOk result (part.new.items ≡ part.old.items ++ names_part (name.now ∷ [])) }
{
    let mut length = [0; 2];
    LittleEndian::write_u16(&mut length, name.len() as u16);
    part.extend_from_slice(&length)?;
    part.extend_from_slice(name)?;
    Ok(())
}

/// The names part of an image.
fn names_part_of(alloc: Global, names: &[Blob]) -> Result<Vec<u8>, NoMemory>
    requires { All (λ name. length name ≤ 64) names.now }
    ensures { IfOk result (λ part. part.items ≡ names_part names.now) }
{
    let mut part = Vec::new(alloc);
    for name in names {
        push_name(&mut part, name.as_slice())?;
    }
    Ok(part)
}

/// The zeros that fill so many bytes up to a multiple of 4.
fn zeros_after(length: usize) -> &'static [u8]
    ensures { result.now ≡ replicate (padding length) 0 }
{
    &[0; 3][..padding_of(length)]
}

/// The parts of an image in a row, with zeros after the names part up to a multiple of 4.
fn join(alloc: Global, header: &[u8], part: &[u8], code: &[u8]) -> Result<Blob, NoMemory>
    requires header { length header.now ≡ 32 }
    requires part { length part.now < 2 ^ 32 }
    requires code { length code.now < 2 ^ 32 }
    ensures { IfOk result (λ image.
        image ≡ header.now ++ part.now ++ replicate (padding (length part.now)) 0 ++ code.now) }
{
    let zeros = zeros_after(part.len());
    let mut image = Vec::with_capacity(alloc, 32 + part.len() + zeros.len() + code.len())?;
    image.extend_from_slice(header)?;
    image.extend_from_slice(part)?;
    image.extend_from_slice(zeros)?;
    image.extend_from_slice(code)?;
    Ok(Blob::from_vec(image))
}

/// The image of this code, with these names and this bound, which is below 2^64 - 1.
pub fn write_image(
    alloc: Global,
    code: &Code,
    names: &Names,
    bound: Option<u64>,
) -> Result<Blob, NoMemory>
    requires { ForSome bound (λ n. n < 2 ^ 64 - 1) }
    ensures { IfOk result (λ image. ImageOf image (parts_of code.now names.now bound)) }
{
    let code = code.bytes.as_slice();
    let names = names.list.as_slice();
    let part = names_part_of(alloc, names)?;
    let header = header_of(
        code.len() as u32,
        names.len() as u32,
        bound.unwrap_or(u64::MAX),
        part.len() as u32,
    );
    join(alloc, &header, &part, code)
}
