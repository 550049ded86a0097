//! Reads images.

ghost use Rattle.std.specs.Prelude.{◌≡◌, ◌≢◌, ◌⊎◌, ◌-◌, ◌≤◌, ◌==◌, not, None, Some, Ok, Err, IfOk, IfErr, OnOk, length};
ghost use Rattle.std.specs.List.{list_any};
ghost use Rattle.riscv_isa.specs.Image.{ImageParts, ImageOf};
ghost use Rattle.image_file.specs.Faults.{first_fault, end_tests, fault_of};
ghost use Rattle.image_file.specs.Fields.{header_of, size};
ghost use Rattle.image_file.specs.Split.{AreParts, bound_in};

use crate::error::{FieldName, ImageError};
use crate::header::{Header, padding_of, read_header};
use crate::image::Image;
use crate::names::first_names;
use pan_base::Blob;
use std::alloc::Global;

/// What stands behind the header: the names part, the bytes that fill it up, the code, and what is left.
#[derive(Clone, Copy)]
struct Parts<'x> {
    names: &'x [u8],
    padding: &'x [u8],
    code: &'x [u8],
    tail: &'x [u8],
}

/// The parts of bytes that have all that their header asks for.
fn parts_of<'x>(bytes: &'x [u8], header: &Header) -> Parts<'x>
    requires header { header.now ≡ header_of bytes.now }
    requires there { size header.now ≤ length bytes.now }
    ensures { AreParts bytes.now result.names.now result.padding.now result.code.now result.tail.now }
{
    let names_len = header.names_len as usize;
    let (names, rest) = bytes[32..].split_at(names_len);
    let (padding, rest) = rest.split_at(padding_of(names_len));
    let (code, tail) = rest.split_at(header.code_len as usize);
    Parts {
        names,
        padding,
        code,
        tail,
    }
}

fn has_other_than_zero(padding: &[u8]) -> bool
    ensures { result ≡ list_any (λ b. not (b == 0)) padding.now }
{
    padding.iter().any(|byte| *byte != 0)
}

/// What is wrong with the bytes that are left of the names part, with the padding, or with the bytes after the code.
fn wrong_end(left: &[u8], padding: &[u8], tail: &[u8]) -> Option<ImageError>
    ensures { result ≡ first_fault (end_tests left.now padding.now tail.now) }
{
    if !left.is_empty() {
        Some(ImageError::Field(FieldName::Names))
    } else if has_other_than_zero(padding) {
        Some(ImageError::Padding)
    } else if !tail.is_empty() {
        Some(ImageError::Tail)
    } else {
        None
    }
}

/// The bound that a word of 64 bits stands for: none for 2^64 - 1.
fn bound_of(word: u64) -> Option<u64>
    ensures { result ≡ bound_in word }
{
    if word == u64::MAX { None } else { Some(word) }
}

/// The image that the bytes are.
fn read(alloc: Global, bytes: &[u8]) -> Result<Image, ImageError>
    ensures found { IfOk result (λ image. ImageOf bytes.now image) }
    ensures right { OnOk result (fault_of bytes.now ≡ None) }
    ensures fault { IfErr result (λ e. (e ≡ ImageError.NoMemory) ⊎ (fault_of bytes.now ≡ Some e)) }
{
    let header = read_header(bytes)?;
    let parts = parts_of(bytes, &header);
    let (names, left) = first_names(alloc, parts.names, header.name_count)?;
    if let Some(error) = wrong_end(left, parts.padding, parts.tail) {
        return Err(error);
    }
    let code = Blob::from_slice(alloc, parts.code)?;
    Ok(Image::new(code, names, bound_of(header.bound)))
}

/// The image that the bytes are, or the first fault of theirs. Any bound is lawful; the word 2^64 - 1 stands for none.
pub fn read_image(alloc: Global, bytes: &[u8]) -> Result<Image, ImageError>
    // What is read is an image, and these are its parts.
    ensures ok { IfOk result (λ image. ImageOf bytes.now image) }

    // An error is the first fault, or want of memory; and the first fault is the error, but for want of memory.
    ensures faults { (e : ImageError) → result ≡ Err e → e ≢ ImageError.NoMemory → fault_of bytes.now ≡ Some e }
    ensures refuses { (e : ImageError) → fault_of bytes.now ≡ Some e →
        (result ≡ Err e) ⊎ (result ≡ Err ImageError.NoMemory) }

    // An image is read as what it is, but for want of memory.
    ensures complete { (parts : ImageParts) → ImageOf bytes.now parts → (result ≡ Ok parts) ⊎ (result ≡ Err ImageError.NoMemory) }
{
    read(alloc, bytes)
}
