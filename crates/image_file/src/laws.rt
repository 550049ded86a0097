//! Laws of images.

ghost use Rattle.std.specs.Prelude.{◌≡◌, ◌⊎◌, ◌↔◌, ◌-◌, ◌^◌, ◌<◌, ℕ, List, None, Ok, Err};
ghost use Rattle.std.specs.Option.{ForSome};
ghost use Rattle.pan_base.specs.Words.{IsBytes};
ghost use Rattle.riscv_isa.specs.Image.{ImageParts, ImageOf};
ghost use Rattle.image_file.specs.Faults.{fault_of};
ghost use Rattle.image_file.specs.Parts.{parts_of};

use crate::error::ImageError;
use crate::image::Image;
use crate::reading::read_image;
use crate::writing::write_image;
use riscv_isa::{Code, Names};
use std::alloc::Global;

/// Bytes are the image of the same parts always, and are an image exactly where nothing is wrong with them. It does nothing.
pub fn one_image()
    ensures same { (bytes : List ℕ) (parts others : ImageParts) → ImageOf bytes parts → ImageOf bytes others → parts ≡ others }
    ensures faultless { (bytes : List ℕ) (parts : ImageParts) → ImageOf bytes parts → fault_of bytes ≡ None }
    ensures exact { (bytes : List ℕ) → IsBytes bytes → (fault_of bytes ≡ None) ↔ ((parts : ImageParts) × ImageOf bytes parts) }
{}

/// What is written is read as what it is.
pub fn read_written(
    alloc: Global,
    code: &Code,
    names: &Names,
    bound: Option<u64>,
) -> Result<Image, ImageError>
    requires { ForSome bound (λ n. n < 2 ^ 64 - 1) }
    ensures { (result ≡ Ok (parts_of code.now names.now bound)) ⊎ (result ≡ Err ImageError.NoMemory) }
{
    let image = write_image(alloc, code, names, bound)?;
    read_image(alloc, image.as_slice())
}
