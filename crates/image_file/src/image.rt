//! An image that was read.

ghost use Rattle.std.specs.Prelude.{◌≡◌, ◌<◌, length, slice_index_or, []};
ghost use Rattle.riscv_isa.specs.Image.{IsLawfulImage};

use pan_base::{Blob, List};
use std::marker::Model;

/// An image: its code, the names of the foreign functions that it calls, by number, and its bound, if it has one.
#[derive(Debug, Drop)]
pub struct Image {
    code: Blob,
    names: List<Blob>,
    bound: Option<u64>,
}

impl Model for Image {
    ghost use Rattle.riscv_isa.specs.Image.{ImageParts, IsLawfulImage};

    ghost Value = { ImageParts };

    ghost view = { λ i. record { code = i.code; names = i.names; bound = i.bound } };

    ghost invariant = { λ i. IsLawfulImage (record { code = i.code; names = i.names; bound = i.bound }) };
}

impl Image {
    /// The image of these parts.
    pub(crate) fn new(code: Blob, names: List<Blob>, bound: Option<u64>) -> Image
        requires { IsLawfulImage (record { code = code; names = names; bound = bound }) }
        ensures { result ≡ record { code = code; names = names; bound = bound } }
    {
        Image { code, names, bound }
    }

    /// The bytes of the code.
    pub fn code(&self) -> &[u8]
        ensures code { result.now ≡ self.now.code }
        ensures lawful { IsLawfulImage self.now }
    {
        self.code.as_slice()
    }

    /// How many foreign functions there are.
    pub fn name_count(&self) -> usize
        ensures { result ≡ length self.now.names }
    {
        self.names.len()
    }

    /// The name of a foreign function.
    pub fn name(&self, i: usize) -> &[u8]
        requires { i < length self.now.names }
        ensures { result.now ≡ slice_index_or self.now.names i [] }
    {
        self.names.as_slice()[i].as_slice()
    }

    /// The bound on the stack, in bytes.
    pub fn bound(&self) -> Option<u64>
        ensures { result ≡ self.now.bound }
    {
        self.bound
    }
}
