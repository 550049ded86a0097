//! Linked code, and the names that it calls by number.

ghost use Rattle.riscv_isa.specs.Image.{IsLawfulCode, AreLawfulNames};

use pan_base::{Blob, List};

/// Linked code: whole words, and at most 268,439,552 bytes.
///
/// A pair of the layout is the place and the number of instructions of one line of the code's listing.
#[derive(Debug, Drop)]
pub struct Code {
    pub bytes: Blob,
    pub layout: List<(u32, u32)>,
    ghost lawful: { IsLawfulCode bytes },
}

/// The names of foreign functions, each at its number, from 0: at most 1,024, all different, of 1 to 64 bytes each.
#[derive(Debug, Drop)]
pub struct Names {
    pub list: List<Blob>,
    ghost lawful: { AreLawfulNames list },
}
