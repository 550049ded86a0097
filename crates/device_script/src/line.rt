//! What a line says.

use crate::rules::Rule;
use pan_base::Blob;

/// Bytes of local memory, from an offset on.
#[derive(Debug, Drop)]
pub struct Piece {
    pub offset: u64,
    pub bytes: Blob,
}

/// What a line says that fits the format.
#[derive(Debug, Drop)]
pub enum Line {
    /// Nothing.
    Silence,
    /// A piece of local memory.
    Piece(Piece),
    /// A rule.
    Rule(Rule),
}
