//! Where a part of a source stands.

/// The place of a part of a source, in bytes: its first, and the one after its last.
#[derive(Clone, Copy, Debug, PartialEq, Eq)]
pub struct Span {
    pub start: u32,
    pub end: u32,
}
