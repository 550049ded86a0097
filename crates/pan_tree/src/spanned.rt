//! A part of the syntax with its place.

use pan_base::Span;

/// A part of the syntax, and where it stands.
#[derive(Drop)]
pub struct Spanned<K> {
    pub kind: K,
    pub span: Span,
}
