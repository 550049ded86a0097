//! Shapes of values.

use pan_base::List;

/// What a value consists of.
#[derive(Drop)]
pub enum Shape {
    /// One word.
    Word,
    /// A struct of this many words, two or more.
    Words(u64),
    /// A struct of values of these shapes.
    Group(List<Shape>),
}
