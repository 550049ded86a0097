//! Values.

use pan_base::List;

/// A value of the source.
#[derive(Drop)]
pub enum Value {
    /// One word.
    Word(u64),
    /// A struct of these parts.
    Struct(List<Value>),
}
