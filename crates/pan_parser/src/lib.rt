//! From the tokens of a source to its tree.
#![tactic(auto)]

mod calls;
mod cursor;
mod error;
mod expressions;
mod items;
mod laws;
mod operators;
mod parsing;
mod shapes;
mod simple;
mod statements;
mod text;

pub use error::ParseError;
pub use laws::{one_answer, one_tree};
pub use parsing::parse;
