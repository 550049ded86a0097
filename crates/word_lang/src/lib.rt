//! The third stage: each step is an operation of the instruction table on variables. Its trees, and what they mean (`specs/`).
#![tactic(auto)]

mod program;
mod syntax;

pub use program::WordProg;
pub use syntax::{Stmt, Test, WordFun};
