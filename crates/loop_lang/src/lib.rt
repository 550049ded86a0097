//! The second stage: every operand is a variable, and each expression is a step. Its trees, and what they mean (`specs/`).
#![tactic(auto)]

mod program;
mod syntax;

pub use program::LoopProg;
pub use syntax::{LoopFun, Stmt};
