//! The first stage: structs are gone, and each variable holds one word. Its trees, and what they mean (`specs/`).
#![tactic(auto)]

mod program;
mod syntax;

pub use program::CrepProg;
pub use syntax::{CrepFun, Expr, Stmt};
