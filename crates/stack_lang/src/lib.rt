//! The stage over frames: structured code over the registers of the machine and the slots of a frame. Its trees, and what
//! they mean (`specs/`).
#![tactic(auto)]

mod fronts;
mod program;
mod syntax;

pub use fronts::words_before_slots;
pub use program::StackProg;
pub use syntax::{Catch, StackFun, Stmt};
