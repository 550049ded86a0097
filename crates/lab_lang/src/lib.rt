//! The last stage before bytes: flat code with labels. Its lines, and what they do at a layout (`specs/`).
#![tactic(auto)]

mod laws;
mod program;
mod syntax;

pub use laws::lines_go_on;
pub use program::LabProg;
pub use syntax::{LabFun, Line};
