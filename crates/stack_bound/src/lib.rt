//! The bytes of stack that suffice for a program over frames, or a cycle of its calls, for which no number does.
#![tactic(auto)]

mod bounding;
mod calls;
mod cycle;
pub mod types;
mod walk;

pub use bounding::bound;
