//! Homes of variables, and programs whose variables are homes (`specs/`).
#![tactic(auto)]

mod homes;
mod laws;
mod own_slots;
mod renaming;
#[cfg(test)]
mod tests;
mod variables;

pub use homes::{Colours, Home};
pub use laws::{different_slots_are_accepted, renamed_is_well_formed, renaming_keeps};
pub use own_slots::slots;
pub use renaming::apply;
