//! From steps to operations (`specs/Selected.antt`), without those that nothing uses (`specs/Pruned.antt`).
#![tactic(auto)]

mod bounds;
mod facts;
mod immediates;
mod operands;
mod operators;
mod pruning;
mod selection;
mod uses;
mod whole;

pub use whole::select;
