//! From expressions to steps between variables (`specs/Lowered.antt`).
#![tactic(auto)]

mod blocks;
mod flat;
mod functions;
mod lowering;
mod numbers;
mod places;
mod rows;
mod sizes;
mod spine;

pub use functions::lower;
