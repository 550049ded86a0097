//! Runs sources: an asker that means what the source means.
#![tactic(auto)]

mod asker;
mod evaluating;
mod halt;
mod leaving;
mod local_memory;
mod memory;
mod phase;
mod questions;
mod runner;
mod statements;
mod value;
mod values;
mod variables;
mod waiting;

pub use runner::Runner;
