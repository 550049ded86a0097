//! The machine that runs an image.
#![tactic(auto)]

mod access;
mod asker;
mod control;
mod environment;
mod machine;
mod memory;
mod results;
mod step;
#[cfg(test)]
mod tests;

pub use machine::Machine;
