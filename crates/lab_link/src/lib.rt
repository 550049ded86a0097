//! The last pass: from lines with labels to the bytes of their code.
#![tactic(auto)]

mod emit;
mod growing;
mod layout;
mod linking;
mod reach;
#[cfg(test)]
mod tests;

pub use linking::link;
