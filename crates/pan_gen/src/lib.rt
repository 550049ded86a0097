//! Makes sources of any number of functions, for tests of the compiler at size.
#![tactic(auto)]

mod generator;
#[cfg(test)]
mod tests;

pub use generator::generate;
