//! Numbers as they are spelled, in files and on the command line.
#![tactic(auto)]

mod numbers;

pub use numbers::number;
