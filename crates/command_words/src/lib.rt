//! The words of the command line, and the order that they give.
#![tactic(auto)]

mod command;
mod error;
mod options;
mod order;
mod reading;
#[cfg(test)]
mod tests;

pub use error::WordsError;
pub use order::{Action, Options, Order, Stage};
pub use reading::read_words;
