//! The canonical text of the source's trees (`specs/Canonical.antt`), which reads back as the tree that was printed.
#![tactic(auto)]

mod binding;
mod expressions;
mod output;
mod programs;
mod shapes;
mod spelling;
mod statements;
#[cfg(test)]
mod tests;

pub use programs::print;
