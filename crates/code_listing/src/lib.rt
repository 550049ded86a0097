//! The listing of code: for each word its place, the word itself, and the instruction that it stands for in the assembly
//! of RISC-V.
#![tactic(auto)]

mod line;
mod listing;
mod mnemonics;
mod operand;
#[cfg(test)]
mod tests;

pub use listing::{put_instr, put_listing};
