//! The ways through a function, and which variables are live on them, for every language (`specs/`), with the laws (`proofs/`).
#![tactic(auto)]

mod laws;

pub use laws::pass_is_exact;
