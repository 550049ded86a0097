//! The pass from homes to frames: each variable is a register of the machine, or a slot of its function's frame.
#![tactic(auto)]

mod bodies;
mod constants;
mod framing;
mod numbering;
mod registers;

pub use framing::{frame_bytes, frames};
