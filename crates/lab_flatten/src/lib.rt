//! From structured code over frames to lines.
#![tactic(auto)]

mod blocks;
mod emptiness;
mod flattening;
mod outer_rows;
mod rows;
mod statements;

pub use flattening::flatten_code;
