//! What known programs cost and do, by their meaning.
#![tactic(auto)]

mod laws;

pub use laws::known_meanings;
