//! From the bytes of a source to its program, which keeps every rule.
#![tactic(auto)]

mod error;
mod laws;
mod reading;

pub use error::SourceError;
pub use laws::one_reading;
pub use reading::read_program;
