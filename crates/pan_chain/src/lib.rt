//! From what each pass keeps to an image that is faithful to its program (`specs/`).
#![tactic(auto)]

mod laws;
mod refused;

pub use laws::chain;
pub use refused::refuses_wrong_passes;
