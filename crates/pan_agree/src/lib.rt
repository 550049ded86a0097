//! What it means that an image is faithful to a program (`specs/`), and the law that gives both directions of it.
#![tactic(auto)]

mod laws;
mod refuted;

pub use laws::both_ways;
pub use refuted::refuses_wrong_machines;
