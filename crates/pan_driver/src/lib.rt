//! The whole chain of passes: from a source to its image, with each stage between them kept (`specs/Chained.antt`).
#![tactic(auto)]

mod allocating;
mod building;
mod built;
mod error;
mod laws;
mod lowering;
mod writing;

pub use building::{build, build_checked};
pub use built::{Built, Stages};
pub use error::BuildError;
pub use laws::chained_is_faithful;
