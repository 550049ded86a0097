//! Checks programs: shapes, scopes and weights.
#![tactic(auto)]

mod blocks;
mod bodies;
mod calls;
mod checked;
mod checking;
mod closing;
mod error;
mod fields;
mod heads;
mod judging;
mod names;
mod refusals;
mod scopes;
mod statements;
mod walking;
mod weights;

pub use checked::Checked;
pub use checking::check;
pub use error::CheckError;
pub use judging::Judged;
pub use pan_tree::Rule;
