//! What one script makes of a source and of its image: definitions (`specs/`), and the law that their runs agree.
#![tactic(auto)]

mod laws;
mod refuted;

pub use laws::{agrees_under_script, fills_lawful_memory, given_once};
pub use refuted::refuses_other_runs;
