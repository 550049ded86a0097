//! What known programs of the stages' languages do, by their meaning. The same ones stand in each language from words to
//! frames, so that a language that means something else shows here. Beside them stand lines at their layouts, small flows,
//! and programs that are well formed or not.
#![tactic(auto)]

mod flow_laws;
mod lab_laws;
mod laws;
mod room_laws;
mod stack_laws;

pub use flow_laws::known_flows;
pub use lab_laws::known_lab;
pub use laws::{known_crep, known_loop, known_word};
pub use room_laws::known_room;
pub use stack_laws::known_stack;
