//! What a program does that keeps every rule of the check: definitions (`specs/`), and laws.
#![tactic(auto)]

mod laws;

pub use laws::{
    checked_programs_are_guarded, expressions_keep_shapes, refuses_what_is_ill,
    statements_fail_by_steps, work_is_weight,
};
