//! Programs for the machine whose code isn't linked yet: how the machine starts for them, and that ranges of instructions'
//! fields are facts (`specs/`).
#![tactic(auto)]
