//! What control structure means, for the source and every language between it and the machine. It holds definitions
//! alone (`specs/`).
#![tactic(auto)]
