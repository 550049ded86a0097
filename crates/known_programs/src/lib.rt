//! Known programs through calls that the program `panc` doesn't make, or doesn't show, as tests.
#![tactic(auto)]

#[cfg(test)]
mod tests;
