//! What programs of every language are made of.

use pan_base::{Blob, List};

/// A program over functions `F`. Functions, exceptions and foreign functions are named by their numbers, from 0.
#[derive(Drop)]
pub struct Program<F> {
    pub functions: List<F>,
    /// The function that runs first.
    pub main: u32,
    /// How many words each exception carries.
    pub exceptions: List<u32>,
    /// The names of the foreign functions.
    pub names: List<Blob>,
    /// The first contents of the globals, in words.
    pub globals: List<u64>,
}

/// What catches an exception of a call: its words go to variables, and the body runs.
#[derive(Drop)]
pub struct Handler<S> {
    /// The number of the exception.
    pub exception: u32,
    pub variables: List<u32>,
    pub body: S,
}
