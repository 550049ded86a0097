//! What is kept on the way through a body.

use crate::heads::Heads;
use crate::names::Names;
use crate::scopes::Scopes;
use pan_tree::Shape;
use std::alloc::Global;

/// What a statement stands in.
#[derive(Drop)]
pub struct Around<'a> {
    pub alloc: Global,
    /// The program's exceptions and functions.
    pub heads: &'a Heads<'a>,
    /// The shape of the function's result.
    pub result: &'a Shape,
    /// Whether a loop of the function encloses it.
    pub in_loop: bool,
}

/// What the statements before leave.
#[derive(Drop)]
pub struct Walk<'p> {
    /// The variables.
    pub scopes: Scopes<'p>,
    /// The foreign names of the whole text up to here.
    pub names: Names<'p>,
}
