//! What statements become, and where their temporaries stand.

use loop_lang::Stmt;
use pan_base::{Boxed, List};
use pan_stage::Handler;

/// Between which numbers the temporaries of a function stand: from the base on, and where there is room for them below the limit.
#[derive(Clone, Copy, Drop)]
pub struct Room {
    pub limit: u32,
    pub base: u32,
}

/// Where the temporaries of a statement stand.
#[derive(Clone, Copy, Drop)]
pub struct Plan {
    /// Whether a result stands behind its operands; otherwise it may stand where the first of them did.
    pub apart: bool,
    /// The first temporary.
    pub start: u32,
    /// Where those of the next statement may start.
    pub next: u32,
}

/// What a statement becomes.
#[derive(Drop)]
pub struct Placed {
    pub stmt: Stmt,
    /// Where the temporaries of the next statement may start.
    pub next: u32,
}

/// The same of statements one after another.
#[derive(Drop)]
pub struct PlacedRow {
    pub stmts: List<Stmt>,
    pub next: u32,
}

/// The same of a handler, if there is one.
#[derive(Drop)]
pub struct PlacedHandler {
    pub handler: Option<Handler<Boxed<Stmt>>>,
    pub next: u32,
}
