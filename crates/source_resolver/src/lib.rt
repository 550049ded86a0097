//! Resolves the names of checked programs: variables become places, functions, exceptions and foreign names numbers.
#![tactic(auto)]

mod directory;
mod numbers;
mod places;
mod resolved;
mod resolving;
mod resolving_exprs;
mod resolving_stmts;
mod shared;

pub use directory::Directory;
pub use places::Places;
pub use resolved::{
    Block, Call, CallOf, Expr, Function, Handler, HandlerOf, Program, Stmt, Target,
};
pub use resolving::resolve;
pub use shared::Shared;
