//! From the source to words: each struct becomes its words, and each name a number (`specs/Flat.antt`, `specs/Flattened.antt`).
#![tactic(auto)]

mod call_parts;
mod exprs;
mod few;
mod flattening;
mod functions;
mod laws;
mod lists;
mod moving;
mod parts;
mod plain;
mod rows;
mod scopes;
mod settling;
mod shaping;
mod stmts;
mod targets;

pub use exprs::Flat;
pub use flattening::flatten;
pub use laws::{flattened_is_kept, flattened_is_well_formed};
pub use rows::Row;
pub use scopes::{Place, Scopes};
