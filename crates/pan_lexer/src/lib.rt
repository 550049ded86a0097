//! From the bytes of a source to its tokens.
#![tactic(auto)]

mod bytes;
mod comments;
mod error;
mod laws;
mod lexing;
mod pieces;
mod signs;
#[cfg(test)]
mod tests;
mod tokens;
mod words;

pub use error::LexError;
pub use laws::{no_row_where_stuck, one_refusal, one_row, one_stuck_place, row_or_stuck};
pub use lexing::{MAX_SOURCE_LEN, lex};
pub use tokens::Tokens;
