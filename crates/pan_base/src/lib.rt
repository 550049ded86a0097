//! What every other crate speaks of: words and their operators, lists and texts, requests and replies,
//! and the outside: sinks of text and files.
#![tactic(auto)]

mod blob;
mod error;
mod events;
mod file_error;
mod files;
mod laws;
mod line_count;
mod lists;
mod memory_files;
mod memory_sink;
mod operators;
mod real;
mod sinks;
mod span;
#[cfg(test)]
mod tests;
mod text;
mod tokens;
mod trace;

pub use blob::Blob;
pub use error::NoMemory;
pub use events::{End, Reply, Request, Size, fits};
pub use file_error::FileError;
pub use files::Workspace;
pub use laws::{numbers_in_bytes, prefixes, rows_of_bytes, sinks_go_on};
pub use line_count::LineCount;
pub use lists::single;
pub use memory_files::{Failing, MemFiles};
pub use memory_sink::MemSink;
pub use operators::{BinOp, Cmp, IOp, LOp, ROp, SOp, ShOp, ShiftOp, UOp};
pub use real::{RealFiles, RealOut};
pub use sinks::{Sink, SinkFault, put_all, put_each};
pub use span::Span;
pub use sqlite_items::{Boxed, Items as List};
pub use text::Text;
pub use tokens::{Keyword, Sign, Token, TokenKind};
pub use trace::{write_end, write_event};
