//! The source's trees, and what they mean, what they weigh and which rules they keep (`specs/`).
#![tactic(auto)]

mod laws;
mod level;
mod program;
mod rule;
mod shape;
mod shapes;
mod spanned;
mod syntax;
#[cfg(test)]
mod tests;

pub use laws::{
    source_goes_on, source_meets_no_limit, source_takes_in_order, statements_mean_by_parts,
    word_is_one,
};
pub use level::Level;
pub use program::{Exception, Function, Param, Program};
pub use rule::Rule;
pub use shape::Shape;
pub use shapes::{copy_shape, count_words, is_word, same, words};
pub use spanned::Spanned;
pub use syntax::{
    Block, BlockOf, Call, CallOf, Expr, ExprKind, Handler, HandlerOf, Stmt, StmtKind, Target,
};
