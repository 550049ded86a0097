//! Programs.

ghost use Rattle.std.proofs.Props.{props};
ghost use Rattle.pan_stage.specs.Stage.{AtMost-prop};
ghost use Rattle.word_lang.specs.WellFormed.{IsWellFormed};

use crate::syntax::WordFun;
use pan_stage::Program;

/// A well-formed program of operations.
#[derive(Drop)]
pub struct WordProg {
    pub program: Program<WordFun>,
    ghost well_formed: { IsWellFormed program } by { Prim.hlevel (props, AtMost-prop) },
}
