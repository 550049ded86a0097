//! Programs.

ghost use Rattle.std.proofs.Props.{props};
ghost use Rattle.pan_stage.specs.Stage.{AtMost-prop};
ghost use Rattle.crep_lang.specs.WellFormed.{IsWellFormed};

use crate::syntax::CrepFun;
use pan_stage::Program;

/// A well-formed program of words.
#[derive(Drop)]
pub struct CrepProg {
    pub program: Program<CrepFun>,
    ghost well_formed: { IsWellFormed program } by { Prim.hlevel (props, AtMost-prop) },
}
