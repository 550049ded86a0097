//! Programs.

ghost use Rattle.std.proofs.Props.{props};
ghost use Rattle.pan_stage.specs.Stage.{AtMost-prop};
ghost use Rattle.loop_lang.specs.WellFormed.{IsWellFormed};

use crate::syntax::LoopFun;
use pan_stage::Program;

/// A well-formed program of steps.
#[derive(Drop)]
pub struct LoopProg {
    pub program: Program<LoopFun>,
    ghost well_formed: { IsWellFormed program } by { Prim.hlevel (props, AtMost-prop) },
}
