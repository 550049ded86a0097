//! Programs.

ghost use Rattle.std.proofs.Props.{props};
ghost use Rattle.pan_stage.specs.Stage.{AtMost-prop};
ghost use Rattle.stack_lang.specs.WellFormed.{IsWellFormed, IsRight-prop};

use crate::syntax::StackFun;
use pan_stage::Program;

/// A well-formed program over frames.
#[derive(Drop)]
pub struct StackProg {
    pub program: Program<StackFun>,
    ghost well_formed: { IsWellFormed program } by { Prim.hlevel (props, AtMost-prop, IsRight-prop) },
}
