//! Programs.

ghost use Rattle.std.proofs.Props.{props};
ghost use Rattle.lab_lang.specs.WellFormed.{IsWellFormed, IsLine-prop};

use crate::syntax::{LabFun, Line};
use pan_base::List;
use pan_stage::Program;

/// A well-formed program of lines. Execution begins at the first line.
#[derive(Drop)]
pub struct LabProg {
    /// What the program shows beside its lines.
    pub program: Program<LabFun>,
    pub lines: List<Line>,
    /// How many labels there may be: each is below it.
    pub labels: u32,
    ghost well_formed: { IsWellFormed program lines labels } by { Prim.hlevel (props, IsLine-prop) },
}
