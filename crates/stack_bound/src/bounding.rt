//! The bound of a program.

ghost use Rattle.std.specs.Prelude.{IfOk};
ghost use Rattle.stack_bound.specs.Bounds.{IsAnswer};

use crate::calls::nodes;
use crate::types::Bound;
use crate::walk::walk_from;
use pan_base::NoMemory;
use stack_lang::StackProg;
use std::alloc::Global;

/// The bytes of stack that suffice for a program, exactly where the calls that main reaches have no cycle: the most that the
/// frames of active calls take together, a tail call's frame in the place of its caller's. They are a multiple of 16, and at
/// most 4,456,448. Else a cycle of calls that main reaches. `NoMemory` is the one error.
pub fn bound(alloc: Global, prog: &StackProg) -> Result<Bound, NoMemory>
    ensures { IfOk result (IsAnswer prog.now.program) }
{
    let nodes = nodes(alloc, prog.program.functions.as_slice())?;
    walk_from(alloc, nodes.as_slice(), prog.program.main)
}
