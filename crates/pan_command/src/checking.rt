//! The action `check`.

ghost use Rattle.pan_command.specs.Outside.{the_call};
ghost use Rattle.pan_command.specs.Check.{CheckEnds};

use crate::lines::put_weight_line;
use crate::loading::load_program;
use crate::status::Status;
use pan_base::{Sink, SinkFault, Workspace};
use std::alloc::Global;

/// The action `check`: reads the source, and says what its program weighs.
pub fn check<W: Workspace, O: Sink>(
    alloc: Global,
    source: &str,
    files: &mut W,
    out: &mut O,
) -> Status
    ensures { CheckEnds source.now (the_call (W.state files.old) (O.state out.old) (W.state files.new) (O.state out.new)) result }
{
    let program = match load_program(alloc, source, files, out) {
        Ok(program) => program,
        Err(status) => return status,
    };
    match put_weight_line(out, program.weight()) {
        Ok(()) => Status::Done,
        Err(SinkFault) => Status::Unput,
    }
}
