//! The action `show`.

ghost use Rattle.pan_command.specs.Outside.{the_call};
ghost use Rattle.pan_command.specs.Show.{ShowEnds};

use crate::loading::{load_built, load_program};
use crate::status::Status;
use code_listing::put_listing;
use command_words::Stage;
use pan_base::{Sink, SinkFault, Workspace, put_all};
use pan_printer::print;
use std::alloc::Global;

/// Reads the source, and puts the canonical text of its program.
fn show_program<W: Workspace, O: Sink>(
    alloc: Global,
    source: &str,
    files: &mut W,
    out: &mut O,
) -> Status
    ensures { ShowEnds Stage.Parse source.now (the_call (W.state files.old) (O.state out.old) (W.state files.new) (O.state out.new)) result }
{
    let program = match load_program(alloc, source, files, out) {
        Ok(program) => program,
        Err(status) => return status,
    };
    let Ok(text) = print(alloc, program.program()) else {
        return Status::NoMemory;
    };
    match put_all(out, text.as_slice()) {
        Ok(()) => Status::Done,
        Err(SinkFault) => Status::Unput,
    }
}

/// Reads the source, and puts the listing of its code.
fn show_code<W: Workspace, O: Sink>(
    alloc: Global,
    source: &str,
    files: &mut W,
    out: &mut O,
) -> Status
    ensures { ShowEnds Stage.Code source.now (the_call (W.state files.old) (O.state out.old) (W.state files.new) (O.state out.new)) result }
{
    let built = match load_built(alloc, source, files, out) {
        Ok(built) => built,
        Err(status) => return status,
    };
    match put_listing(built.code().bytes.as_slice(), out) {
        Ok(()) => Status::Done,
        Err(SinkFault) => Status::Unput,
    }
}

/// The action `show`: reads the source, and puts the text of a stage of it.
pub fn show<W: Workspace, O: Sink>(
    alloc: Global,
    source: &str,
    stage: Stage,
    files: &mut W,
    out: &mut O,
) -> Status
    ensures { ShowEnds stage source.now (the_call (W.state files.old) (O.state out.old) (W.state files.new) (O.state out.new)) result }
{
    match stage {
        Stage::Parse => show_program(alloc, source, files, out),
        Stage::Code => show_code(alloc, source, files, out),
    }
}
