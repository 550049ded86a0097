//! The action `compile`.

ghost use Rattle.pan_command.specs.Outside.{the_call};
ghost use Rattle.pan_command.specs.Compile.{CompileEnds, StoreEnds};

use crate::lines::{put_bound_line, put_line};
use crate::loading::load_built;
use crate::status::Status;
use pan_base::{FileError, Sink, SinkFault, Workspace};
use std::alloc::Global;

/// Writes the image that was built, and puts the line of its bound.
fn store<W: Workspace, O: Sink>(
    alloc: Global,
    name: &str,
    image: &[u8],
    bound: Option<u64>,
    files: &mut W,
    out: &mut O,
) -> Status
    ensures { StoreEnds bound name.now image.now (the_call (W.state files.old) (O.state out.old) (W.state files.new) (O.state out.new)) result }
{
    match files.write(alloc, name, image) {
        Ok(()) => match put_bound_line(out, bound) {
            Ok(()) => Status::Done,
            Err(SinkFault) => Status::Unput,
        },
        Err(FileError::NoMemory) => Status::NoMemory,
        Err(FileError::Missing | FileError::Fault) => match put_line(out, "write ", name) {
            Ok(()) => Status::Unwritten,
            Err(SinkFault) => Status::Unput,
        },
    }
}

/// The action `compile`: reads the source, and writes its image.
pub fn compile<W: Workspace, O: Sink>(
    alloc: Global,
    source: &str,
    image: &str,
    files: &mut W,
    out: &mut O,
) -> Status
    ensures { CompileEnds source.now image.now (the_call (W.state files.old) (O.state out.old) (W.state files.new) (O.state out.new)) result }
{
    let built = match load_built(alloc, source, files, out) {
        Ok(built) => built,
        Err(status) => return status,
    };
    store(alloc, image, built.image(), built.bytes(), files, out)
}
