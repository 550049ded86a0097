//! The action `dis`.

ghost use Rattle.pan_command.specs.Outside.{the_call};
ghost use Rattle.pan_command.specs.Dis.{DisEnds};

use crate::loading::load_image;
use crate::status::Status;
use code_listing::put_listing;
use pan_base::{Sink, SinkFault, Workspace};
use std::alloc::Global;

/// The action `dis`: reads the image, and puts the listing of its code.
pub fn list_image<W: Workspace, O: Sink>(
    alloc: Global,
    image: &str,
    files: &mut W,
    out: &mut O,
) -> Status
    ensures { DisEnds image.now (the_call (W.state files.old) (O.state out.old) (W.state files.new) (O.state out.new)) result }
{
    let loaded = match load_image(alloc, image, files, out) {
        Ok(loaded) => loaded,
        Err(status) => return status,
    };
    match put_listing(loaded.code(), out) {
        Ok(()) => Status::Done,
        Err(SinkFault) => Status::Unput,
    }
}
