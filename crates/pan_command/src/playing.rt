//! Runs over a device script.

ghost use Rattle.std.specs.Prelude.{◌≡◌, ◌≤◌, length, None};
ghost use Rattle.pan_command.specs.Playing.{PlaysOut};

use crate::status::Status;
use device_script::Script;
use pan_base::{Sink, SinkFault, sinks_go_on, write_end};
use pan_port::{Asker, DriveFault, drive};

/// Runs over the script's device, for so many instructions or units of fuel, and puts the lines of the trace and the end.
pub fn play<A: Asker, O: Sink>(
    asker: &mut A,
    script: Script,
    room: &mut [u8],
    steps: u64,
    out: &mut O,
) -> Status
    requires fresh { (A.meaning asker.old).ended ≡ None }
    requires room { (A.meaning asker.old).size ≤ length room.old }
    ensures { PlaysOut (A.meaning asker.old).frugal (A.meaning asker.old).go script steps (O.state out.old) (O.state out.new) result }
{
    sinks_go_on();
    let mut device = script.into_device();
    match drive(asker, &mut device, out, room, steps) {
        Ok(end) => match write_end(out, end) {
            Ok(()) => Status::Ran(end),
            Err(SinkFault) => Status::Unput,
        },
        Err(DriveFault::WriteFault) => Status::Unput,
        Err(DriveFault::NoMemory) => Status::NoMemory,
    }
}
