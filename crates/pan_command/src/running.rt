//! The action `run`.

ghost use Rattle.std.specs.Prelude.{◌≡◌, ◌≤◌, ◌%◌, length, IfOk};
ghost use Rattle.command_words.specs.Words.{IsSize};
ghost use Rattle.device_script.specs.Memory.{filled};
ghost use Rattle.pan_command.specs.Outside.{the_call};
ghost use Rattle.pan_command.specs.Playing.{GoesOut};
ghost use Rattle.pan_command.specs.Run.{RunEnds, image_goes};

use crate::loading::{load_image, load_script};
use crate::playing::play;
use crate::status::Status;
use command_words::Options;
use device_script::Script;
use image_file::Image;
use pan_base::{NoMemory, Sink, Workspace};
use riscv_machine::Machine;
use std::alloc::Global;

/// The local memory that a script fills, of so many bytes.
pub fn local_memory(alloc: Global, script: &Script, bytes: u64) -> Result<Vec<u8>, NoMemory>
    requires { IsSize 8 bytes }
    ensures { IfOk result (λ memory. memory.items ≡ filled script.now.pieces bytes) }
{
    let mut memory = vec![in alloc; 0u8; bytes as usize]?;
    script.fill(&mut memory);
    Ok(memory)
}

/// Runs the image over the script, and puts the lines of its trace and its end.
fn go<O: Sink>(alloc: Global, image: Image, script: Script, options: Options, out: &mut O) -> Status
    requires local { IsSize 8 options.local }
    requires stack { IsSize 16 options.stack }
    ensures { GoesOut (image_goes image script options) script options.steps (O.state out.old) (O.state out.new) result }
{
    let Ok(mut memory) = local_memory(alloc, &script, options.local) else {
        return Status::NoMemory;
    };
    let local = memory.as_slice();
    let Ok(mut machine) = Machine::boot(alloc, image, local, options.stack) else {
        return Status::NoMemory;
    };
    play(&mut machine, script, &mut memory, options.steps, out)
}

/// The action `run`: reads the image and the script, and runs the one over the other.
pub fn run<W: Workspace, O: Sink>(
    alloc: Global,
    image: &str,
    script: &str,
    options: Options,
    files: &mut W,
    out: &mut O,
) -> Status
    requires local { IsSize 8 options.local }
    requires stack { IsSize 16 options.stack }
    ensures { RunEnds options image.now script.now (the_call (W.state files.old) (O.state out.old) (W.state files.new) (O.state out.new)) result }
{
    let loaded = match load_image(alloc, image, files, out) {
        Ok(loaded) => loaded,
        Err(status) => return status,
    };
    let script = match load_script(alloc, script, files, out) {
        Ok(script) => script,
        Err(status) => return status,
    };
    go(alloc, loaded, script, options, out)
}
