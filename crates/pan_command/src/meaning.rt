//! The action `meaning`.

ghost use Rattle.std.specs.Prelude.{◌≡◌};
ghost use Rattle.command_words.specs.Words.{IsSize};
ghost use Rattle.pan_command.specs.Outside.{the_call};
ghost use Rattle.pan_command.specs.Meaning.{MeaningEnds, source_goes};
ghost use Rattle.pan_command.specs.Playing.{MeansOut};

use crate::loading::{load_program, load_script};
use crate::playing::play;
use crate::running::local_memory;
use crate::status::Status;
use command_words::Options;
use device_script::Script;
use pan_base::{Sink, Workspace};
use pan_runner::Runner;
use pan_shapes::Checked;
use std::alloc::Global;

/// Runs the program over the script, and puts the lines of its trace and its end.
fn go<O: Sink>(
    alloc: Global,
    program: &Checked,
    script: Script,
    options: Options,
    out: &mut O,
) -> Status
    requires { IsSize 8 options.local }
    ensures { MeansOut (source_goes program.now script options) script options.steps (O.state out.old) (O.state out.new) result }
{
    let Ok(mut memory) = local_memory(alloc, &script, options.local) else {
        return Status::NoMemory;
    };
    let Ok(mut runner) = Runner::new(alloc, program, &memory) else {
        return Status::NoMemory;
    };
    play(&mut runner, script, &mut memory, options.steps, out)
}

/// The action `meaning`: reads the source and the script, and runs the one over the other as the source's meaning says.
pub fn meaning<W: Workspace, O: Sink>(
    alloc: Global,
    source: &str,
    script: &str,
    options: Options,
    files: &mut W,
    out: &mut O,
) -> Status
    requires { IsSize 8 options.local }
    ensures { MeaningEnds options source.now script.now (the_call (W.state files.old) (O.state out.old) (W.state files.new) (O.state out.new)) result }
{
    let program = match load_program(alloc, source, files, out) {
        Ok(program) => program,
        Err(status) => return status,
    };
    let script = match load_script(alloc, script, files, out) {
        Ok(script) => script,
        Err(status) => return status,
    };
    go(alloc, &program, script, options, out)
}
