//! The action `bound`.

ghost use Rattle.std.specs.Prelude.{◌≡◌, ◌++◌, IfOk, OnOk};
ghost use Rattle.pan_command.specs.Outside.{the_call};
ghost use Rattle.pan_command.specs.Bound.{named, names_of, bound_text, BoundEnds};

use crate::loading::load_built;
use crate::status::Status;
use itoa::Buffer;
use pan_base::{Blob, NoMemory, Sink, SinkFault, Workspace, put_all};
use pan_driver::Built;
use pan_tree::Program;
use stack_bound::types::Bound;
use std::alloc::Global;

/// Adds the name of a function to a text, behind a blank.
fn add_name(text: &mut Vec<u8>, program: &Program, number: u32) -> Result<(), NoMemory>
    ensures { OnOk result (text.new.items ≡ text.old.items ++ named program.now number) }
{
    text.push(b' ')?;
    if let Some(function) = program.functions.as_slice().get(number as usize) {
        text.extend_from_slice(function.name.as_bytes())?;
    }
    Ok(())
}

/// Adds the names of functions to a text, a blank before each.
fn add_names(text: &mut Vec<u8>, program: &Program, functions: &[u32]) -> Result<(), NoMemory>
    ensures { OnOk result (text.new.items ≡ text.old.items ++ names_of program.now functions.now) }
{
    for number in functions {
        add_name(text, program, *number)?;
    }
    Ok(())
}

/// The text of a bound: its line, and for a cycle the line of its functions. `NoMemory` is the one error.
fn text_of(alloc: Global, program: &Program, bound: &Bound) -> Result<Blob, NoMemory>
    ensures { IfOk result (λ text. text ≡ bound_text program.now bound.now) }
{
    let mut text = Vec::new(alloc);
    match bound {
        Bound::Bytes(bytes) => {
            text.extend_from_slice(b"bound ")?;
            text.extend_from_slice(Buffer::new().format(*bytes).as_bytes())?;
        }
        Bound::Cycle(functions) => {
            text.extend_from_slice(b"bound none\ncycle")?;
            add_names(&mut text, program, functions.as_slice())?;
        }
    }
    text.push(b'\n')?;
    Ok(Blob::from_vec(text))
}

/// The action `bound`: reads the source, and puts the bound on the stack of its image.
pub fn bound<W: Workspace, O: Sink>(
    alloc: Global,
    source: &str,
    files: &mut W,
    out: &mut O,
) -> Status
    ensures { BoundEnds source.now (the_call (W.state files.old) (O.state out.old) (W.state files.new) (O.state out.new)) result }
{
    let built = match load_built(alloc, source, files, out) {
        Ok(built) => built,
        Err(status) => return status,
    };
    let Ok(text) = text_of(alloc, built.checked().program(), built.bound()) else {
        return Status::NoMemory;
    };
    match put_all(out, text.as_slice()) {
        Ok(()) => Status::Done,
        Err(SinkFault) => Status::Unput,
    }
}
