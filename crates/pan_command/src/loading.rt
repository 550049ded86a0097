//! Reads the files of an action: sources, images and scripts.

ghost use Rattle.std.specs.Prelude.{◌≡◌};
ghost use Rattle.pan_command.specs.Outside.{the_call};
ghost use Rattle.pan_command.specs.Loading.{ReadsFile, ReadsImage, ReadsProgram, ReadsBuilt, ReadsScript};

use crate::lines::{put_image_line, put_line, put_script_line, put_source_line};
use crate::status::Status;
use device_script::{Script, ScriptError, read_script};
use front_end::{SourceError, one_reading, read_program};
use image_file::{Image, ImageError, read_image};
use pan_base::{Blob, FileError, Sink, SinkFault, Workspace};
use pan_driver::{BuildError, Built, build};
use pan_shapes::Checked;
use std::alloc::Global;

/// The bytes of a file. Where it can't be read, `read NAME` is put.
pub fn read_file<W: Workspace, O: Sink>(
    alloc: Global,
    name: &str,
    files: &mut W,
    out: &mut O,
) -> Result<Blob, Status>
    ensures { ReadsFile name.now (the_call (W.state files.old) (O.state out.old) (W.state files.new) (O.state out.new)) result }
{
    match files.read(alloc, name) {
        Ok(bytes) => Ok(bytes),
        Err(FileError::NoMemory) => Err(Status::NoMemory),
        Err(FileError::Missing | FileError::Fault) => match put_line(out, "read ", name) {
            Ok(()) => Err(Status::Unread),
            Err(SinkFault) => Err(Status::Unput),
        },
    }
}

/// The image of a file. Where there is none, the line that says why is put.
pub fn load_image<W: Workspace, O: Sink>(
    alloc: Global,
    name: &str,
    files: &mut W,
    out: &mut O,
) -> Result<Image, Status>
    ensures { ReadsImage name.now (the_call (W.state files.old) (O.state out.old) (W.state files.new) (O.state out.new)) result }
{
    let bytes = match read_file(alloc, name, files, out) {
        Ok(bytes) => bytes,
        Err(status) => return Err(status),
    };
    match read_image(alloc, bytes.as_slice()) {
        Ok(image) => Ok(image),
        Err(ImageError::NoMemory) => Err(Status::NoMemory),
        Err(fault) => match put_image_line(out, fault) {
            Ok(()) => Err(Status::NoImage),
            Err(SinkFault) => Err(Status::Unput),
        },
    }
}

/// The program of a source file. Where there is none, the line that says why is put.
pub fn load_program<W: Workspace, O: Sink>(
    alloc: Global,
    name: &str,
    files: &mut W,
    out: &mut O,
) -> Result<Checked, Status>
    ensures { ReadsProgram name.now (the_call (W.state files.old) (O.state out.old) (W.state files.new) (O.state out.new)) result }
{
    let bytes = match read_file(alloc, name, files, out) {
        Ok(bytes) => bytes,
        Err(status) => return Err(status),
    };
    match read_program(alloc, bytes.as_slice()) {
        Ok(program) => Ok(program),
        Err(SourceError::NoMemory) => Err(Status::NoMemory),
        Err(error) => match put_source_line(out, error) {
            Ok(()) => Err(Status::Refused),
            Err(SinkFault) => Err(Status::Unput),
        },
    }
}

/// What is built of a source file: its image and all stages. Where it is refused, the line that says why is put.
pub fn load_built<W: Workspace, O: Sink>(
    alloc: Global,
    name: &str,
    files: &mut W,
    out: &mut O,
) -> Result<Built, Status>
    ensures { ReadsBuilt name.now (the_call (W.state files.old) (O.state out.old) (W.state files.new) (O.state out.new)) result }
{
    one_reading();
    let bytes = match read_file(alloc, name, files, out) {
        Ok(bytes) => bytes,
        Err(status) => return Err(status),
    };
    match build(alloc, bytes.as_slice()) {
        Ok(built) => Ok(built),
        Err(BuildError::NoMemory) => Err(Status::NoMemory),
        Err(error) => match put_source_line(out, error.source_error()) {
            Ok(()) => Err(Status::Refused),
            Err(SinkFault) => Err(Status::Unput),
        },
    }
}

/// The script of a file. Where it is refused, the line that says why is put.
pub fn load_script<W: Workspace, O: Sink>(
    alloc: Global,
    name: &str,
    files: &mut W,
    out: &mut O,
) -> Result<Script, Status>
    ensures { ReadsScript name.now (the_call (W.state files.old) (O.state out.old) (W.state files.new) (O.state out.new)) result }
{
    let bytes = match read_file(alloc, name, files, out) {
        Ok(bytes) => bytes,
        Err(status) => return Err(status),
    };
    match read_script(alloc, bytes.as_slice()) {
        Ok(script) => Ok(script),
        Err(ScriptError::NoMemory) => Err(Status::NoMemory),
        Err(ScriptError::Line(line, cause)) => match put_script_line(out, line, cause) {
            Ok(()) => Err(Status::NoScript),
            Err(SinkFault) => Err(Status::Unput),
        },
    }
}
