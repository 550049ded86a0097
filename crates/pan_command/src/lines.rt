//! The lines of refusals.

ghost use Rattle.std.specs.Prelude.{◌≡◌, ◌++◌, codes};
ghost use Rattle.pan_base.specs.Causes.{HasCause};
ghost use Rattle.pan_base.specs.Sinks.{PutsAll};
ghost use Rattle.pan_command.specs.Check.{weight_line};
ghost use Rattle.pan_command.specs.Compile.{bound_line};
ghost use Rattle.pan_command.specs.Reading.{cause_text, script_line, source_line};
ghost use Rattle.pan_command.specs.Run.{field_text, image_line};

use device_script::Cause;
use front_end::SourceError;
use image_file::{FieldName, ImageError};
use itoa::Buffer;
use pan_base::{Sink, SinkFault, put_all, put_each};

/// Puts a word, a name and a line feed.
pub fn put_line<'x, O: Sink>(out: &mut O, word: &'x str, name: &'x str) -> Result<(), SinkFault>
    ensures took { PutsAll (O.state out.old) (O.state out.new) result (word.now ++ name.now ++ codes "\n") }
    ensures cause { HasCause (O.state out.old).faults (O.state out.new).faults result }
{
    put_each(out, &[word.as_bytes(), name.as_bytes(), b"\n"])
}

fn name_of_field(field: FieldName) -> &'static str
    ensures { result.now ≡ field_text field }
{
    match field {
        FieldName::Code => "code",
        FieldName::Entry => "entry",
        FieldName::Count => "count",
        FieldName::Names => "names",
        FieldName::Zero => "zero",
    }
}

fn name_of_cause(cause: Cause) -> &'static str
    ensures { result.now ≡ cause_text cause }
{
    match cause {
        Cause::Word => "Word",
        Cause::Count => "Count",
        Cause::Size => "Size",
        Cause::Number => "Number",
        Cause::Address => "Address",
        Cause::Name => "Name",
        Cause::Hex => "Hex",
        Cause::Kind => "Kind",
        Cause::Range => "Range",
        Cause::Twice => "Twice",
    }
}

/// Puts the line of bytes that are no image.
pub fn put_image_line<O: Sink>(out: &mut O, fault: ImageError) -> Result<(), SinkFault>
    ensures took { PutsAll (O.state out.old) (O.state out.new) result (image_line fault) }
    ensures cause { HasCause (O.state out.old).faults (O.state out.new).faults result }
{
    match fault {
        ImageError::Magic => put_all(out, b"image Magic\n"),
        ImageError::Short => put_all(out, b"image Short\n"),
        ImageError::Field(field) => put_line(out, "image Field ", name_of_field(field)),
        ImageError::BadName(i) => put_line(out, "image BadName ", Buffer::new().format(i)),
        ImageError::Padding => put_all(out, b"image Padding\n"),
        ImageError::Tail => put_all(out, b"image Tail\n"),
        ImageError::NoMemory => put_all(out, b""),
    }
}

/// Puts the line of a refused script.
pub fn put_script_line<O: Sink>(out: &mut O, line: u64, cause: Cause) -> Result<(), SinkFault>
    ensures took { PutsAll (O.state out.old) (O.state out.new) result (script_line (record { line = line; cause = cause })) }
    ensures cause { HasCause (O.state out.old).faults (O.state out.new).faults result }
{
    let mut buffer = Buffer::new();
    let number = buffer.format(line);
    put_each(
        out,
        &[
            b"script ",
            number.as_bytes(),
            b" ",
            name_of_cause(cause).as_bytes(),
            b"\n",
        ],
    )
}

/// Puts the line of a refused source.
pub fn put_source_line<O: Sink>(out: &mut O, error: SourceError) -> Result<(), SinkFault>
    ensures took { PutsAll (O.state out.old) (O.state out.new) result (source_line error) }
    ensures cause { HasCause (O.state out.old).faults (O.state out.new).faults result }
{
    let mut buffer = Buffer::new();
    let number = buffer.format(error.place());
    put_each(
        out,
        &[number.as_bytes(), b" ", error.cause().as_bytes(), b"\n"],
    )
}

/// Puts the line of a bound.
pub fn put_bound_line<O: Sink>(out: &mut O, bound: Option<u64>) -> Result<(), SinkFault>
    ensures took { PutsAll (O.state out.old) (O.state out.new) result (bound_line bound) }
    ensures cause { HasCause (O.state out.old).faults (O.state out.new).faults result }
{
    match bound {
        None => put_all(out, b"bound none\n"),
        Some(bytes) => put_line(out, "bound ", Buffer::new().format(bytes)),
    }
}

/// Puts the line of a weight.
pub fn put_weight_line<O: Sink>(out: &mut O, weight: u64) -> Result<(), SinkFault>
    ensures took { PutsAll (O.state out.old) (O.state out.new) result (weight_line weight) }
    ensures cause { HasCause (O.state out.old).faults (O.state out.new).faults result }
{
    put_line(out, "ok ", Buffer::new().format(weight))
}
