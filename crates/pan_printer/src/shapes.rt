//! Printing shapes.

ghost use Rattle.std.specs.Prelude.{◌≡◌, ◌++◌, OnOk};
ghost use Rattle.pan_printer.specs.Pieces.{with_commas, text_of};
ghost use Rattle.pan_printer.specs.Expressions.{shape_pieces};

use crate::output::Output;
use pan_base::{NoMemory, Sign};
use pan_tree::Shape;

/// Puts a shape.
#[cycle(shape)]
#[tactic(auto, using(crate::proofs::Texts::text_rules, crate::proofs::Layers::shape_rules))]
pub fn put_shape(out: &mut Output, shape: &Shape) -> Result<(), NoMemory>
    ensures { OnOk result (out.new ≡ out.old ++ text_of (shape_pieces shape.now)) }
{
    match shape {
        Shape::Word => {
            out.number(1)?;
            Ok(())
        }
        Shape::Words(count) => {
            out.number(*count)?;
            Ok(())
        }
        Shape::Group(parts) => {
            out.sign(Sign::OpenBrace)?;
            put_shapes(out, parts.as_slice())?;
            out.sign(Sign::CloseBrace)?;
            Ok(())
        }
    }
}

/// Puts shapes with commas between them.
#[cycle(shape)]
#[tactic(auto, using(crate::proofs::Texts::text_rules))]
fn put_shapes(out: &mut Output, shapes: &[Shape]) -> Result<(), NoMemory>
    ensures { OnOk result (out.new ≡ out.old ++ text_of (with_commas shape_pieces shapes.now)) }
{
    if let Some((first, more)) = shapes.split_first() {
        put_shape(out, first)?;
        for shape in more {
            out.sign(Sign::Comma)?;
            put_shape(out, shape)?;
        }
    }
    Ok(())
}
