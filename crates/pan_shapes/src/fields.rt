//! Parts of shapes.

ghost use Rattle.std.specs.Prelude.{◌≡◌, IfOk};
ghost use Rattle.pan_tree.specs.Shapes.{APart};
ghost use Rattle.pan_tree.specs.Shapes as shapes;
ghost use Rattle.pan_shapes.specs.Fields.{as_part};

use pan_base::NoMemory;
use pan_tree::{Shape, copy_shape};
use std::alloc::Global;

/// What is found at some numbers of parts, one after another.
#[derive(Drop)]
pub enum Found {
    /// A part of this shape.
    Part(Shape),
    /// A part is taken of a word.
    OfWord,
    /// A struct has no part of this number.
    NoPart,
}

/// The part of a part of the shape, and so on, by these numbers from the left.
pub fn part_at(alloc: Global, shape: &Shape, path: &[u64]) -> Result<Found, NoMemory>
    ensures { IfOk result (λ f. as_part f ≡ shapes.part_at (APart shape.now) path.now) }
{
    let word = Shape::Word;
    let mut at = shape;
    for index in path {
        match at {
            Shape::Word => return Ok(Found::OfWord),
            Shape::Words(count) => {
                if *index >= *count {
                    return Ok(Found::NoPart);
                }
                at = &word;
            }
            Shape::Group(parts) => {
                if *index >= parts.len() as u64 {
                    return Ok(Found::NoPart);
                }
                at = &parts.as_slice()[*index as usize];
            }
        }
    }
    Ok(Found::Part(copy_shape(alloc, at)?))
}
