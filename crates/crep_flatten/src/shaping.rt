//! Shapes in which a struct of words is a group, and how many words a shape has.

ghost use Rattle.std.specs.Prelude.{◌≡◌, map, replicate, IfOk};
ghost use Rattle.check_soundness.specs.Spread as spreading;
ghost use Rattle.pan_tree.specs.Shapes.{words_of, parts_of};
ghost use Rattle.pan_tree.specs.declared.shape.Shape.TheVariants as shape;

use pan_base::{List, NoMemory};
use pan_tree::{Shape, count_words};
use std::alloc::Global;

/// How many words a shape has. `NoMemory` also stands for 2^32 or more, which no checked program has.
pub fn size(shape: &Shape) -> Result<u32, NoMemory>
    ensures { IfOk result (λ n. n ≡ words_of shape.now) }
{
    match u32::try_from(count_words(shape)) {
        Ok(size) => Ok(size),
        Err(_) => Err(NoMemory),
    }
}

/// So many words as parts of a struct.
fn word_parts(alloc: Global, count: u64) -> Result<List<Shape>, NoMemory>
    ensures { IfOk result (λ ss. ss ≡ replicate count shape.Word) }
{
    let mut parts = List::new(alloc);
    let mut left = count;
    while left > 0 {
        parts.push(Shape::Word)?;
        left -= 1;
    }
    Ok(parts)
}

/// The shapes of the parts of a struct. A word has none.
#[tactic(auto, using(crate::proofs::SpreadRules::parts_rules))]
pub fn parts_of(alloc: Global, shape: Shape) -> Result<Option<List<Shape>>, NoMemory>
    ensures { IfOk result (λ parts. parts ≡ parts_of shape) }
{
    match shape {
        Shape::Word => Ok(None),
        Shape::Words(count) => Ok(Some(word_parts(alloc, count)?)),
        Shape::Group(parts) => Ok(Some(parts)),
    }
}

/// The same shape, with a group of words for each struct of so many words.
#[cycle(spread)]
#[tactic(auto, using(crate::proofs::SpreadRules::spread_rules))]
pub fn spread(alloc: Global, shape: &Shape) -> Result<Shape, NoMemory>
    ensures { IfOk result (λ s. s ≡ spreading.spread shape.now) }
{
    match shape {
        Shape::Word => Ok(Shape::Word),
        Shape::Words(count) => Ok(Shape::Group(word_parts(alloc, *count)?)),
        Shape::Group(parts) => Ok(Shape::Group(spread_each(alloc, parts.as_slice())?)),
    }
}

/// The same of several.
#[cycle(spread)]
fn spread_each(alloc: Global, shapes: &[Shape]) -> Result<List<Shape>, NoMemory>
    ensures { IfOk result (λ ss. ss ≡ map spreading.spread shapes.now) }
{
    let mut all = List::new(alloc);
    for i in 0..shapes.len() {
        all.push(spread(alloc, &shapes[i])?)?;
    }
    Ok(all)
}
