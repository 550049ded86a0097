//! What is asked of shapes: how many words they have, and whether two are the same.

ghost use Rattle.std.specs.Prelude.{◌≡◌, ◌-◌, ◌^◌, ◌&&◌, nat_eq, length, map, min, IfOk};
ghost use Rattle.std.specs.List.{list_all};
ghost use Rattle.pan_tree.specs.Shapes.{words_of, is_word, holds_each, same};

use crate::shape::Shape;
use pan_base::{List, NoMemory};
use std::alloc::Global;

/// The number of words that stands for each greater one: no shape of a program that passes the check has so many.
const TOO_MANY_WORDS: u64 = 65;

/// The number of words of a value of the shape, or 2^64 - 1 where that is less.
#[tactic(auto, using(crate::proofs::ShapeLayers::words_rules))]
pub fn count_words(shape: &Shape) -> u64
    ensures { result ≡ min (words_of shape.now) (2 ^ 64 - 1) }
{
    match shape {
        Shape::Word => 1,
        Shape::Words(count) => *count,
        Shape::Group(parts) => {
            let mut total: u64 = 0;
            for part in parts.as_slice() {
                total = total.saturating_add(count_words(part));
            }
            total
        }
    }
}

/// The number of words of a value of the shape, or 65 where that is less.
pub fn words(shape: &Shape) -> u64
    ensures { result ≡ min (words_of shape.now) 65 }
{
    count_words(shape).min(TOO_MANY_WORDS)
}

/// Whether the shape is one word, and no struct.
#[tactic(auto, using(crate::proofs::ShapeLayers::is_word_rules))]
pub fn is_word(shape: &Shape) -> bool
    ensures { result ≡ is_word shape.now }
{
    match shape {
        Shape::Word => true,
        Shape::Words(_) | Shape::Group(_) => false,
    }
}

/// Whether each shape is one word.
fn are_all_words(shapes: &[Shape]) -> bool
    ensures { result ≡ list_all is_word shapes.now }
{
    shapes.iter().all(|shape| is_word(shape))
}

/// Whether these are so many shapes, and each is one word.
fn are_words(count: u64, shapes: &[Shape]) -> bool
    ensures { result ≡ (nat_eq count (length shapes.now) && list_all is_word shapes.now) }
{
    count == shapes.len() as u64 && are_all_words(shapes)
}

/// Whether both are the same shape, however each is written: a struct of words is the same as a group of so many words.
#[cycle(same)]
#[tactic(auto, using(crate::proofs::ShapeLayers::same_rules))]
pub fn same(left: &Shape, right: &Shape) -> bool
    ensures { result ≡ same left.now right.now }
{
    match left {
        Shape::Word => is_word(right),
        // A number of words may be any, so lengths are compared before any part is.
        Shape::Words(count) => match right {
            Shape::Word => false,
            Shape::Words(other) => *count == *other,
            Shape::Group(parts) => are_words(*count, parts.as_slice()),
        },
        Shape::Group(parts) => match right {
            Shape::Word => false,
            Shape::Words(count) => are_words(*count, parts.as_slice()),
            Shape::Group(others) => same_each(parts.as_slice(), others.as_slice()),
        },
    }
}

/// Whether these are as many shapes as those, and each is the same as its fellow.
#[cycle(same)]
#[tactic(auto, using(crate::proofs::ShapeLayers::same_rules))]
fn same_each(left: &[Shape], right: &[Shape]) -> bool
    ensures { result ≡ holds_each (map same left.now) right.now }
{
    if left.len() != right.len() {
        return false;
    }
    for i in 0..left.len() {
        if !same(&left[i], &right[i]) {
            return false;
        }
    }
    true
}

/// A copy of the shape.
#[cycle(copy_shape)]
pub fn copy_shape(alloc: Global, shape: &Shape) -> Result<Shape, NoMemory>
    ensures { IfOk result (λ s. s ≡ shape.now) }
{
    match shape {
        Shape::Word => Ok(Shape::Word),
        Shape::Words(count) => Ok(Shape::Words(*count)),
        Shape::Group(parts) => Ok(Shape::Group(copy_shapes(alloc, parts.as_slice())?)),
    }
}

/// A copy of the shapes.
#[cycle(copy_shape)]
fn copy_shapes(alloc: Global, shapes: &[Shape]) -> Result<List<Shape>, NoMemory>
    ensures { IfOk result (λ all. all ≡ shapes.now) }
{
    let mut all = List::new(alloc);
    for i in 0..shapes.len() {
        all.push(copy_shape(alloc, &shapes[i])?)?;
    }
    Ok(all)
}
