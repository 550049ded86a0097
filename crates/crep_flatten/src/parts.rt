//! Words of variables, of memory, and of parts of structs.

ghost use Rattle.std.specs.Prelude.{◌≡◌, map, sum, IfOk};
ghost use Rattle.std.specs.Option.{option_copied};
ghost use Rattle.pan_tree.specs.Shapes.{words_of, parts_of};
ghost use Rattle.crep_flatten.specs.Flat as flat;

use crate::exprs::Flat;
use crate::few::Few;
use crate::rows::{Row, cut};
use crate::scopes::Place;
use crate::shaping::{parts_of, size, spread};
use crep_lang::Expr;
use pan_base::{Boxed, List, NoMemory};
use pan_tree::{Shape, copy_shape};
use std::alloc::Global;

/// One word.
pub fn one(alloc: Global, word: Expr) -> Result<Flat, NoMemory>
    ensures { IfOk result (λ f. f ≡ flat.one word) }
{
    Ok(Flat {
        shape: Shape::Word,
        rows: Few::one(alloc, Row::One(word)),
    })
}

/// The words of a variable.
pub fn variable(alloc: Global, place: Option<&Place>) -> Result<Flat, NoMemory>
    ensures { IfOk result (λ f. f ≡ flat.variable_at (option_copied place.entry)) }
{
    match place {
        None => one(alloc, Expr::Num(0)),
        Some(place) => {
            let count = size(&place.shape)?;
            Ok(Flat {
                shape: copy_shape(alloc, &place.shape)?,
                rows: Few::one(alloc, Row::Variables(place.first, count)),
            })
        }
    }
}

/// The first word of a variable.
#[tactic(auto, using(crate::proofs::PartWords::first_rules))]
pub fn variable_word(place: Option<&Place>) -> Result<Expr, NoMemory>
    ensures { IfOk result (λ w. w ≡ flat.word_in (flat.variable_at (option_copied place.entry))) }
{
    match place {
        None => Ok(Expr::Num(0)),
        Some(place) => {
            if size(&place.shape)? == 0 {
                return Ok(Expr::Num(0));
            }
            Ok(Expr::Var(place.first))
        }
    }
}

/// The words of a value of the shape in memory from an address on.
pub fn loaded(alloc: Global, shape: &Shape, address: Expr) -> Result<Flat, NoMemory>
    ensures { IfOk result (λ f. f ≡ flat.loaded shape.now address) }
{
    let count = size(shape)?;
    Ok(Flat {
        shape: spread(alloc, shape)?,
        rows: Few::one(alloc, Row::Loads(address, 0, count)),
    })
}

/// The first word of a value of the shape in memory from an address on.
#[tactic(auto, using(crate::proofs::PartWords::first_rules))]
pub fn loaded_word(alloc: Global, shape: &Shape, address: Expr) -> Result<Expr, NoMemory>
    ensures { IfOk result (λ w. w ≡ flat.word_in (flat.loaded shape.now address)) }
{
    if size(shape)? == 0 {
        return Ok(Expr::Num(0));
    }
    Ok(Expr::LoadWord(Boxed::new(alloc, address)?))
}

/// How many words shapes have together.
fn total(shapes: &[Shape]) -> Result<u32, NoMemory>
    ensures { IfOk result (λ n. n ≡ sum (map words_of shapes.now)) }
{
    let mut total: u32 = 0;
    for shape in shapes {
        let Some(more) = total.checked_add(size(shape)?) else {
            return Err(NoMemory);
        };
        total = more;
    }
    Ok(total)
}

/// Of words those of a part, by its number from 0.
#[tactic(auto, using(crate::proofs::PartWords::part_rules))]
fn part_at(alloc: Global, whole: Flat, number: u64) -> Result<Flat, NoMemory>
    ensures { IfOk result (λ f. f ≡ flat.part_among (parts_of whole.shape) number whole) }
{
    let Some(mut shapes) = parts_of(alloc, whole.shape)? else {
        return one(alloc, Expr::Num(0));
    };
    if number >= shapes.len() as u64 {
        return one(alloc, Expr::Num(0));
    }
    let at = number as usize;
    let skip = total(&shapes.as_slice()[..at])?;
    let shape = shapes.remove(at);
    let count = size(&shape)?;
    let rows = cut(alloc, whole.rows, skip, count)?;
    Ok(Flat { shape, rows })
}

/// Of words those of a part, and of a part of it, and so on.
pub fn parts_at(alloc: Global, whole: Flat, path: &[u64]) -> Result<Flat, NoMemory>
    ensures { IfOk result (λ f. f ≡ flat.parts_at path.now whole) }
{
    let mut part = whole;
    for number in path {
        part = part_at(alloc, part, *number)?;
    }
    Ok(part)
}
