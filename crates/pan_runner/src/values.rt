//! What is done with values: they are copied, taken apart and put together from words.

ghost use Rattle.std.specs.Prelude.{◌≡◌, Some, map, replicate, option_map, IfOk};
ghost use Rattle.std.specs.Option.{option_copied};
ghost use Rattle.pan_tree.specs.Value.{word_of, part_of_part};
ghost use Rattle.pan_tree.specs.Value as meant;
ghost use Rattle.pan_tree.specs.Shapes.{filling, fill_each, fill_word, filled, zero_of};
ghost use Rattle.pan_runner.specs.Told.{told, all_told};

use crate::value::Value;
use pan_base::{List, NoMemory};
use pan_tree::Shape;
use std::alloc::Global;

/// A copy of the value.
#[cycle(copy)]
pub fn copy(alloc: Global, value: &Value) -> Result<Value, NoMemory>
    ensures { IfOk result (λ v. v ≡ value.now) }
{
    match value {
        Value::Word(word) => Ok(Value::Word(*word)),
        Value::Struct(parts) => Ok(Value::Struct(copy_all(alloc, parts.as_slice())?)),
    }
}

/// A copy of the values.
#[cycle(copy)]
fn copy_all(alloc: Global, values: &[Value]) -> Result<List<Value>, NoMemory>
    ensures { IfOk result (λ all. all ≡ values.now) }
{
    let mut all = List::new(alloc);
    for i in 0..values.len() {
        all.push(copy(alloc, &values[i])?)?;
    }
    Ok(all)
}

/// The word, of a value that is one.
#[tactic(auto, using(crate::proofs::ToldLayers::told_rules))]
pub fn as_word(value: &Value) -> Option<u64>
    ensures { result ≡ word_of (told value.now) }
{
    match value {
        Value::Word(word) => Some(*word),
        Value::Struct(_) => None,
    }
}

/// A part of a struct, by its number from 0.
#[tactic(auto, using(crate::proofs::ToldLayers::part_rules))]
fn part(value: &Value, index: u64) -> Option<&Value>
    ensures { option_map told (option_copied result) ≡ meant.part (told value.now) index }
{
    match value {
        Value::Word(_) => None,
        Value::Struct(parts) => parts.get(index as usize),
    }
}

/// A part of a part, and so on, by their numbers.
#[tactic(auto, using(crate::proofs::ToldLayers::part_rules))]
pub fn part_at<'v>(value: &'v Value, path: &[u64]) -> Option<&'v Value>
    ensures { option_map told (option_copied result) ≡ part_of_part (Some (told value.now)) path.now }
{
    let mut at = value;
    for index in path {
        at = part(at, *index)?;
    }
    Some(at)
}

/// A word with the first of the words, 0 where there is none, and the words that are left.
#[tactic(auto, using(crate::proofs::ToldLayers::told_rules))]
fn fill_word(words: &[u64]) -> (Value, &[u64])
    ensures { (told result.0, result.1.now) ≡ fill_word words.now }
{
    match words {
        [] => (Value::Word(0), words),
        [first, rest @ ..] => (Value::Word(*first), rest),
    }
}

/// So many words with the first of the words, and the words that are left.
fn fill_words<'w>(
    alloc: Global,
    count: u64,
    words: &'w [u64],
) -> Result<(List<Value>, &'w [u64]), NoMemory>
    ensures { IfOk result (λ r. (all_told r.0, r.1.now) ≡ fill_each (replicate count fill_word) words.now) }
{
    let mut values = List::new(alloc);
    let mut left = words;
    for _ in 0..count {
        let (value, rest) = fill_word(left);
        values.push(value)?;
        left = rest;
    }
    Ok((values, left))
}

/// A value of the shape with the first of the words, and the words that are left. Words that aren't there count as 0.
#[cycle(fill)]
#[tactic(auto, using(crate::proofs::FillLemmas::fill_rules))]
fn fill<'w>(alloc: Global, shape: &Shape, words: &'w [u64]) -> Result<(Value, &'w [u64]), NoMemory>
    ensures { IfOk result (λ r. (told r.0, r.1.now) ≡ filling shape.now words.now) }
{
    match shape {
        Shape::Word => Ok(fill_word(words)),
        Shape::Words(count) => {
            let (parts, rest) = fill_words(alloc, *count, words)?;
            Ok((Value::Struct(parts), rest))
        }
        Shape::Group(shapes) => {
            let (parts, rest) = fill_each(alloc, shapes.as_slice(), words)?;
            Ok((Value::Struct(parts), rest))
        }
    }
}

/// Values of the shapes with the first of the words, and the words that are left.
#[cycle(fill)]
fn fill_each<'w>(
    alloc: Global,
    shapes: &[Shape],
    words: &'w [u64],
) -> Result<(List<Value>, &'w [u64]), NoMemory>
    ensures { IfOk result (λ r. (all_told r.0, r.1.now) ≡ fill_each (map filling shapes.now) words.now) }
{
    let mut values = List::new(alloc);
    let mut left = words;
    for shape in shapes {
        let (value, rest) = fill(alloc, shape, left)?;
        values.push(value)?;
        left = rest;
    }
    Ok((values, left))
}

/// The value of the shape with these words. Words that aren't there count as 0.
pub fn filled(alloc: Global, shape: &Shape, words: &[u64]) -> Result<Value, NoMemory>
    ensures { IfOk result (λ v. told v ≡ filled shape.now words.now) }
{
    let (value, _) = fill(alloc, shape, words)?;
    Ok(value)
}

/// The value of the shape whose words are all 0.
pub fn zero_value(alloc: Global, shape: &Shape) -> Result<Value, NoMemory>
    ensures { IfOk result (λ v. told v ≡ zero_of shape.now) }
{
    filled(alloc, shape, &[])
}
