//! What expressions give.

ghost use Rattle.std.specs.Prelude.{◌≡◌, ◌≤◌, map, Some, option_map};
ghost use Rattle.std.specs.Option.{option_copied};
ghost use Rattle.pan_base.specs.Words.{shift, negate, truth};
ghost use Rattle.pan_tree.specs.Value.{part_of_part};
ghost use Rattle.pan_tree.specs.Meaning as meaning;
ghost use Rattle.pan_runner.specs.Told.{told, all_told};
ghost use Rattle.source_resolver.specs.Slots as slots;
ghost use Rattle.source_resolver.specs.Slots.{value, word, values};
ghost use Rattle.pan_runner.specs.Evaluating.{term, loaded};
ghost use Rattle.pan_runner.specs.Halting.{Gives};

use crate::halt::Halt;
use crate::memory::{load_byte, load_word, load_words};
use crate::value::Value;
use crate::values::{as_word, copy, filled, part_at};
use pan_base::{BinOp, Cmp, List, ShOp};
use pan_tree::{Shape, count_words};
use source_resolver::Expr;
use std::alloc::Global;

/// What is left of a word that is shifted by all of its bits or more.
fn shifted_out(op: ShOp, word: u64, amount: u64) -> u64
    requires { 64 ≤ amount }
    ensures { result ≡ shift op word amount }
{
    match op {
        ShOp::Shl | ShOp::Shr => 0,
        ShOp::Sar => { if word < 1 << 63 { 0 } else { u64::MAX } }
        ShOp::Ror => word,
    }
}

/// The word shifted by so many bits.
pub fn shifted(op: ShOp, word: u64, amount: u64) -> u64
    ensures { result ≡ shift op word amount }
{
    if amount < 64 {
        op.apply(word, amount as u32)
    } else {
        shifted_out(op, word, amount)
    }
}

/// The word shifted by each of the amounts, one after another.
fn shifted_by_each(word: u64, amounts: &[(ShOp, u64)]) -> u64
    ensures { result ≡ meaning.shifted amounts.now word }
{
    let mut word = word;
    for (op, amount) in amounts {
        word = shifted(*op, word, *amount);
    }
    word
}

/// The word with the other sign.
fn negated(word: u64) -> u64
    ensures { result ≡ negate word }
{
    word.wrapping_neg()
}

/// 1 where the comparison holds of the words, else 0.
fn compared(cmp: Cmp, left: u64, right: u64) -> u64
    ensures { result ≡ truth cmp left right }
{
    u64::from(cmp.holds(left, right))
}

/// The variable at this place.
fn variable(variables: &[Value], place: Option<usize>) -> Option<&Value>
    ensures { option_map told (option_copied result) ≡ slots.variable place (all_told variables.now) }
{
    variables.get(place?)
}

/// The word, of a value that is one.
fn word_in(value: Option<&Value>) -> Option<u64>
    ensures { result ≡ meaning.as_word (option_map told (option_copied value.entry)) }
{
    as_word(value?)
}

/// A part of a variable.
#[tactic(auto, using(crate::proofs::ToldLayers::part_rules))]
fn part_of_variable<'v>(
    variables: &'v [Value],
    place: Option<usize>,
    path: &[u64],
) -> Option<&'v Value>
    ensures { option_map told (option_copied result) ≡ part_of_part (slots.variable place (all_told variables.now)) path.now }
{
    part_at(variable(variables, place)?, path)
}

/// A copy of the value, which fails where there is none.
fn copied(alloc: Global, value: Option<&Value>) -> Result<Value, Halt>
    ensures { Gives told result (option_map told (option_copied value.entry)) }
{
    match value {
        Some(value) => Ok(copy(alloc, value)?),
        None => Err(Halt::Fails),
    }
}

/// The word that local memory has at an address, if the shape is that of a word.
#[tactic(auto, using(crate::proofs::LoadLemmas::load_rules))]
fn loaded_word(shape: &Shape, memory: &[u8], addr: u64) -> Option<u64>
    ensures { result ≡ meaning.as_word (loaded shape.now memory.now (Some addr)) }
{
    match shape {
        Shape::Word => load_word(memory, addr),
        Shape::Words(_) | Shape::Group(_) => None,
    }
}

/// What local memory has from an address on, read as a value of the shape.
fn loaded(alloc: Global, shape: &Shape, memory: &[u8], addr: u64) -> Result<Value, Halt>
    ensures { Gives told result (loaded shape.now memory.now (Some addr)) }
{
    match load_words(alloc, memory, addr, count_words(shape))? {
        Some(words) => Ok(filled(alloc, shape, words.as_slice())?),
        None => Err(Halt::Fails),
    }
}

/// What the expression gives with these variables and this local memory.
#[cycle(evaluate)]
pub fn evaluate(
    alloc: Global,
    expr: &Expr,
    variables: &[Value],
    memory: &[u8],
) -> Result<Value, Halt>
    ensures { Gives told result (value expr.now (all_told variables.now) memory.now) }
{
    match expr {
        Expr::Variable(place) => copied(alloc, variable(variables, *place)),
        Expr::Struct(parts) => {
            let parts = evaluate_all(alloc, parts.as_slice(), variables, memory)?;
            Ok(Value::Struct(parts))
        }
        Expr::Field(of, path) => {
            evaluate_field(alloc, of.get(), path.as_slice(), variables, memory)
        }
        Expr::Load(shape, addr) => {
            let addr = evaluate_word(alloc, addr.get(), variables, memory)?;
            loaded(alloc, shape, memory, addr)
        }
        Expr::Number(_)
        | Expr::LoadByte(_)
        | Expr::Neg(_)
        | Expr::Chain(_, _)
        | Expr::Shift(_, _)
        | Expr::Compare(_, _, _) => {
            let word = evaluate_word(alloc, expr, variables, memory)?;
            Ok(Value::Word(word))
        }
    }
}

/// The word that the expression gives. A struct is none.
#[cycle(evaluate)]
pub fn evaluate_word(
    alloc: Global,
    expr: &Expr,
    variables: &[Value],
    memory: &[u8],
) -> Result<u64, Halt>
    ensures { Gives (λ n. n) result (word expr.now (all_told variables.now) memory.now) }
{
    match expr {
        Expr::Number(word) => Ok(*word),
        Expr::Variable(place) => word_in(variable(variables, *place)).ok_or(Halt::Fails),
        Expr::Struct(_) => Err(Halt::Fails),
        Expr::Field(of, path) => {
            evaluate_field_word(alloc, of.get(), path.as_slice(), variables, memory)
        }
        Expr::Load(shape, addr) => {
            let addr = evaluate_word(alloc, addr.get(), variables, memory)?;
            loaded_word(shape, memory, addr).ok_or(Halt::Fails)
        }
        Expr::LoadByte(addr) => {
            let addr = evaluate_word(alloc, addr.get(), variables, memory)?;
            load_byte(memory, addr).ok_or(Halt::Fails)
        }
        Expr::Neg(of) => Ok(negated(evaluate_word(alloc, of.get(), variables, memory)?)),
        Expr::Chain(first, rest) => {
            let first = evaluate_word(alloc, first.get(), variables, memory)?;
            evaluate_chain(alloc, first, rest.as_slice(), variables, memory)
        }
        Expr::Shift(of, amounts) => {
            let word = evaluate_word(alloc, of.get(), variables, memory)?;
            Ok(shifted_by_each(word, amounts.as_slice()))
        }
        Expr::Compare(cmp, left, right) => {
            let left = evaluate_word(alloc, left.get(), variables, memory)?;
            let right = evaluate_word(alloc, right.get(), variables, memory)?;
            Ok(compared(*cmp, left, right))
        }
    }
}

/// A part of what the expression gives. A part of a variable is all that is copied of it.
#[cycle(evaluate)]
fn evaluate_field(
    alloc: Global,
    of: &Expr,
    path: &[u64],
    variables: &[Value],
    memory: &[u8],
) -> Result<Value, Halt>
    ensures { Gives told result (part_of_part (value of.now (all_told variables.now) memory.now) path.now) }
{
    if let Expr::Variable(place) = of {
        return copied(alloc, part_of_variable(variables, *place, path));
    }
    let value = evaluate(alloc, of, variables, memory)?;
    copied(alloc, part_at(&value, path))
}

/// The word that is a part of what the expression gives. Nothing of a variable is copied.
#[cycle(evaluate)]
fn evaluate_field_word(
    alloc: Global,
    of: &Expr,
    path: &[u64],
    variables: &[Value],
    memory: &[u8],
) -> Result<u64, Halt>
    ensures { Gives (λ n. n) result (meaning.as_word (part_of_part (value of.now (all_told variables.now) memory.now) path.now)) }
{
    if let Expr::Variable(place) = of {
        return word_in(part_of_variable(variables, *place, path)).ok_or(Halt::Fails);
    }
    let value = evaluate(alloc, of, variables, memory)?;
    word_in(part_at(&value, path)).ok_or(Halt::Fails)
}

/// The word that a chain gives, from its first word and the terms behind it.
#[cycle(evaluate)]
fn evaluate_chain(
    alloc: Global,
    first: u64,
    rest: &[(BinOp, Expr)],
    variables: &[Value],
    memory: &[u8],
) -> Result<u64, Halt>
    ensures { Gives (λ n. n) result (slots.chain (Some first) (map term rest.now) (all_told variables.now) memory.now) }
{
    let mut word = first;
    for (op, term) in rest {
        let right = evaluate_word(alloc, term, variables, memory)?;
        word = op.apply(word, right);
    }
    Ok(word)
}

/// What the expressions give, in their order.
#[cycle(evaluate)]
pub fn evaluate_all(
    alloc: Global,
    exprs: &[Expr],
    variables: &[Value],
    memory: &[u8],
) -> Result<List<Value>, Halt>
    ensures { Gives all_told result (values exprs.now (all_told variables.now) memory.now) }
{
    let mut all = List::new(alloc);
    for expr in exprs {
        let value = evaluate(alloc, expr, variables, memory)?;
        all.push(value)?;
    }
    Ok(all)
}
