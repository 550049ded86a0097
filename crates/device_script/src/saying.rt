//! What lines say.

ghost use Rattle.std.specs.Prelude.{◌≡◌, ◌≢◌, ◌<◌, ◌∷◌, [], length, IfSome, IfNone};
ghost use Rattle.device_script.specs.Lines.{words};
ghost use Rattle.device_script.specs.Saying as saying;
ghost use Rattle.device_script.specs.Told.{Tells};

use crate::cutting::next_word;
use crate::error::{Cause, LineError};
use crate::line::{Line, Piece};
use crate::rules::{Effect, Rule, Values};
use crate::words::{bytes_of, is_name, number_of, place_of};
use pan_base::Blob;
use std::alloc::Global;

/// Where local memory ends at the most.
const MEMORY_END: u64 = 67_108_864;

/// The first two words, and what follows them.
fn first_two(rest: &[u8]) -> Option<(&[u8], &[u8], &[u8])>
    ensures some { IfSome result (λ w. words rest.now ≡ w.0.now ∷ w.1.now ∷ words w.2.now) }
    ensures none { IfNone result (length (words rest.now) < 2) }
{
    let (first, rest) = next_word(rest)?;
    let (second, rest) = next_word(rest)?;
    Some((first, second, rest))
}

/// The only word.
fn one(rest: &[u8]) -> Option<&[u8]>
    ensures some { IfSome result (λ w. words rest.now ≡ w.now ∷ []) }
    ensures none { IfNone result (length (words rest.now) ≢ 1) }
{
    let (word, rest) = next_word(rest)?;
    match next_word(rest) {
        Some(_) => None,
        None => Some(word),
    }
}

/// The only two words.
fn two(rest: &[u8]) -> Option<(&[u8], &[u8])>
    ensures some { IfSome result (λ w. words rest.now ≡ w.0.now ∷ w.1.now ∷ []) }
    ensures none { IfNone result (length (words rest.now) ≢ 2) }
{
    let (first, rest) = next_word(rest)?;
    let second = one(rest)?;
    Some((first, second))
}

/// The only three words.
fn three(rest: &[u8]) -> Option<(&[u8], &[u8], &[u8])>
    ensures some { IfSome result (λ w. words rest.now ≡ w.0.now ∷ w.1.now ∷ w.2.now ∷ []) }
    ensures none { IfNone result (length (words rest.now) ≢ 3) }
{
    let (first, rest) = next_word(rest)?;
    let (second, third) = two(rest)?;
    Some((first, second, third))
}

/// The only four words.
fn four(rest: &[u8]) -> Option<(&[u8], &[u8], &[u8], &[u8])>
    ensures some { IfSome result (λ w. words rest.now ≡ w.0.now ∷ w.1.now ∷ w.2.now ∷ w.3.now ∷ []) }
    ensures none { IfNone result (length (words rest.now) ≢ 4) }
{
    let (first, rest) = next_word(rest)?;
    let (second, third, fourth) = three(rest)?;
    Some((first, second, third, fourth))
}

/// Whether a piece has a byte, and local memory may reach so far.
fn is_piece(offset: u64, bytes: &Blob) -> bool
    ensures { result ≡ saying.is_piece offset bytes.now }
{
    let len = bytes.as_slice().len();
    len > 0 && len <= MEMORY_END as usize && offset <= MEMORY_END - len as u64
}

/// `memory O HEX`
fn memory(alloc: Global, rest: &[u8]) -> Result<Line, LineError>
    ensures { Tells result (saying.memory_said (words rest.now)) }
{
    let (offset, hex) = two(rest).ok_or(Cause::Count)?;
    let offset = number_of(offset)?;
    let bytes = bytes_of(alloc, hex)?;
    if is_piece(offset, &bytes) {
        Ok(Line::Piece(Piece { offset, bytes }))
    } else {
        Err(LineError::Wrong(Cause::Range))
    }
}

/// `register N A V`
fn register(rest: &[u8]) -> Result<Line, Cause>
    ensures { result ≡ saying.register_said (words rest.now) }
{
    let (bits, addr, value) = three(rest).ok_or(Cause::Count)?;
    let (size, addr) = place_of(bits, addr)?;
    let value = number_of(value)?;
    Ok(Line::Rule(Rule::Register { size, addr, value }))
}

/// The values that words say.
fn values(alloc: Global, rest: &[u8]) -> Result<Values, LineError>
    ensures { Tells result (saying.numbers_said (words rest.now)) }
{
    let mut values = Values::new(alloc);
    let mut rest = rest;
    'words: while let Some((word, after)) = next_word(rest) {
        values.push(number_of(word)?)?;
        rest = after;
    }
    Ok(values)
}

/// `queue N A V*`
fn queue(alloc: Global, rest: &[u8]) -> Result<Line, LineError>
    ensures { Tells result (saying.queue_said (words rest.now)) }
{
    let (bits, addr, rest) = first_two(rest).ok_or(Cause::Count)?;
    let (size, addr) = place_of(bits, addr)?;
    let values = values(alloc, rest)?;
    Ok(Line::Rule(Rule::Queue { size, addr, values }))
}

/// `counter N A V D`
fn counter(rest: &[u8]) -> Result<Line, Cause>
    ensures { result ≡ saying.counter_said (words rest.now) }
{
    let (bits, addr, first, step) = four(rest).ok_or(Cause::Count)?;
    let (size, addr) = place_of(bits, addr)?;
    let first = number_of(first)?;
    let step = number_of(step)?;
    Ok(Line::Rule(Rule::Counter {
        size,
        addr,
        first,
        step,
        loads: 0,
    }))
}

/// `collector N A K`
fn collector(rest: &[u8]) -> Result<Line, Cause>
    ensures { result ≡ saying.collector_said (words rest.now) }
{
    let (bits, addr, left) = three(rest).ok_or(Cause::Count)?;
    let (size, addr) = place_of(bits, addr)?;
    let left = number_of(left)?;
    Ok(Line::Rule(Rule::Collector { size, addr, left }))
}

/// What follows `bytes`.
fn replacement(alloc: Global, rest: &[u8]) -> Result<Effect, LineError>
    ensures { Tells result (saying.bytes_said (words rest.now)) }
{
    let hex = one(rest).ok_or(Cause::Count)?;
    let bytes = bytes_of(alloc, hex)?;
    Ok(Effect::Bytes(bytes))
}

/// What follows `conf`.
fn configuration(rest: &[u8]) -> Result<Effect, Cause>
    ensures { result ≡ saying.conf_said (words rest.now) }
{
    match next_word(rest) {
        Some(_) => Err(Cause::Count),
        None => Ok(Effect::Conf),
    }
}

/// What follows `add`.
fn growth(rest: &[u8]) -> Result<Effect, Cause>
    ensures { result ≡ saying.add_said (words rest.now) }
{
    let number = one(rest).ok_or(Cause::Count)?;
    let number = number_of(number)?;
    Ok(Effect::Add(number))
}

/// What a call does to its array, by its kind and what follows.
fn effect(alloc: Global, kind: &[u8], rest: &[u8]) -> Result<Effect, LineError>
    ensures { Tells result (saying.effect_said kind.now (words rest.now)) }
{
    if kind == b"bytes".as_slice() {
        replacement(alloc, rest)
    } else if kind == b"conf".as_slice() {
        let effect = configuration(rest)?;
        Ok(effect)
    } else if kind == b"add".as_slice() {
        let effect = growth(rest)?;
        Ok(effect)
    } else {
        Err(LineError::Wrong(Cause::Kind))
    }
}

/// `foreign NAME KIND ..`
fn foreign(alloc: Global, rest: &[u8]) -> Result<Line, LineError>
    ensures { Tells result (saying.foreign_said (words rest.now)) }
{
    let (name, kind, rest) = first_two(rest).ok_or(Cause::Count)?;
    if !is_name(name) {
        return Err(LineError::Wrong(Cause::Name));
    }
    let effect = effect(alloc, kind, rest)?;
    let name = Blob::from_slice(alloc, name)?;
    Ok(Line::Rule(Rule::Foreign { name, effect }))
}

/// What a line says.
pub fn said(alloc: Global, line: &[u8]) -> Result<Line, LineError>
    ensures { Tells result (saying.said (words line.now)) }
{
    let Some((first, rest)) = next_word(line) else {
        return Ok(Line::Silence);
    };
    if first.starts_with(b"#") {
        Ok(Line::Silence)
    } else if first == b"memory".as_slice() {
        memory(alloc, rest)
    } else if first == b"register".as_slice() {
        let line = register(rest)?;
        Ok(line)
    } else if first == b"queue".as_slice() {
        queue(alloc, rest)
    } else if first == b"counter".as_slice() {
        let line = counter(rest)?;
        Ok(line)
    } else if first == b"collector".as_slice() {
        let line = collector(rest)?;
        Ok(line)
    } else if first == b"foreign".as_slice() {
        foreign(alloc, rest)
    } else {
        Err(LineError::Wrong(Cause::Word))
    }
}
