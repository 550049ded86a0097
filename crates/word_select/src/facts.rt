//! What is known of variables.

ghost use Rattle.std.specs.Prelude.{◌≡◌, ◌++◌, take, IfOk, OnOk};
ghost use Rattle.word_select.specs.Facts as facts;

use pan_base::{Cmp, List, NoMemory, single};
use std::alloc::Global;

/// What is known of a variable: that it has this number, another variable's word and a number together, or whether a
/// comparison holds of two others.
#[derive(Clone, Copy)]
pub enum Fact {
    Number(u64),
    Sum(u32, u64),
    Compared(Cmp, u32, u32),
}

/// A variable and what is known of it.
#[derive(Clone, Copy)]
pub struct Known {
    pub variable: u32,
    pub fact: Fact,
}

/// So many of the newest facts stay beside a new one.
const MOST_FACTS: usize = 16;

/// Whether a fact speaks of a variable.
fn is_about(variable: u32, fact: Fact) -> bool
    ensures { result ≡ facts.about variable fact }
{
    match fact {
        Fact::Number(_) => false,
        Fact::Sum(a, _) => variable == a,
        Fact::Compared(_, a, b) => variable == a || variable == b,
    }
}

/// Whether a variable is known, or spoken of.
fn is_touched(variable: u32, known: Known) -> bool
    ensures { result ≡ facts.is_touched variable known }
{
    variable == known.variable || is_about(variable, known.fact)
}

/// Adds what is still known when a variable is written.
fn add_untouched(kept: &mut List<Known>, variable: u32, known: &[Known]) -> Result<(), NoMemory>
    ensures { OnOk result (kept.new ≡ kept.old ++ facts.forget variable known.now) }
{
    for k in known {
        if !is_touched(variable, *k) {
            kept.push(*k)?;
        }
    }
    Ok(())
}

/// What is still known when a variable is written.
pub fn forgotten(alloc: Global, variable: u32, known: &[Known]) -> Result<List<Known>, NoMemory>
    ensures { IfOk result (λ kept. kept ≡ facts.forget variable known.now) }
{
    let mut kept = List::new(alloc);
    add_untouched(&mut kept, variable, known)?;
    Ok(kept)
}

fn newest(known: &[Known]) -> &[Known]
    ensures { result.now ≡ take facts.most_facts known.now }
{
    if known.len() > MOST_FACTS {
        &known[..MOST_FACTS]
    } else {
        known
    }
}

/// What is known when a variable is written and this is known of it.
pub fn learned(
    alloc: Global,
    variable: u32,
    fact: Fact,
    known: &[Known],
) -> Result<List<Known>, NoMemory>
    ensures { IfOk result (λ kept. kept ≡ facts.learn variable fact known.now) }
{
    if is_about(variable, fact) {
        return forgotten(alloc, variable, known);
    }
    let mut kept = single(alloc, Known { variable, fact })?;
    add_untouched(&mut kept, variable, newest(known))?;
    Ok(kept)
}

/// What is known of a variable.
pub fn found(known: &[Known], variable: u32) -> Option<Fact>
    ensures { result ≡ facts.found variable known.now }
{
    for k in known {
        if variable == k.variable {
            return Some(k.fact);
        }
    }
    None
}

/// The number that a variable has.
pub fn number_at(known: &[Known], variable: u32) -> Option<u64>
    ensures { result ≡ facts.number_at variable known.now }
{
    match found(known, variable) {
        Some(Fact::Number(number)) => Some(number),
        _ => None,
    }
}
