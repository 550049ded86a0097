//! Programs.

ghost use Rattle.std.specs.Prelude.{◌≡◌, map, codes, IfOk};
ghost use Rattle.pan_stage.specs.Stage.{Keeps};
ghost use Rattle.pan_tree.specs.Check as check;
ghost use Rattle.pan_tree.specs.Shapes.{words_of};
ghost use Rattle.pan_tree.specs.Meaning.{function_index};
ghost use Rattle.crep_lang.specs.Stage as crep;
ghost use Rattle.crep_flatten.specs.Flattened.{numbered, flattened};
ghost use Rattle.crep_flatten.specs.Source.{stage};

use crate::functions::flatten_functions;
use crate::shaping::size;
use crep_lang::CrepProg;
use pan_base::{Blob, List, NoMemory};
use pan_shapes::Checked;
use pan_stage::Program;
use pan_tree::{Exception, Program as Source};
use source_resolver::Directory;
use std::alloc::Global;

/// How many words each exception carries.
fn widths(alloc: Global, exceptions: &[Exception]) -> Result<List<u32>, NoMemory>
    ensures { IfOk result (λ ws. ws ≡ map (λ x. words_of x.shape) exceptions.now) }
{
    let mut all = List::new(alloc);
    for exception in exceptions {
        all.push(size(&exception.shape)?)?;
    }
    Ok(all)
}

/// Copies of the foreign names, in the order of their first use.
fn foreign_names(alloc: Global, checked: &Checked) -> Result<List<Blob>, NoMemory>
    ensures { IfOk result (λ names. names ≡ check.foreign_names checked.now) }
{
    let mut names = List::new(alloc);
    for i in 0..checked.name_count() {
        names.push(Blob::from_slice(alloc, checked.name(i))?)?;
    }
    Ok(names)
}

/// The number of `main`.
fn main_number(directory: &Directory<'_>) -> Result<u32, NoMemory>
    ensures { IfOk result (λ n. n ≡ numbered (function_index (codes "main") directory.now)) }
{
    match directory.function(b"main") {
        Some(number) => u32::try_from(number).map_err(|_| NoMemory),
        None => Ok(0),
    }
}

/// The program in words of a source that keeps every rule.
fn flatten_program(alloc: Global, checked: &Checked, source: &Source) -> Result<CrepProg, NoMemory>
    requires same { source.now ≡ checked.now }
    requires shaped { check.IsWellShaped checked.now }
    ensures { IfOk result (λ c. c.program ≡ flattened checked.now) }
{
    let directory = Directory::of(alloc, checked)?;
    let functions = flatten_functions(alloc, checked, &directory)?;
    let main = main_number(&directory)?;
    let exceptions = widths(alloc, source.exceptions.as_slice())?;
    let names = foreign_names(alloc, checked)?;
    let program = Program {
        functions,
        main,
        exceptions,
        names,
        globals: List::new(alloc),
    };
    Ok(CrepProg { program })
}

/// From a checked source to words: each struct becomes its words, and each name a number. Calls nest as deep as the source's
/// expressions and blocks do. `NoMemory` is the one error; it also stands for a number of a variable that passes 32 bits, which
/// no checked source has.
pub fn flatten(alloc: Global, checked: &Checked) -> Result<CrepProg, NoMemory>
    ensures { IfOk result (λ c. Keeps (stage checked.now) (crep.stage c.program)) }
{
    flatten_program(alloc, checked, checked.program())
}
