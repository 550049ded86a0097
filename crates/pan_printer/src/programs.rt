//! Printing programs.

ghost use Rattle.std.specs.Prelude.{◌≡◌, ◌++◌, OnOk, IfOk};
ghost use Rattle.pan_printer.specs.Pieces.{with_commas, text_of};
ghost use Rattle.pan_printer.specs.Canonical.{param_pieces, result_pieces, exception_pieces, function_pieces, canonical};
ghost use Rattle.pan_printer.specs.ReadsBack.{ReadsAs, Spellable};

use crate::output::Output;
use crate::shapes::put_shape;
use crate::statements::put_block;
use pan_base::{Blob, Keyword, NoMemory, Sign};
use pan_tree::{Exception, Function, Param, Program, Shape};
use std::alloc::Global;

/// Puts the shape of a result. One word is left out.
#[tactic(auto, using(crate::proofs::Texts::text_rules, crate::proofs::Layers::is_word_rules))]
fn put_result(out: &mut Output, shape: &Shape) -> Result<(), NoMemory>
    ensures { OnOk result (out.new ≡ out.old ++ text_of (result_pieces shape.now)) }
{
    match shape {
        Shape::Word => Ok(()),
        Shape::Words(_) | Shape::Group(_) => put_shape(out, shape),
    }
}

/// Puts a parameter.
#[tactic(auto, using(crate::proofs::Texts::text_rules))]
fn put_param(out: &mut Output, param: &Param) -> Result<(), NoMemory>
    ensures { OnOk result (out.new ≡ out.old ++ text_of (param_pieces param.now)) }
{
    put_shape(out, &param.shape)?;
    out.name(&param.name)?;
    Ok(())
}

/// Puts parameters with commas between them.
#[tactic(auto, using(crate::proofs::Texts::text_rules))]
fn put_params(out: &mut Output, params: &[Param]) -> Result<(), NoMemory>
    ensures { OnOk result (out.new ≡ out.old ++ text_of (with_commas param_pieces params.now)) }
{
    if let Some((first, more)) = params.split_first() {
        put_param(out, first)?;
        for param in more {
            out.sign(Sign::Comma)?;
            put_param(out, param)?;
        }
    }
    Ok(())
}

/// Puts an exception.
#[tactic(auto, using(crate::proofs::Texts::text_rules))]
fn put_exception(out: &mut Output, exception: &Exception) -> Result<(), NoMemory>
    ensures { OnOk result (out.new ≡ out.old ++ text_of (exception_pieces exception.now)) }
{
    out.word(Keyword::Exception)?;
    out.name(&exception.name)?;
    put_shape(out, &exception.shape)?;
    out.semicolon()?;
    Ok(())
}

/// Puts a function.
#[tactic(auto, using(crate::proofs::Texts::text_rules))]
fn put_function(out: &mut Output, function: &Function) -> Result<(), NoMemory>
    ensures { OnOk result (out.new ≡ out.old ++ text_of (function_pieces function.now)) }
{
    out.word(Keyword::Fun)?;
    put_result(out, &function.result)?;
    out.name(&function.name)?;
    out.sign(Sign::OpenParen)?;
    put_params(out, function.params.as_slice())?;
    out.sign(Sign::CloseParen)?;
    put_block(out, &function.body)?;
    Ok(())
}

/// The text of any program.
#[tactic(auto, using(crate::proofs::Texts::text_rules))]
pub fn text_of_program(alloc: Global, program: &Program) -> Result<Blob, NoMemory>
    ensures { IfOk result (λ text. text ≡ canonical program.now) }
{
    let mut out = Output::new(alloc);
    for exception in program.exceptions.as_slice() {
        put_exception(&mut out, exception)?;
    }
    for function in program.functions.as_slice() {
        put_function(&mut out, function)?;
    }
    Ok(out.into_blob())
}

/// The canonical text of a program that some text reads as. It reads as the program too.
pub fn print(alloc: Global, program: &Program) -> Result<Blob, NoMemory>
    requires { Spellable program.now }
    ensures text { IfOk result (λ text. text ≡ canonical program.now) }
    ensures reads_back { IfOk result (λ text. ReadsAs text program.now) }
{
    let text = text_of_program(alloc, program)?;
    Ok(text)
}
