//! The functions, exceptions and foreign names of a program, by name.

ghost use Rattle.std.specs.Prelude.{◌≡◌, map, IfOk};
ghost use Rattle.std.specs.Option.{option_copied};
ghost use Rattle.pan_tree.specs.Check.{foreign_names, function_of, result_of, exception_of};
ghost use Rattle.pan_tree.specs.Meaning.{function_index, exception_index, foreign_index};
ghost use Rattle.source_resolver.specs.Numbering.{numbered};

use crate::numbers::Numbers;
use pan_base::NoMemory;
use pan_shapes::Checked;
use pan_tree::{Exception, Function, Program, Shape, copy_shape};
use std::alloc::Global;
use std::marker::Model;

/// The names of the functions with their numbers.
fn function_numbers<'p>(alloc: Global, functions: &'p [Function]) -> Result<Numbers<'p>, NoMemory>
    ensures { IfOk result (λ n. n ≡ numbered 0 (map (λ f. f.name) functions.now)) }
{
    let mut numbers = Numbers::new(alloc);
    for i in 0..functions.len() {
        numbers.add(functions[i].name.as_bytes(), i)?;
    }
    Ok(numbers)
}

/// The names of the exceptions with their numbers.
fn exception_numbers<'p>(
    alloc: Global,
    exceptions: &'p [Exception],
) -> Result<Numbers<'p>, NoMemory>
    ensures { IfOk result (λ n. n ≡ numbered 0 (map (λ x. x.name) exceptions.now)) }
{
    let mut numbers = Numbers::new(alloc);
    for i in 0..exceptions.len() {
        numbers.add(exceptions[i].name.as_bytes(), i)?;
    }
    Ok(numbers)
}

/// The foreign names with their numbers.
fn foreign_numbers<'p>(alloc: Global, checked: &'p Checked) -> Result<Numbers<'p>, NoMemory>
    ensures { IfOk result (λ n. n ≡ numbered 0 (foreign_names checked.now)) }
{
    let mut numbers = Numbers::new(alloc);
    for i in 0..checked.name_count() {
        numbers.add(checked.name(i), i)?;
    }
    Ok(numbers)
}

/// A program, with its functions, exceptions and foreign names by name.
#[derive(Drop)]
pub struct Directory<'p> {
    program: &'p Program,
    functions: Numbers<'p>,
    exceptions: Numbers<'p>,
    foreigns: Numbers<'p>,
}

impl<'p> Model for Directory<'p> {
    ghost use Rattle.std.specs.Prelude.{◌≡◌, map};
    ghost use Rattle.pan_tree.specs.declared.program.Program.{Program};
    ghost use Rattle.pan_tree.specs.declared.program.Exception.{Exception};
    ghost use Rattle.pan_tree.specs.declared.program.Function.{Function};
    ghost use Rattle.pan_tree.specs.Check.{foreign_names};
    ghost use Rattle.source_resolver.specs.Numbering.{numbered};

    ghost Value = { Program };

    ghost use Rattle.pan_tree.specs.contracts.shape.Shape as shape;
    ghost use Rattle.pan_tree.specs.contracts.syntax.ExprKind as expr_kind;
    ghost use Rattle.pan_tree.specs.contracts.syntax.StmtKind as stmt_kind;
    ghost use Rattle.std.specs.Coded.{codes};

    ghost coded = { Prim.hlevel (codes, shape.the_row.coded, expr_kind.the_row.coded, stmt_kind.the_row.coded) };

    ghost view = { λ d. d.program.now };

    ghost invariant = { λ d. (d.functions ≡ numbered 0 (map (λ (f : Function). f.name) (d.program.now).functions)) × (d.exceptions ≡ numbered 0 (map (λ (x : Exception). x.name) (d.program.now).exceptions)) × (d.foreigns ≡ numbered 0 (foreign_names d.program.now)) };
}

impl<'p> Directory<'p> {
    /// The program's.
    pub fn of(alloc: Global, checked: &'p Checked) -> Result<Directory<'p>, NoMemory>
        ensures { IfOk result (λ d. d ≡ checked.now) }
    {
        let program = checked.program();
        let functions = function_numbers(alloc, program.functions.as_slice())?;
        let exceptions = exception_numbers(alloc, program.exceptions.as_slice())?;
        let foreigns = foreign_numbers(alloc, checked)?;
        Ok(Directory {
            program,
            functions,
            exceptions,
            foreigns,
        })
    }

    /// The number of the function of this name.
    pub fn function(&self, name: &[u8]) -> Option<usize>
        ensures { result ≡ function_index name.now self.now }
    {
        self.functions.find(name)
    }

    /// The number of the exception of this name.
    pub fn exception(&self, name: &[u8]) -> Option<usize>
        ensures { result ≡ exception_index name.now self.now }
    {
        self.exceptions.find(name)
    }

    /// The number of the foreign name.
    pub fn foreign(&self, name: &[u8]) -> Option<usize>
        ensures { result ≡ foreign_index name.now self.now }
    {
        self.foreigns.find(name)
    }

    /// The function of this name.
    pub fn function_named(&self, name: &[u8]) -> Option<&'p Function>
        ensures { option_copied result ≡ function_of name.now self.now }
    {
        match self.functions.find(name) {
            Some(i) => self.program.functions.as_slice().get(i),
            None => None,
        }
    }

    /// The exception of this name.
    pub fn exception_named(&self, name: &[u8]) -> Option<&'p Exception>
        ensures { option_copied result ≡ exception_of name.now self.now }
    {
        match self.exceptions.find(name) {
            Some(i) => self.program.exceptions.as_slice().get(i),
            None => None,
        }
    }

    /// The shape of the result of the function of this name, or a word where there is none.
    pub fn result(&self, alloc: Global, name: &[u8]) -> Result<Shape, NoMemory>
        ensures { IfOk result (λ s. s ≡ result_of (function_of name.now self.now)) }
    {
        match self.function_named(name) {
            Some(function) => Ok(copy_shape(alloc, &function.result)?),
            None => Ok(Shape::Word),
        }
    }
}
