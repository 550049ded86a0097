//! From programs to lines.

ghost use Rattle.std.specs.Prelude.{◌≡◌, ℕ, ◌+◌, ◌^◌, ◌<◌, ◌≤◌, All, List, ◌++◌, map, IfOk};
ghost use Rattle.pan_stage.specs.Stage.{KeepsInSteps};
ghost use Rattle.stack_lang.specs.Frames.{front_words};
ghost use Rattle.stack_lang.specs.Stage as stacks;
ghost use Rattle.lab_lang.specs.Layout.{IsLayout};
ghost use Rattle.lab_lang.specs.Meaning.{behaviour};
ghost use Rattle.lab_lang.specs.Stage as labs;
ghost use Rattle.lab_flatten.specs.Contract.{RunsOnFuel};
ghost use Rattle.lab_flatten.specs.Flatten.{flat, function_lines, functions_lines, labels_in, lab_function, lab_program};

use crate::outer_rows::{put_start, put_stub, put_unwind};
use crate::rows::put_entry;
use crate::statements::{Place, after, flatten_stmt};
use lab_lang::{LabFun, LabProg, Line};
use pan_base::{Blob, List, NoMemory};
use stack_lang::{StackFun, StackProg, words_before_slots};
use std::alloc::Global;

/// How many there are. A program has at most 4,096 functions.
fn counted(count: usize) -> Result<u32, NoMemory>
    ensures { IfOk result (λ n. n ≡ count) }
{
    match u32::try_from(count) {
        Ok(count) => Ok(count),
        Err(_) => Err(NoMemory),
    }
}

/// Puts the lines of a function at the end; the next free label.
#[tactic(auto, using(crate::proofs::Rules::offset_rules))]
fn flatten_function(
    lines: &mut List<Line>,
    function: &StackFun,
    number: u32,
    stub: u32,
    unwind: u32,
    free: u32,
) -> Result<u32, NoMemory>
    requires { function.now.frame < 2 ^ 40 }
    ensures lines { IfOk result (λ next. lines.new ≡ lines.old ++ function_lines number free stub unwind function.now) }
    ensures labels { IfOk result (λ next. next ≡ free + (flat (front_words function.now) function.now.frame unwind function.now.body).labels) }
{
    let front = words_before_slots(&function.body);
    let place = Place {
        front,
        size: function.frame,
        unwind,
        out: stub,
        again: stub,
        last: false,
    };
    put_entry(lines, number, front, function.frame, stub)?;
    flatten_stmt(lines, place, &function.body, free)
}

/// Puts the lines of all functions at the end; the next free label.
fn flatten_functions(
    lines: &mut List<Line>,
    functions: &[StackFun],
    stub: u32,
    unwind: u32,
    free: u32,
) -> Result<u32, NoMemory>
    requires { All (λ f. f.frame < 2 ^ 40) functions.now }
    ensures lines { IfOk result (λ next. lines.new ≡ lines.old ++ functions_lines stub unwind functions.now 0 free) }
    ensures labels { IfOk result (λ next. next ≡ free + labels_in unwind functions.now) }
{
    let mut number = 0;
    let mut at = free;
    for function in functions {
        at = flatten_function(lines, function, number, stub, unwind, at)?;
        number = after(number, 1)?;
    }
    Ok(at)
}

/// What is left of functions beside their lines.
fn shown_functions(alloc: Global, functions: &[StackFun]) -> Result<List<LabFun>, NoMemory>
    ensures { IfOk result (λ shown. shown ≡ map lab_function functions.now) }
{
    let mut shown = List::new(alloc);
    for function in functions {
        let name = Blob::from_slice(alloc, function.name.as_slice())?;
        shown.push(LabFun {
            name,
            cost: function.cost,
        })?;
    }
    Ok(shown)
}

/// From a program over frames to lines. At each layout, wherever the program doesn't fail, the lines do what it does, in at
/// least a step for each unit of fuel that it takes. The only error is out of memory.
pub fn flatten_code(alloc: Global, prog: &StackProg) -> Result<LabProg, NoMemory>
    ensures keeps { IfOk result (λ lab. (layout : List (ℕ × ℕ)) → IsLayout 0 lab.lines layout → KeepsInSteps (stacks.stage prog.now.program) (labs.stage lab.program lab.lines layout)) }
    ensures fuel { IfOk result (λ lab. (layout : List (ℕ × ℕ)) → IsLayout 0 lab.lines layout → RunsOnFuel prog.now.program (behaviour lab.program lab.lines layout)) }
{
    let functions = prog.program.functions.as_slice();
    let count = counted(functions.len())?;
    let unwind = after(count, 1)?;
    let uncaught = after(count, 2)?;
    let free = after(count, 3)?;
    let mut lines = List::new(alloc);
    put_start(&mut lines, prog.program.main)?;
    put_stub(&mut lines, count)?;
    put_unwind(&mut lines, unwind, uncaught)?;
    let labels = flatten_functions(&mut lines, functions, count, unwind, free)?;
    let shown = shown_functions(alloc, functions)?;
    let program = prog.program.with_functions(alloc, shown)?;
    Ok(LabProg {
        program,
        lines,
        labels,
    })
}
