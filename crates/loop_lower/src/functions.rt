//! Functions and programs.

ghost use Rattle.std.specs.Prelude.{◌≡◌, map, IfOk};
ghost use Rattle.std.specs.List.{All};
ghost use Rattle.crep_lang.specs.Stage as crep_stage;
ghost use Rattle.loop_lang.specs.Stage as loop_stage;
ghost use Rattle.pan_stage.specs.Stage.{Keeps};
ghost use Rattle.loop_lower.specs.Lowered.{IsPriced, first_free, limit_of, lower_function as lowered};

use crate::blocks::lower_stmt;
use crate::numbers::above_function;
use crate::places::Room;
use crep_lang::{CrepFun, CrepProg};
use loop_lang::{LoopFun, LoopProg};
use pan_base::{Blob, List, NoMemory};
use std::alloc::Global;

/// Between which numbers the temporaries of a function stand.
fn room_of(function: &CrepFun) -> Room
    requires { IsPriced function.now }
    ensures limit { result.limit ≡ limit_of function.now }
    ensures base { result.base ≡ first_free function.now }
{
    let base = above_function(function);
    let words = function.cost / 8;
    Room {
        limit: (words - 5) as u32,
        base: base as u32,
    }
}

/// What a function becomes.
fn lower_function(alloc: Global, function: &CrepFun) -> Result<LoopFun, NoMemory>
    requires { IsPriced function.now }
    ensures { IfOk result (λ f. f ≡ lowered function.now) }
{
    let room = room_of(function);
    let body = lower_stmt(alloc, room, &function.body, room.base)?;
    Ok(LoopFun {
        name: Blob::from_slice(alloc, function.name.as_slice())?,
        cost: function.cost,
        params: function.params,
        results: function.results,
        body: body.stmt,
    })
}

fn lower_functions(alloc: Global, functions: &[CrepFun]) -> Result<List<LoopFun>, NoMemory>
    requires { All IsPriced functions.now }
    ensures { IfOk result (λ fs. fs ≡ map lowered functions.now) }
{
    let mut lowered = List::new(alloc);
    for i in 0..functions.len() {
        lowered.push(lower_function(alloc, &functions[i])?)?;
    }
    Ok(lowered)
}

/// From expressions to steps between variables: each operand that is no variable is computed into a temporary. The steps
/// of a loop's test run at each test. Calls nest as deep as statements and second operands do; a chain of operators is
/// followed in a loop. `NoMemory` is the one error; it also stands for a temporary whose number passes 32 bits, for which no lawful frame
/// has room.
pub fn lower(alloc: Global, prog: &CrepProg) -> Result<LoopProg, NoMemory>
    ensures { IfOk result (λ l. Keeps (crep_stage.stage prog.now.program) (loop_stage.stage l.program)) }
{
    let functions = lower_functions(alloc, prog.program.functions.as_slice())?;
    let program = prog.program.with_functions(alloc, functions)?;
    Ok(LoopProg { program })
}
