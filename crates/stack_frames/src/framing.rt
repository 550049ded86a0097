//! From programs over homes to programs over frames.

ghost use Rattle.std.specs.Prelude.{◌≡◌, map, IfOk};
ghost use Rattle.pan_stage.specs.Stage.{KeepsOverStack};
ghost use Rattle.word_lang.specs.Homes.{AreOverHomes};
ghost use Rattle.word_lang.specs.Stage as words;
ghost use Rattle.stack_lang.specs.Stage as stacks;
ghost use Rattle.stack_frames.specs.Frames.{framed_function, framed_program};

use crate::bodies::{fetched_before, framed_stmt};
use crate::numbering::slots_of_function;
use pan_base::{Blob, List, NoMemory};
use pan_stage::Program;
use stack_lang::{StackFun, StackProg, words_before_slots};
use std::alloc::Global;
use word_lang::{WordFun, WordProg};

/// The bytes of a function's frame, a multiple of 16: 0 where it has no slots and calls nothing but by tail calls.
pub fn frame_bytes(fun: &StackFun) -> u64
    ensures { result ≡ fun.now.frame }
{
    fun.frame
}

/// The function over its frame: the words before the slots, the slots, and one more word where that makes whole 16 bytes.
fn framed_fun(alloc: Global, function: &WordFun) -> Result<StackFun, NoMemory>
    ensures { IfOk result (λ code. code ≡ framed_function function.now) }
{
    let slots = slots_of_function(alloc, function)?;
    let body = framed_stmt(alloc, &slots, &function.body)?;
    let body = fetched_before(alloc, &slots, function.params.as_slice(), body)?;
    let frame = 16 * ((words_before_slots(&body) + slots.homes.len() as u64 + 1) / 2);
    Ok(StackFun {
        name: Blob::from_slice(alloc, function.name.as_slice())?,
        cost: function.cost,
        frame,
        body,
    })
}

/// The functions over their frames.
fn framed_funs(alloc: Global, functions: &[WordFun]) -> Result<List<StackFun>, NoMemory>
    ensures { IfOk result (λ code. code ≡ map framed_function functions.now) }
{
    let mut code = List::new(alloc);
    for function in functions {
        code.push(framed_fun(alloc, function)?)?;
    }
    Ok(code)
}

/// The program over frames: wherever the program over homes doesn't fail, it does what that does, or its stack is exhausted
/// where the active calls cost more than the stack has. `NoMemory` is the one error.
pub fn frames(alloc: Global, prog: &WordProg) -> Result<StackProg, NoMemory>
    requires { AreOverHomes prog.now.program }
    ensures { IfOk result (λ s. KeepsOverStack (words.stage prog.now.program) (stacks.stage s.program)) }
{
    let functions = framed_funs(alloc, prog.program.functions.as_slice())?;
    let program = prog.program.with_functions(alloc, functions)?;
    Ok(StackProg { program })
}
