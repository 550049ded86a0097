//! A small function, its slots, and what its variables become.

ghost use Rattle.std.specs.Prelude.{◌≡◌, IfOk};

use crate::homes::Home;
use crate::own_slots::slots;
use crate::renaming::apply;
use pan_base::{Blob, Boxed, List, NoMemory, single};
use pan_stage::Handler;
use std::alloc::Global;
use std::test::Fail;
use word_lang::{Stmt, WordFun};

/// `f(0) { 1 = 7; 3 = call f(0, 1), or for exception 0 with 2 { return 2 }; return 1 }`: the 3 isn't read.
fn small(alloc: Global) -> Result<WordFun, NoMemory> {
    let caught = Boxed::new(alloc, Stmt::Return(single(alloc, 2)?))?;
    let handler = Some(Handler {
        exception: 0,
        variables: single(alloc, 2)?,
        body: caught,
    });
    let mut all = List::new(alloc);
    all.push(Stmt::Const(1, 7))?;
    all.push(Stmt::Call {
        results: single(alloc, 3)?,
        function: 0,
        args: List::from_slice(alloc, &[0, 1])?,
        handler,
    })?;
    all.push(Stmt::Return(single(alloc, 1)?))?;
    Ok(WordFun {
        name: Blob::from_slice(alloc, b"f")?,
        cost: 128,
        params: single(alloc, 0)?,
        results: 1,
        body: Stmt::Seq(all),
    })
}

fn push_all(out: &mut List<u32>, variables: &List<u32>) -> Result<(), NoMemory> {
    for x in variables.as_slice() {
        out.push(*x)?;
    }
    Ok(())
}

/// The variables of such a statement, in the order of the text.
fn push_variables(out: &mut List<u32>, stmt: &Stmt) -> Result<(), NoMemory> {
    match stmt {
        Stmt::Seq(all) => {
            for part in all.as_slice() {
                push_variables(out, part)?;
            }
        }
        Stmt::Const(x, _) => out.push(*x)?,
        Stmt::Call {
            results,
            args,
            handler,
            ..
        } => {
            push_all(out, results)?;
            push_all(out, args)?;
            match handler {
                None => (),
                Some(handler) => {
                    push_all(out, &handler.variables)?;
                    push_variables(out, handler.body.get())?;
                }
            }
        }
        Stmt::Return(xs) => push_all(out, xs)?,
        _ => (),
    }
    Ok(())
}

/// Its parameter's home; that of 1; those of 3, 0 and 1; those of 2, caught and returned; that of 1.
const HOMES: [u32; 8] = [32, 33, 35, 32, 33, 34, 34, 33];

#[test]
fn variables_become_slots(rt: HostRuntime) -> Result<(), Fail> {
    let fun = small(rt.alloc())?;
    let colours = slots(rt.alloc(), &fun)?;
    assert_eq!(rt; colours.count(), 4);
    for v in 0..colours.count() {
        assert_eq!(rt; colours.home(v), Home::Slot(v));
    }
    let renamed = apply(rt.alloc(), &fun, &colours)?;
    let mut variables = List::new(rt.alloc());
    push_all(&mut variables, &renamed.params)?;
    push_variables(&mut variables, &renamed.body)?;
    assert_eq!(rt; variables.as_slice(), HOMES.as_slice());
    Ok(())
}
