//! What statements become.

ghost use Rattle.std.specs.Prelude.{◌≡◌, ◌++◌, ◌∷◌, [], map, IfOk, OnOk};
ghost use Rattle.stack_frames.specs.Frames.{register_of, number_in, gets, puts, of_one, of_two, uses_two, operand, gets_both, passes, fetches, framed, framed_handler};
ghost use Rattle.word_lang.proofs.Equations.{handler_as};
ghost use Rattle.word_lang.specs.declared.syntax.Test.{Test};
ghost use Rattle.word_lang.specs.declared.syntax.Stmt.TheVariants as words;
ghost use Rattle.stack_lang.specs.declared.syntax.Stmt.TheVariants as stack;

use crate::constants::{put, put_constant};
use crate::numbering::Slots;
use crate::registers::{
    operand_register, put_both_gets, put_fetches, put_gets, put_passes, put_puts, register,
};
use pan_base::{Boxed, List, NoMemory};
use pan_stage::Handler;
use riscv_isa::Instr;
use stack_lang::{Catch, Stmt};
use std::alloc::Global;
use word_lang as word;

/// An instruction that gives a home what it makes of another one, between what brings their words.
#[tactic(auto, using(crate::proofs::Rules::row_rules))]
fn one_home(alloc: Global, slots: &Slots, stmt: Stmt, to: u32, from: u32) -> Result<Stmt, NoMemory>
    ensures { IfOk result (λ code. code ≡ of_one (number_in slots.now.homes) (λ d r. stmt) to from) }
{
    let mut code = List::new(alloc);
    put_gets(&mut code, slots, 5, from)?;
    put(&mut code, stmt)?;
    put_puts(&mut code, slots, to, 5)?;
    Ok(Stmt::Seq(code))
}

/// The same of two.
#[tactic(auto, using(crate::proofs::Rules::row_rules))]
fn two_homes(
    alloc: Global,
    slots: &Slots,
    stmt: Stmt,
    to: u32,
    first: u32,
    second: u32,
) -> Result<Stmt, NoMemory>
    ensures { IfOk result (λ code. code ≡ of_two (number_in slots.now.homes) (λ d r s. stmt) to first second) }
{
    let mut code = List::new(alloc);
    put_gets(&mut code, slots, 5, first)?;
    put_gets(&mut code, slots, 6, second)?;
    put(&mut code, stmt)?;
    put_puts(&mut code, slots, to, 5)?;
    Ok(Stmt::Seq(code))
}

/// An instruction that uses two homes.
#[tactic(auto, using(crate::proofs::Rules::row_rules))]
fn used_homes(
    alloc: Global,
    slots: &Slots,
    stmt: Stmt,
    first: u32,
    second: u32,
) -> Result<Stmt, NoMemory>
    ensures { IfOk result (λ code. code ≡ uses_two (number_in slots.now.homes) (λ r s. stmt) first second) }
{
    let mut code = List::new(alloc);
    put_gets(&mut code, slots, 5, first)?;
    put_gets(&mut code, slots, 6, second)?;
    put(&mut code, stmt)?;
    Ok(Stmt::Seq(code))
}

/// A constant for a home.
#[tactic(auto, using(crate::proofs::Rules::row_rules, crate::proofs::Rules::framed_rules))]
fn framed_constant(alloc: Global, slots: &Slots, to: u32, value: u64) -> Result<Stmt, NoMemory>
    ensures { IfOk result (λ code. code ≡ framed (number_in slots.now.homes) (words.Const to value)) }
{
    let mut code = List::new(alloc);
    put_constant(&mut code, register(5, to), value)?;
    put_puts(&mut code, slots, to, 5)?;
    Ok(Stmt::Seq(code))
}

/// The words of homes are passed before a statement.
#[tactic(auto, using(crate::proofs::Rules::row_rules))]
fn passed_before(alloc: Global, slots: &Slots, homes: &[u32], stmt: Stmt) -> Result<Stmt, NoMemory>
    ensures { IfOk result (λ code. code ≡ stack.Seq (passes (number_in slots.now.homes) 0 homes.now ++ stmt ∷ [])) }
{
    let mut code = List::new(alloc);
    put_passes(&mut code, slots, homes)?;
    put(&mut code, stmt)?;
    Ok(Stmt::Seq(code))
}

/// What brings the words that are passed to homes, before a statement.
#[tactic(auto, using(crate::proofs::Rules::row_rules))]
pub fn fetched_before(
    alloc: Global,
    slots: &Slots,
    homes: &[u32],
    stmt: Stmt,
) -> Result<Stmt, NoMemory>
    ensures { IfOk result (λ code. code ≡ stack.Seq (fetches (number_in slots.now.homes) 0 homes.now ++ stmt ∷ [])) }
{
    let mut code = List::new(alloc);
    put_fetches(&mut code, slots, homes)?;
    put(&mut code, stmt)?;
    Ok(Stmt::Seq(code))
}

/// What brings the words that a function returns to homes.
#[tactic(auto, using(crate::proofs::Rules::row_rules))]
fn fetched(alloc: Global, slots: &Slots, homes: &[u32]) -> Result<Boxed<Stmt>, NoMemory>
    ensures { IfOk result (λ code. code ≡ stack.Seq (fetches (number_in slots.now.homes) 0 homes.now)) }
{
    let mut code = List::new(alloc);
    put_fetches(&mut code, slots, homes)?;
    Ok(Boxed::new(alloc, Stmt::Seq(code))?)
}

/// A choice between what its statements became.
#[tactic(auto, using(crate::proofs::Rules::row_rules))]
fn framed_if(
    alloc: Global,
    slots: &Slots,
    test: &word::Test,
    first: Boxed<Stmt>,
    second: Boxed<Stmt>,
) -> Result<Stmt, NoMemory>
    ensures { IfOk result (λ code. code ≡ stack.Seq (gets_both (number_in slots.now.homes) test.now.left test.now.right ++ stack.If test.now.comparison (operand 5 test.now.left) (operand 6 test.now.right) first second ∷ [])) }
{
    let mut code = List::new(alloc);
    put_both_gets(&mut code, slots, test.left, test.right)?;
    let left = operand_register(5, test.left);
    let right = operand_register(6, test.right);
    put(
        &mut code,
        Stmt::If(test.comparison, left, right, first, second),
    )?;
    Ok(Stmt::Seq(code))
}

/// A loop of what its statements became.
#[tactic(auto, using(crate::proofs::Rules::row_rules))]
fn framed_while(
    slots: &Slots,
    before: List<Stmt>,
    test: &word::Test,
    body: Boxed<Stmt>,
) -> Result<Stmt, NoMemory>
    ensures { IfOk result (λ code. code ≡ stack.While (before ++ gets_both (number_in slots.now.homes) test.now.left test.now.right) test.now.comparison (operand 5 test.now.left) (operand 6 test.now.right) body) }
{
    let mut before = before;
    put_both_gets(&mut before, slots, test.left, test.right)?;
    Ok(Stmt::While {
        before,
        comparison: test.comparison,
        left: operand_register(5, test.left),
        right: operand_register(6, test.right),
        body,
    })
}

/// What a statement becomes.
#[cycle(frames)]
#[tactic(auto, using(crate::proofs::Rules::framed_rules))]
pub fn framed_stmt(alloc: Global, slots: &Slots, stmt: &word::Stmt) -> Result<Stmt, NoMemory>
    ensures { IfOk result (λ code. code ≡ framed (number_in slots.now.homes) stmt.now) }
{
    match stmt {
        word::Stmt::Skip => Ok(Stmt::Seq(List::new(alloc))),
        word::Stmt::Seq(all) => Ok(Stmt::Seq(framed_all(alloc, slots, all.as_slice())?)),
        word::Stmt::Const(to, value) => framed_constant(alloc, slots, *to, *value),
        word::Stmt::Reg(op, to, first, second) => {
            let instr = Instr::R {
                op: *op,
                rd: register(5, *to),
                rs1: register(5, *first),
                rs2: register(6, *second),
            };
            two_homes(alloc, slots, Stmt::Plain(instr), *to, *first, *second)
        }
        word::Stmt::Imm(op, to, from, imm) => {
            let instr = Instr::I {
                op: *op,
                rd: register(5, *to),
                rs1: register(5, *from),
                imm: *imm,
            };
            one_home(alloc, slots, Stmt::Plain(instr), *to, *from)
        }
        word::Stmt::Sh(op, to, from, amount) => {
            let instr = Instr::Sh {
                op: *op,
                rd: register(5, *to),
                rs1: register(5, *from),
                amount: *amount,
            };
            one_home(alloc, slots, Stmt::Plain(instr), *to, *from)
        }
        word::Stmt::Load(op, to, from, imm) => {
            let instr = Instr::L {
                op: *op,
                rd: register(5, *to),
                rs1: register(5, *from),
                imm: *imm,
            };
            one_home(alloc, slots, Stmt::Plain(instr), *to, *from)
        }
        word::Stmt::Store(op, value, at, imm) => {
            let instr = Instr::S {
                op: *op,
                rs1: register(5, *at),
                rs2: register(6, *value),
                imm: *imm,
            };
            used_homes(alloc, slots, Stmt::Plain(instr), *at, *value)
        }
        word::Stmt::If(test, first, second) => {
            let first = Boxed::new(alloc, framed_stmt(alloc, slots, first.get())?)?;
            let second = Boxed::new(alloc, framed_stmt(alloc, slots, second.get())?)?;
            framed_if(alloc, slots, test, first, second)
        }
        word::Stmt::While { before, test, body } => {
            let before = framed_all(alloc, slots, before.as_slice())?;
            let body = Boxed::new(alloc, framed_stmt(alloc, slots, body.get())?)?;
            framed_while(slots, before, test, body)
        }
        word::Stmt::Break => Ok(Stmt::Break),
        word::Stmt::Continue => Ok(Stmt::Continue),
        word::Stmt::Call {
            results,
            function,
            args,
            handler,
        } => {
            let handler = framed_catch(alloc, slots, handler)?;
            let call = Stmt::Call {
                function: *function,
                returned: fetched(alloc, slots, results.as_slice())?,
                handler,
            };
            passed_before(alloc, slots, args.as_slice(), call)
        }
        word::Stmt::TailCall { function, args } => {
            passed_before(alloc, slots, args.as_slice(), Stmt::TailCall(*function))
        }
        word::Stmt::Return(homes) => passed_before(alloc, slots, homes.as_slice(), Stmt::Return),
        word::Stmt::Raise(exception, homes) => {
            passed_before(alloc, slots, homes.as_slice(), Stmt::Raise(*exception))
        }
        word::Stmt::SharedLoad(size, to, from, imm) => {
            let load = Stmt::SharedLoad {
                size: *size,
                rd: register(5, *to),
                rs1: register(5, *from),
                imm: *imm,
            };
            one_home(alloc, slots, load, *to, *from)
        }
        word::Stmt::SharedStore(size, value, at, imm) => {
            let store = Stmt::SharedStore {
                size: *size,
                rs1: register(5, *at),
                rs2: register(6, *value),
                imm: *imm,
            };
            used_homes(alloc, slots, store, *at, *value)
        }
        word::Stmt::Foreign(name, conf, conf_len, array, array_len) => passed_before(
            alloc,
            slots,
            &[*conf, *conf_len, *array, *array_len],
            Stmt::Foreign(*name),
        ),
    }
}

/// What statements become, one after another.
#[cycle(frames)]
fn framed_all(alloc: Global, slots: &Slots, stmts: &[word::Stmt]) -> Result<List<Stmt>, NoMemory>
    ensures { IfOk result (λ code. code ≡ map (framed (number_in slots.now.homes)) stmts.now) }
{
    let mut code = List::new(alloc);
    for stmt in stmts {
        code.push(framed_stmt(alloc, slots, stmt)?)?;
    }
    Ok(code)
}

/// What a handler becomes.
#[cycle(frames)]
#[tactic(auto, using(crate::proofs::Rules::framed_rules))]
fn framed_catch(
    alloc: Global,
    slots: &Slots,
    handler: &Option<Handler<Boxed<word::Stmt>>>,
) -> Result<Option<Catch<Boxed<Stmt>>>, NoMemory>
    ensures { IfOk result (λ code. code ≡ framed_handler (number_in slots.now.homes) (handler_as (framed (number_in slots.now.homes)) handler.now)) }
{
    match handler {
        None => Ok(None),
        Some(handler) => {
            let body = framed_stmt(alloc, slots, handler.body.get())?;
            let code = fetched_before(alloc, slots, handler.variables.as_slice(), body)?;
            Ok(Some(Catch {
                exception: handler.exception,
                body: Boxed::new(alloc, code)?,
            }))
        }
    }
}
