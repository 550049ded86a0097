//! The text of a program of steps.

use crate::page::Page;
use crate::signs::{comparison, operator, shift, window};
use loop_lang::{LoopProg, Stmt};
use pan_base::Boxed;
use pan_stage::Handler;
use std::alloc::AllocError;

/// A variable, and what becomes of it.
fn put_target(page: &mut Page, target: u32) -> Result<(), AllocError> {
    page.variable(target)?;
    page.put(" := ")
}

/// Two variables with a sign between them go to a third.
fn put_two(
    page: &mut Page,
    target: u32,
    left: u32,
    sign: &str,
    right: u32,
) -> Result<(), AllocError> {
    put_target(page, target)?;
    page.variable(left)?;
    page.put(sign)?;
    page.variable(right)
}

fn put_at(page: &mut Page, place: &str, address: u32) -> Result<(), AllocError> {
    page.put(place)?;
    page.variable(address)?;
    page.put("]")
}

fn put_load(page: &mut Page, target: u32, place: &str, address: u32) -> Result<(), AllocError> {
    put_target(page, target)?;
    put_at(page, place, address)
}

fn put_store(page: &mut Page, place: &str, address: u32, value: u32) -> Result<(), AllocError> {
    put_at(page, place, address)?;
    page.put(" := ")?;
    page.variable(value)
}

/// A word, a number, and variables in parentheses.
fn put_numbered(page: &mut Page, word: &str, number: u32, all: &[u32]) -> Result<(), AllocError> {
    page.put(word)?;
    page.number(number as u64)?;
    page.put(" (")?;
    page.variables(all)?;
    page.put(")")
}

/// The lines of a statement.
#[cycle(put_stmt)]
fn put_stmt(page: &mut Page, depth: u32, stmt: &Stmt) -> Result<(), AllocError> {
    match stmt {
        Stmt::Seq(stmts) => put_stmts(page, depth, stmts.as_slice()),
        Stmt::If(condition, then_do, else_do) => {
            page.begin(depth)?;
            page.put("if ")?;
            page.variable(*condition)?;
            page.end()?;
            put_stmt(page, depth.saturating_add(1), then_do.get())?;
            page.line(depth, "else")?;
            put_stmt(page, depth.saturating_add(1), else_do.get())
        }
        Stmt::While {
            before,
            test,
            body,
            ..
        } => {
            page.line(depth, "while")?;
            put_stmts(page, depth.saturating_add(1), before.as_slice())?;
            page.begin(depth)?;
            page.put("test ")?;
            page.variable(*test)?;
            page.end()?;
            put_stmt(page, depth.saturating_add(1), body.get())
        }
        Stmt::Call {
            results,
            function,
            args,
            handler,
            ..
        } => {
            page.begin(depth)?;
            if !results.as_slice().is_empty() {
                page.variables(results.as_slice())?;
                page.put(" := ")?;
            }
            put_numbered(page, "call ", *function, args.as_slice())?;
            page.end()?;
            put_handler(page, depth, handler)
        }
        _ => {
            page.begin(depth)?;
            put_simple(page, stmt)?;
            page.end()
        }
    }
}

#[cycle(put_stmt)]
fn put_stmts(page: &mut Page, depth: u32, stmts: &[Stmt]) -> Result<(), AllocError> {
    for stmt in stmts {
        put_stmt(page, depth, stmt)?;
    }
    Ok(())
}

#[cycle(put_stmt)]
fn put_handler(
    page: &mut Page,
    depth: u32,
    handler: &Option<Handler<Boxed<Stmt>>>,
) -> Result<(), AllocError> {
    let Some(handler) = handler else {
        return Ok(());
    };
    page.begin(depth)?;
    put_numbered(
        page,
        "handle ",
        handler.exception,
        handler.variables.as_slice(),
    )?;
    page.end()?;
    put_stmt(page, depth.saturating_add(1), handler.body.get())
}

/// A statement without others in it.
fn put_simple(page: &mut Page, stmt: &Stmt) -> Result<(), AllocError> {
    match stmt {
        Stmt::Const(target, number) => {
            put_target(page, *target)?;
            page.number(*number)
        }
        Stmt::Move(target, source) => {
            put_target(page, *target)?;
            page.variable(*source)
        }
        Stmt::Bin(op, target, left, right) => put_two(page, *target, *left, operator(*op), *right),
        Stmt::Shift(op, target, of, amount) => {
            put_target(page, *target)?;
            page.variable(*of)?;
            page.put(shift(*op))?;
            page.number(*amount as u64)
        }
        Stmt::Compare(op, target, left, right) => {
            put_two(page, *target, *left, comparison(*op), *right)
        }
        Stmt::LoadWord(target, address) => put_load(page, *target, "memory[", *address),
        Stmt::LoadByte(target, address) => put_load(page, *target, "byte[", *address),
        Stmt::StoreWord(address, value) => put_store(page, "memory[", *address, *value),
        Stmt::StoreByte(address, value) => put_store(page, "byte[", *address, *value),
        Stmt::Break => page.put("break"),
        Stmt::Continue => page.put("continue"),
        Stmt::TailCall { function, args } => {
            put_numbered(page, "return call ", *function, args.as_slice())
        }
        Stmt::Return(words) => page.named_variables("return", words.as_slice()),
        Stmt::Raise(exception, words) => put_numbered(page, "raise ", *exception, words.as_slice()),
        Stmt::SharedLoad(size, target, address) => {
            put_load(page, *target, window(*size), *address)
        }
        Stmt::SharedStore(size, address, value) => {
            put_store(page, window(*size), *address, *value)
        }
        Stmt::Foreign {
            name,
            conf,
            conf_len,
            array,
            array_len,
            ..
        } => {
            let buffers = [*conf, *conf_len, *array, *array_len];
            put_numbered(page, "foreign ", *name, &buffers)
        }
        _ => page.put("skip"),
    }
}

/// The text of a program of steps.
pub fn put_loops(page: &mut Page, prog: &LoopProg) -> Result<(), AllocError> {
    let functions = prog.program.functions.as_slice();
    for i in 0..functions.len() {
        let function = &functions[i];
        page.head(i, function.name.as_slice())?;
        page.put("takes ")?;
        page.number(function.params as u64)?;
        page.put(", returns ")?;
        page.number(function.results as u64)?;
        page.end()?;
        put_stmt(page, 1, &function.body)?;
    }
    Ok(())
}
