//! The text of a program of operations.

use crate::page::Page;
use crate::signs::{comparison, window};
use pan_base::Boxed;
use pan_stage::Handler;
use std::alloc::{AllocError, Global};
use word_lang::{Stmt, Test, WordProg};

/// A variable, and what becomes of it by an operation.
fn put_operation(page: &mut Page, target: u32, name: &str) -> Result<(), AllocError> {
    page.variable(target)?;
    page.put(" := ")?;
    page.put(name)?;
    page.put(" ")
}

/// A place in memory: a variable and an offset.
fn put_place(page: &mut Page, open: &str, address: u32, offset: i32) -> Result<(), AllocError> {
    page.put(open)?;
    page.variable(address)?;
    page.put(" + ")?;
    page.integer(offset)?;
    page.put("]")
}

/// A word, a number, and variables in parentheses.
fn put_numbered(page: &mut Page, word: &str, number: u32, all: &[u32]) -> Result<(), AllocError> {
    page.put(word)?;
    page.number(number as u64)?;
    page.put(" (")?;
    page.variables(all)?;
    page.put(")")
}

fn put_side(page: &mut Page, side: Option<u32>) -> Result<(), AllocError> {
    match side {
        Some(variable) => page.variable(variable),
        None => page.put("zero"),
    }
}

fn put_test(page: &mut Page, word: &str, test: &Test) -> Result<(), AllocError> {
    page.put(word)?;
    put_side(page, test.left)?;
    page.put(comparison(test.comparison))?;
    put_side(page, test.right)
}

/// The lines of a statement.
#[cycle(put_stmt)]
fn put_stmt(alloc: Global, page: &mut Page, depth: u32, stmt: &Stmt) -> Result<(), AllocError> {
    match stmt {
        Stmt::Seq(stmts) => put_stmts(alloc, page, depth, stmts.as_slice()),
        Stmt::If(test, then_do, else_do) => {
            page.begin(depth)?;
            put_test(page, "if ", test)?;
            page.end()?;
            put_stmt(alloc, page, depth.saturating_add(1), then_do.get())?;
            page.line(depth, "else")?;
            put_stmt(alloc, page, depth.saturating_add(1), else_do.get())
        }
        Stmt::While { before, test, body } => {
            page.line(depth, "while")?;
            put_stmts(alloc, page, depth.saturating_add(1), before.as_slice())?;
            page.begin(depth)?;
            put_test(page, "test ", test)?;
            page.end()?;
            put_stmt(alloc, page, depth.saturating_add(1), body.get())
        }
        Stmt::Call {
            results,
            function,
            args,
            handler,
        } => {
            page.begin(depth)?;
            if !results.as_slice().is_empty() {
                page.variables(results.as_slice())?;
                page.put(" := ")?;
            }
            put_numbered(page, "call ", *function, args.as_slice())?;
            page.end()?;
            put_handler(alloc, page, depth, handler)
        }
        _ => {
            page.begin(depth)?;
            put_simple(alloc, page, stmt)?;
            page.end()
        }
    }
}

#[cycle(put_stmt)]
fn put_stmts(alloc: Global, page: &mut Page, depth: u32, stmts: &[Stmt]) -> Result<(), AllocError> {
    for stmt in stmts {
        put_stmt(alloc, page, depth, stmt)?;
    }
    Ok(())
}

#[cycle(put_stmt)]
fn put_handler(
    alloc: Global,
    page: &mut Page,
    depth: u32,
    handler: &Option<Handler<Boxed<Stmt>>>,
) -> Result<(), AllocError> {
    let Some(handler) = handler else {
        return Ok(());
    };
    page.begin(depth)?;
    put_numbered(
        page,
        "handle ",
        handler.exception,
        handler.variables.as_slice(),
    )?;
    page.end()?;
    put_stmt(alloc, page, depth.saturating_add(1), handler.body.get())
}

/// An operation on a variable and a number, or on two variables.
fn put_computed(alloc: Global, page: &mut Page, stmt: &Stmt) -> Result<(), AllocError> {
    match stmt {
        Stmt::Reg(op, target, left, right) => {
            let name = format!(in alloc; "{op:?}")?;
            put_operation(page, *target, name.as_str())?;
            page.variables(&[*left, *right])
        }
        Stmt::Imm(op, target, of, immediate) => {
            let name = format!(in alloc; "{op:?}")?;
            put_operation(page, *target, name.as_str())?;
            page.variable(*of)?;
            page.put(", ")?;
            page.integer(*immediate)
        }
        Stmt::Sh(op, target, of, amount) => {
            let name = format!(in alloc; "{op:?}")?;
            put_operation(page, *target, name.as_str())?;
            page.variable(*of)?;
            page.put(", ")?;
            page.number(*amount as u64)
        }
        Stmt::Load(op, target, address, offset) => {
            let name = format!(in alloc; "{op:?}")?;
            put_operation(page, *target, name.as_str())?;
            put_place(page, "[", *address, *offset)
        }
        Stmt::Store(op, value, address, offset) => {
            let name = format!(in alloc; "{op:?}")?;
            page.put(name.as_str())?;
            put_place(page, " [", *address, *offset)?;
            page.put(" := ")?;
            page.variable(*value)
        }
        _ => page.put("skip"),
    }
}

/// A statement without others in it.
fn put_simple(alloc: Global, page: &mut Page, stmt: &Stmt) -> Result<(), AllocError> {
    match stmt {
        Stmt::Const(target, number) => {
            page.variable(*target)?;
            page.put(" := ")?;
            page.number(*number)
        }
        Stmt::Break => page.put("break"),
        Stmt::Continue => page.put("continue"),
        Stmt::TailCall { function, args } => {
            put_numbered(page, "return call ", *function, args.as_slice())
        }
        Stmt::Return(words) => page.named_variables("return", words.as_slice()),
        Stmt::Raise(exception, words) => put_numbered(page, "raise ", *exception, words.as_slice()),
        Stmt::SharedLoad(size, target, address, offset) => {
            page.variable(*target)?;
            page.put(" := ")?;
            put_place(page, window(*size), *address, *offset)
        }
        Stmt::SharedStore(size, value, address, offset) => {
            put_place(page, window(*size), *address, *offset)?;
            page.put(" := ")?;
            page.variable(*value)
        }
        Stmt::Foreign(name, conf, conf_len, array, array_len) => {
            put_numbered(
                page,
                "foreign ",
                *name,
                &[*conf, *conf_len, *array, *array_len],
            )
        }
        _ => put_computed(alloc, page, stmt),
    }
}

fn put_params(page: &mut Page, params: &[u32]) -> Result<(), AllocError> {
    if params.is_empty() {
        return page.put("takes nothing");
    }
    page.named_variables("takes", params)
}

/// The text of a program of operations.
pub fn put_words(alloc: Global, page: &mut Page, prog: &WordProg) -> Result<(), AllocError> {
    let functions = prog.program.functions.as_slice();
    for i in 0..functions.len() {
        let function = &functions[i];
        page.head(i, function.name.as_slice())?;
        put_params(page, function.params.as_slice())?;
        page.put(", returns ")?;
        page.number(function.results as u64)?;
        page.end()?;
        put_stmt(alloc, page, 1, &function.body)?;
    }
    Ok(())
}
