//! The text of a program in words.

use crate::page::Page;
use crate::signs::{comparison, operator, shift, window};
use crep_lang::{CrepProg, Expr, Stmt};
use pan_base::Boxed;
use pan_stage::Handler;
use std::alloc::AllocError;

/// An expression; one of several parts in parentheses.
#[cycle(put_expr)]
fn put_expr(page: &mut Page, expr: &Expr) -> Result<(), AllocError> {
    match expr {
        Expr::Num(number) => page.number(*number),
        Expr::Var(variable) => page.variable(*variable),
        Expr::LoadWord(address) => put_at(page, "memory[", address.get()),
        Expr::LoadByte(address) => put_at(page, "byte[", address.get()),
        Expr::Bin(op, left, right) => {
            page.put("(")?;
            put_expr(page, left.get())?;
            put_second(page, operator(*op), right.get())
        }
        Expr::Shift(op, of, amount) => {
            page.put("(")?;
            put_expr(page, of.get())?;
            page.put(shift(*op))?;
            page.number(*amount as u64)?;
            page.put(")")
        }
        Expr::Compare(op, left, right) => {
            page.put("(")?;
            put_expr(page, left.get())?;
            put_second(page, comparison(*op), right.get())
        }
    }
}

#[cycle(put_expr)]
fn put_at(page: &mut Page, place: &str, address: &Expr) -> Result<(), AllocError> {
    page.put(place)?;
    put_expr(page, address)?;
    page.put("]")
}

/// The sign and the second of two expressions, and the parenthesis behind them.
#[cycle(put_expr)]
fn put_second(page: &mut Page, sign: &str, right: &Expr) -> Result<(), AllocError> {
    page.put(sign)?;
    put_expr(page, right)?;
    page.put(")")
}

fn put_exprs(page: &mut Page, all: &[Expr]) -> Result<(), AllocError> {
    for i in 0..all.len() {
        if i > 0 {
            page.put(", ")?;
        }
        put_expr(page, &all[i])?;
    }
    Ok(())
}

/// A word, a number, and expressions in parentheses.
fn put_numbered(page: &mut Page, word: &str, number: u32, all: &[Expr]) -> Result<(), AllocError> {
    page.put(word)?;
    page.number(number as u64)?;
    page.put(" (")?;
    put_exprs(page, all)?;
    page.put(")")
}

/// What gets the second expression, by the first.
fn put_store(page: &mut Page, place: &str, address: &Expr, value: &Expr) -> Result<(), AllocError> {
    put_at(page, place, address)?;
    page.put(" := ")?;
    put_expr(page, value)
}

/// The lines of a statement.
#[cycle(put_stmt)]
fn put_stmt(page: &mut Page, depth: u32, stmt: &Stmt) -> Result<(), AllocError> {
    match stmt {
        Stmt::Seq(stmts) => put_stmts(page, depth, stmts.as_slice()),
        Stmt::If(condition, then_do, else_do) => {
            page.begin(depth)?;
            page.put("if ")?;
            put_expr(page, condition)?;
            page.end()?;
            put_stmt(page, depth.saturating_add(1), then_do.get())?;
            page.line(depth, "else")?;
            put_stmt(page, depth.saturating_add(1), else_do.get())
        }
        Stmt::While { before, test, body } => {
            page.line(depth, "while")?;
            put_stmts(page, depth.saturating_add(1), before.as_slice())?;
            page.begin(depth)?;
            page.put("test ")?;
            put_expr(page, test)?;
            page.end()?;
            put_stmt(page, depth.saturating_add(1), body.get())
        }
        Stmt::Call {
            results,
            function,
            args,
            handler,
        } => {
            page.begin(depth)?;
            if !results.as_slice().is_empty() {
                page.variables(results.as_slice())?;
                page.put(" := ")?;
            }
            put_numbered(page, "call ", *function, args.as_slice())?;
            page.end()?;
            put_handler(page, depth, handler)
        }
        _ => {
            page.begin(depth)?;
            put_simple(page, stmt)?;
            page.end()
        }
    }
}

#[cycle(put_stmt)]
fn put_stmts(page: &mut Page, depth: u32, stmts: &[Stmt]) -> Result<(), AllocError> {
    for stmt in stmts {
        put_stmt(page, depth, stmt)?;
    }
    Ok(())
}

#[cycle(put_stmt)]
fn put_handler(
    page: &mut Page,
    depth: u32,
    handler: &Option<Handler<Boxed<Stmt>>>,
) -> Result<(), AllocError> {
    let Some(handler) = handler else {
        return Ok(());
    };
    page.begin(depth)?;
    page.put("handle ")?;
    page.number(handler.exception as u64)?;
    page.put(" (")?;
    page.variables(handler.variables.as_slice())?;
    page.put(")")?;
    page.end()?;
    put_stmt(page, depth.saturating_add(1), handler.body.get())
}

/// A statement without others in it.
fn put_simple(page: &mut Page, stmt: &Stmt) -> Result<(), AllocError> {
    match stmt {
        Stmt::Assign(variable, value) => {
            page.variable(*variable)?;
            page.put(" := ")?;
            put_expr(page, value)
        }
        Stmt::StoreWord(address, value) => put_store(page, "memory[", address, value),
        Stmt::StoreByte(address, value) => put_store(page, "byte[", address, value),
        Stmt::Break => page.put("break"),
        Stmt::Continue => page.put("continue"),
        Stmt::TailCall { function, args } => {
            put_numbered(page, "return call ", *function, args.as_slice())
        }
        Stmt::Return(words) => {
            page.put("return ")?;
            put_exprs(page, words.as_slice())
        }
        Stmt::Raise(exception, words) => put_numbered(page, "raise ", *exception, words.as_slice()),
        Stmt::SharedLoad(size, variable, address) => {
            page.variable(*variable)?;
            page.put(" := ")?;
            put_at(page, window(*size), address)
        }
        Stmt::SharedStore(size, address, value) => put_store(page, window(*size), address, value),
        Stmt::Foreign(name, conf, conf_len, array, array_len) => {
            page.put("foreign ")?;
            page.number(*name as u64)?;
            page.put(" (")?;
            put_expr(page, conf)?;
            page.put(", ")?;
            put_expr(page, conf_len)?;
            page.put(", ")?;
            put_expr(page, array)?;
            page.put(", ")?;
            put_expr(page, array_len)?;
            page.put(")")
        }
        _ => page.put("skip"),
    }
}

/// The text of a program in words.
pub fn put_crep(page: &mut Page, prog: &CrepProg) -> Result<(), AllocError> {
    let functions = prog.program.functions.as_slice();
    for i in 0..functions.len() {
        let function = &functions[i];
        page.head(i, function.name.as_slice())?;
        page.put("takes ")?;
        page.number(function.params as u64)?;
        page.put(", returns ")?;
        page.number(function.results as u64)?;
        page.end()?;
        put_stmt(page, 1, &function.body)?;
    }
    Ok(())
}
