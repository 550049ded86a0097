//! Numbers above those of all variables.

ghost use Rattle.std.specs.Prelude.{◌≡◌, max, map};
ghost use Rattle.pan_flow.specs.Functions.{all_in_turn, variables};
ghost use Rattle.pan_stage.specs.Sums.{above};
ghost use Rattle.crep_lang.specs.Text.{variables_read, all_read, flow_of};
ghost use Rattle.loop_lower.specs.Lowered.{above_handler as handler_reach, first_free};

use crep_lang::{CrepFun, Expr, Stmt};
use pan_base::Boxed;
use pan_stage::Handler;

fn greater(a: u64, b: u64) -> u64
    ensures { result ≡ max a b }
{
    if a < b { b } else { a }
}

fn above_numbers(numbers: &[u32]) -> u64
    ensures { result ≡ above numbers.now }
{
    let mut most = 0;
    for i in 0..numbers.len() {
        most = greater(most, numbers[i] as u64 + 1);
    }
    most
}

/// A number above those of all variables of an expression. First operands are followed in a loop.
#[tactic(auto, using(crate::proofs::ReachRules::expr_rules))]
fn above_expr(expr: &Expr) -> u64
    ensures { result ≡ above (variables_read expr.now) }
{
    let mut most = 0;
    let mut rest = expr;
    'operands: loop {
        match rest {
            Expr::Num(_) => return most,
            Expr::Var(variable) => return greater(most, *variable as u64 + 1),
            Expr::LoadWord(address) => rest = address.get(),
            Expr::LoadByte(address) => rest = address.get(),
            Expr::Bin(_, left, right) => {
                most = greater(most, above_expr(right.get()));
                rest = left.get();
            }
            Expr::Shift(_, of, _) => rest = of.get(),
            Expr::Compare(_, left, right) => {
                most = greater(most, above_expr(right.get()));
                rest = left.get();
            }
        }
    }
}

fn above_exprs(exprs: &[Expr]) -> u64
    ensures { result ≡ above (all_read exprs.now) }
{
    let mut most = 0;
    for i in 0..exprs.len() {
        most = greater(most, above_expr(&exprs[i]));
    }
    most
}

/// A number above those of all variables of a statement, the least one.
#[cycle(reach)]
#[tactic(auto, using(crate::proofs::ReachRules::stmt_rules))]
pub fn above_stmt(stmt: &Stmt) -> u64
    ensures { result ≡ above (variables (flow_of stmt.now)) }
{
    match stmt {
        Stmt::Skip => 0,
        Stmt::Seq(all) => above_stmts(all.as_slice()),
        Stmt::Assign(target, expr) => greater(*target as u64 + 1, above_expr(expr)),
        Stmt::StoreWord(address, word) => greater(above_expr(address), above_expr(word)),
        Stmt::StoreByte(address, word) => greater(above_expr(address), above_expr(word)),
        Stmt::If(test, first, second) => {
            let sides = greater(above_stmt(first.get()), above_stmt(second.get()));
            greater(above_expr(test), sides)
        }
        Stmt::While { before, test, body } => {
            let turn = greater(above_expr(test), above_stmt(body.get()));
            greater(above_stmts(before.as_slice()), turn)
        }
        Stmt::Break => 0,
        Stmt::Continue => 0,
        Stmt::Call {
            results,
            function: _,
            args,
            handler,
        } => {
            let written = greater(above_numbers(results.as_slice()), above_handler(handler));
            greater(above_exprs(args.as_slice()), written)
        }
        Stmt::TailCall { function: _, args } => above_exprs(args.as_slice()),
        Stmt::Return(words) => above_exprs(words.as_slice()),
        Stmt::Raise(_, words) => above_exprs(words.as_slice()),
        Stmt::SharedLoad(_, target, address) => greater(*target as u64 + 1, above_expr(address)),
        Stmt::SharedStore(_, address, word) => greater(above_expr(address), above_expr(word)),
        Stmt::Foreign(_, conf, conf_len, array, array_len) => {
            let first = greater(above_expr(conf), above_expr(conf_len));
            greater(first, greater(above_expr(array), above_expr(array_len)))
        }
    }
}

#[cycle(reach)]
fn above_stmts(all: &[Stmt]) -> u64
    ensures { result ≡ above (variables (all_in_turn (map flow_of all.now))) }
{
    let mut most = 0;
    for i in 0..all.len() {
        most = greater(most, above_stmt(&all[i]));
    }
    most
}

#[cycle(reach)]
fn above_handler(handler: &Option<Handler<Boxed<Stmt>>>) -> u64
    ensures { result ≡ handler_reach handler.now }
{
    match handler {
        None => 0,
        Some(handler) => {
            let body = above_stmt(handler.body.get());
            greater(above_numbers(handler.variables.as_slice()), body)
        }
    }
}

/// A number above those of all variables of a function, its parameters among them.
#[tactic(auto, using(crate::proofs::ReachRules::above_of_function))]
pub fn above_function(function: &CrepFun) -> u64
    ensures { result ≡ first_free function.now }
{
    greater(function.params as u64, above_stmt(&function.body))
}
