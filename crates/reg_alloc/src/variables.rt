//! How many variables a function has.

ghost use Rattle.std.specs.Prelude.{◌≡◌, [], ◌∷◌, map, max};
ghost use Rattle.pan_flow.specs.Functions.{above, all_in_turn, variables};
ghost use Rattle.word_lang.specs.Text.{flow_of, flow_of_function, variables_of, variables_read};
ghost use Rattle.reg_alloc.specs.Variables.{variables_of_handler};

use pan_base::Boxed;
use pan_stage::Handler;
use word_lang::{Stmt, Test, WordFun};

/// The greater of two numbers.
fn greater(a: u64, b: u64) -> u64
    ensures { result ≡ max a b }
{
    if a < b { b } else { a }
}

/// The first number above each of these.
fn above_all(xs: &[u32]) -> u64
    ensures { result ≡ above xs.now }
{
    let mut most: u64 = 0;
    for i in 0..xs.len() {
        most = greater(most, xs[i] as u64 + 1);
    }
    most
}

fn above_operand(operand: &Option<u32>) -> u64
    ensures { result ≡ above (variables_of (operand.now ∷ [])) }
{
    match operand {
        None => 0,
        Some(x) => *x as u64 + 1,
    }
}

#[tactic(auto, using(crate::proofs::Above::above_operands))]
fn above_test(test: &Test) -> u64
    ensures { result ≡ above (variables_read test.now) }
{
    greater(above_operand(&test.left), above_operand(&test.right))
}

/// The first number above each variable of a statement.
#[cycle(above)]
#[tactic(auto, using(crate::proofs::Above::above_rules))]
pub fn above_stmt(stmt: &Stmt) -> u64
    ensures { result ≡ above (variables (flow_of stmt.now)) }
{
    match stmt {
        Stmt::Skip => 0,
        Stmt::Seq(all) => above_row(all.as_slice()),
        Stmt::Const(x, _) => above_all(&[*x]),
        Stmt::Reg(_, x, a, b) => above_all(&[*a, *b, *x]),
        Stmt::Imm(_, x, a, _) => above_all(&[*a, *x]),
        Stmt::Sh(_, x, a, _) => above_all(&[*a, *x]),
        Stmt::Load(_, x, a, _) => above_all(&[*a, *x]),
        Stmt::Store(_, x, a, _) => above_all(&[*a, *x]),
        Stmt::If(test, first, second) => {
            let parts = greater(above_stmt(first.get()), above_stmt(second.get()));
            greater(above_test(test), parts)
        }
        Stmt::While { before, test, body } => {
            let tested = greater(above_row(before.as_slice()), above_test(test));
            greater(tested, above_stmt(body.get()))
        }
        Stmt::Break => 0,
        Stmt::Continue => 0,
        Stmt::Call {
            results,
            args,
            handler,
            ..
        } => {
            let out = greater(above_all(results.as_slice()), above_handler(handler));
            greater(above_all(args.as_slice()), out)
        }
        Stmt::TailCall { args, .. } => above_all(args.as_slice()),
        Stmt::Return(xs) => above_all(xs.as_slice()),
        Stmt::Raise(_, xs) => above_all(xs.as_slice()),
        Stmt::SharedLoad(_, x, a, _) => above_all(&[*a, *x]),
        Stmt::SharedStore(_, x, a, _) => above_all(&[*a, *x]),
        Stmt::Foreign(_, conf, conf_len, array, array_len) => {
            above_all(&[*conf, *conf_len, *array, *array_len])
        }
    }
}

/// The same of statements, one after another.
#[cycle(above)]
#[tactic(auto, using(crate::proofs::Above::above_more))]
fn above_row(all: &[Stmt]) -> u64
    ensures { result ≡ above (variables (all_in_turn (map flow_of all.now))) }
{
    let mut most: u64 = 0;
    for i in 0..all.len() {
        most = greater(most, above_stmt(&all[i]));
    }
    most
}

/// The same of what catches an exception.
#[cycle(above)]
#[tactic(auto, using(crate::proofs::Above::above_append))]
fn above_handler(handler: &Option<Handler<Boxed<Stmt>>>) -> u64
    ensures { result ≡ above (variables_of_handler handler.now) }
{
    match handler {
        None => 0,
        Some(handler) => {
            let variables = above_all(handler.variables.as_slice());
            greater(variables, above_stmt(handler.body.get()))
        }
    }
}

/// The first number above each variable of a function.
#[tactic(auto, using(crate::proofs::Above::above_append))]
pub fn above_function(fun: &WordFun) -> u64
    ensures { result ≡ above (variables (flow_of_function fun.now)) }
{
    greater(above_all(fun.params.as_slice()), above_stmt(&fun.body))
}
