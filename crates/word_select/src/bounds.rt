//! Numbers above the variables of statements.

ghost use Rattle.std.specs.Prelude.{◌≡◌, max};
ghost use Rattle.pan_flow.specs.Functions.{above};
ghost use Rattle.word_select.specs.Bounds as bounds;

use loop_lang::Stmt as Loop;
use pan_base::Boxed;
use pan_stage::Handler;

/// The greater of two numbers.
pub fn greater(a: u64, b: u64) -> u64
    ensures { result ≡ max a b }
{
    a.max(b)
}

/// The least number above each of these variables.
pub fn above_all(variables: &[u32]) -> u64
    ensures { result ≡ above variables.now }
{
    let mut least = 0;
    for x in variables {
        least = greater(least, *x as u64 + 1);
    }
    least
}

/// The least number above the variables of a statement.
#[cycle(bound)]
#[tactic(auto, using(crate::proofs::BoundRules::bound_rules))]
pub fn bound(stmt: &Loop) -> u64
    ensures { result ≡ bounds.bound stmt.now }
{
    match stmt {
        Loop::Skip => 0,
        Loop::Seq(all) => row_bound(all.as_slice()),
        Loop::Const(x, _) => above_all(&[*x]),
        Loop::Move(x, a) => above_all(&[*a, *x]),
        Loop::Bin(_, x, a, b) => above_all(&[*a, *b, *x]),
        Loop::Shift(_, x, a, _) => above_all(&[*a, *x]),
        Loop::Compare(_, x, a, b) => above_all(&[*a, *b, *x]),
        Loop::LoadWord(x, a) => above_all(&[*a, *x]),
        Loop::LoadByte(x, a) => above_all(&[*a, *x]),
        Loop::StoreWord(a, x) => above_all(&[*a, *x]),
        Loop::StoreByte(a, x) => above_all(&[*a, *x]),
        Loop::If(x, first, second) => {
            let parts = greater(bound(first.get()), bound(second.get()));
            greater(above_all(&[*x]), parts)
        }
        Loop::While {
            before,
            test,
            body,
            ..
        } => {
            let turn = greater(above_all(&[*test]), bound(body.get()));
            greater(row_bound(before.as_slice()), turn)
        }
        Loop::Break => 0,
        Loop::Continue => 0,
        Loop::Call {
            results,
            args,
            handler,
            ..
        } => {
            let out = greater(above_all(results.as_slice()), handler_bound(handler));
            greater(above_all(args.as_slice()), out)
        }
        Loop::TailCall { args, .. } => above_all(args.as_slice()),
        Loop::Return(xs) => above_all(xs.as_slice()),
        Loop::Raise(_, xs) => above_all(xs.as_slice()),
        Loop::SharedLoad(_, x, a) => above_all(&[*a, *x]),
        Loop::SharedStore(_, a, x) => above_all(&[*a, *x]),
        Loop::Foreign {
            conf,
            conf_len,
            array,
            array_len,
            ..
        } => above_all(&[*conf, *conf_len, *array, *array_len]),
    }
}

#[cycle(bound)]
#[tactic(auto, using(crate::proofs::BoundRules::bound_rules))]
fn row_bound(all: &[Loop]) -> u64
    ensures { result ≡ bounds.row_bound all.now }
{
    let mut least = 0;
    for i in 0..all.len() {
        least = greater(least, bound(&all[i]));
    }
    least
}

#[cycle(bound)]
fn handler_bound(handler: &Option<Handler<Boxed<Loop>>>) -> u64
    ensures { result ≡ bounds.handler_bound handler.now }
{
    match handler {
        None => 0,
        Some(handler) => greater(
            above_all(handler.variables.as_slice()),
            bound(handler.body.get()),
        ),
    }
}
