//! The words that a frame has before its slots.

ghost use Rattle.std.specs.Prelude.{◌≡◌, map, max};
ghost use Rattle.pan_stage.specs.Sums.{most};
ghost use Rattle.stack_lang.specs.Frames.{front};

use crate::syntax::Stmt;

/// The greater of two numbers.
fn greater(a: u64, b: u64) -> u64
    ensures { result ≡ max a b }
{
    if a < b { b } else { a }
}

/// How many words a frame has before its slots, for a function with this body: none where nothing is called but by tail
/// calls, 1 where it calls, 3 where a call is under a handler.
#[cycle(fronts)]
#[tactic(auto, using(crate::proofs::WordsBefore::front_rules))]
pub fn words_before_slots(body: &Stmt) -> u64
    ensures { result ≡ front body.now }
{
    match body {
        Stmt::Seq(all) => most_before_slots(all.as_slice()),
        Stmt::If(_, _, _, first, second) => greater(
            words_before_slots(first.get()),
            words_before_slots(second.get()),
        ),
        Stmt::While { before, body, .. } => greater(
            most_before_slots(before.as_slice()),
            words_before_slots(body.get()),
        ),
        Stmt::Call {
            returned,
            handler,
            ..
        } => match handler {
            None => greater(1, words_before_slots(returned.get())),
            Some(_) => 3,
        },
        Stmt::Plain(_) | Stmt::Get(..) | Stmt::Put(..) | Stmt::SharedLoad { .. } => 0,
        Stmt::SharedStore { .. } | Stmt::Foreign(_) | Stmt::Break | Stmt::Continue => 0,
        Stmt::TailCall(_) | Stmt::Return | Stmt::Raise(_) => 0,
    }
}

/// The most of any of them.
#[cycle(fronts)]
fn most_before_slots(stmts: &[Stmt]) -> u64
    ensures { result ≡ most (map front stmts.now) }
{
    let mut so_far = 0;
    for stmt in stmts {
        so_far = greater(so_far, words_before_slots(stmt));
    }
    so_far
}
