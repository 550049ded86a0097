//! Statements that have no lines.

ghost use Rattle.std.specs.Prelude.{◌≡◌, ◌+◌, ◌<◌, ◌&&◌, nat_eq, map};
ghost use Rattle.lab_flatten.specs.Flatten.{empty, all_empty};

use stack_lang::Stmt;

/// What number `i` of so many is told, where the last one is told this.
pub fn is_behind(i: usize, count: usize, last: bool) -> bool
    requires { i < count }
    ensures { result ≡ (last && nat_eq (i + 1) count) }
{
    last && i + 1 == count
}

/// Whether a statement has no lines, where it is told whether the loop's next turn begins right behind it.
#[cycle(emptiness)]
#[tactic(auto, using(crate::proofs::Rules::empty_rules))]
pub fn is_empty(stmt: &Stmt, last: bool) -> bool
    ensures { result ≡ empty stmt.now last }
{
    match stmt {
        Stmt::Seq(all) => are_empty(all.as_slice(), last),
        Stmt::If(_, _, _, first, second) => {
            is_empty(first.get(), last) && is_empty(second.get(), last)
        }
        Stmt::Continue => last,
        Stmt::Plain(_) | Stmt::Get(..) | Stmt::Put(..) | Stmt::SharedLoad { .. } => false,
        Stmt::SharedStore { .. } | Stmt::Foreign(_) | Stmt::While { .. } => false,
        Stmt::Break | Stmt::Call { .. } | Stmt::TailCall(_) => false,
        Stmt::Return | Stmt::Raise(_) => false,
    }
}

/// The same of statements one after another.
#[cycle(emptiness)]
fn are_empty(stmts: &[Stmt], last: bool) -> bool
    ensures { result ≡ all_empty (map empty stmts.now) last }
{
    for i in 0..stmts.len() {
        if !is_empty(&stmts[i], is_behind(i, stmts.len(), last)) {
            return false;
        }
    }
    true
}
