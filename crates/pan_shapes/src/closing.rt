//! Whether a body ends with a return or a raise.

ghost use Rattle.std.specs.Prelude.{◌≡◌};
ghost use Rattle.pan_tree.specs.Check.{closes, closes_kind};

use pan_tree::{Block, Stmt, StmtKind};

/// Whether the statement closes a block that ends with it.
#[cycle(closes)]
#[tactic(auto, using(crate::proofs::ClosingLayers::closing_rules))]
fn stmt_closes(stmt: &Stmt) -> bool
    ensures { result ≡ closes_kind stmt.now.kind }
{
    match &stmt.kind {
        StmtKind::Return(_) => true,
        StmtKind::TailCall(_, _) => true,
        StmtKind::Raise(_, _) => true,
        StmtKind::If(_, then_do, else_do) => closes(then_do) && closes(else_do),
        StmtKind::Skip | StmtKind::Decl(_, _) | StmtKind::Assign(_, _) => false,
        StmtKind::StoreWords(_, _) | StmtKind::StoreByte(_, _) => false,
        StmtKind::While(_, _) | StmtKind::Break | StmtKind::Continue | StmtKind::Call(_) => false,
        StmtKind::SharedLoad(_, _, _) | StmtKind::SharedStore(_, _, _) => false,
        StmtKind::Foreign(_, _, _, _, _) => false,
    }
}

/// Whether the block's last statement is a return, a raise, or an `if` both of whose blocks close.
#[cycle(closes)]
pub fn closes(body: &Block) -> bool
    ensures { result ≡ closes body.now }
{
    let stmts = body.stmts.as_slice();
    if stmts.is_empty() {
        return false;
    }
    stmt_closes(&stmts[stmts.len() - 1])
}
