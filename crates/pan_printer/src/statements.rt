//! Printing statements.

ghost use Rattle.std.specs.Prelude.{◌≡◌, [], ◌∷◌, ◌++◌, OnOk};
ghost use Rattle.pan_printer.specs.Pieces.{semicolon, with_commas, text_of};
ghost use Rattle.pan_printer.specs.Expressions.{expr_pieces};
ghost use Rattle.pan_printer.specs.Canonical.{plain_call, target_pieces, two_exprs, handler, block, stmt_pieces};

use crate::expressions::{put_expr, put_exprs};
use crate::output::Output;
use pan_base::{Keyword, NoMemory, Sign, Text, TokenKind};
use pan_tree::{Block, Expr, Handler, Stmt, StmtKind, Target};

/// Puts an expression, and ends the statement.
#[tactic(auto, using(crate::proofs::Texts::text_rules))]
fn end_with(out: &mut Output, expr: &Expr) -> Result<(), NoMemory>
    ensures { OnOk result (out.new ≡ out.old ++ text_of (expr_pieces expr.now ++ semicolon ∷ [])) }
{
    put_expr(out, expr)?;
    out.semicolon()?;
    Ok(())
}

/// Puts two expressions with a comma between them.
#[tactic(auto, using(crate::proofs::Texts::text_rules))]
fn put_two(out: &mut Output, left: &Expr, right: &Expr) -> Result<(), NoMemory>
    ensures { OnOk result (out.new ≡ out.old ++ text_of (with_commas expr_pieces (left.now ∷ right.now ∷ []))) }
{
    put_expr(out, left)?;
    out.sign(Sign::Comma)?;
    put_expr(out, right)?;
    Ok(())
}

/// Puts the two buffers of a foreign call.
#[tactic(auto, using(crate::proofs::Texts::text_rules))]
fn put_buffers(
    out: &mut Output,
    config: &Expr,
    config_len: &Expr,
    array: &Expr,
    array_len: &Expr,
) -> Result<(), NoMemory>
    ensures { OnOk result (out.new ≡ out.old ++ text_of (with_commas expr_pieces (config.now ∷ config_len.now ∷ array.now ∷ array_len.now ∷ []))) }
{
    put_two(out, config, config_len)?;
    out.sign(Sign::Comma)?;
    put_two(out, array, array_len)?;
    Ok(())
}

/// Puts two expressions, and ends the statement.
#[tactic(auto, using(crate::proofs::Texts::text_rules))]
fn end_with_two(out: &mut Output, left: &Expr, right: &Expr) -> Result<(), NoMemory>
    ensures { OnOk result (out.new ≡ out.old ++ text_of (two_exprs left.now right.now)) }
{
    put_two(out, left, right)?;
    out.semicolon()?;
    Ok(())
}

/// Puts the name of a function and the arguments of a call.
#[tactic(auto, using(crate::proofs::Texts::text_rules))]
fn put_plain_call(out: &mut Output, function: &Text, args: &[Expr]) -> Result<(), NoMemory>
    ensures { OnOk result (out.new ≡ out.old ++ text_of (plain_call function.now args.now)) }
{
    out.name(function)?;
    out.sign(Sign::OpenParen)?;
    put_exprs(out, args)?;
    out.sign(Sign::CloseParen)?;
    Ok(())
}

/// Puts what stands before a call.
#[tactic(auto, using(crate::proofs::Texts::text_rules))]
fn put_target(out: &mut Output, into: &Target) -> Result<(), NoMemory>
    ensures { OnOk result (out.new ≡ out.old ++ text_of (target_pieces into.now)) }
{
    match into {
        Target::Nothing => {}
        Target::Old(name) => {
            out.name(name)?;
            out.sign(Sign::Assign)?;
        }
        Target::New(name) => {
            out.word(Keyword::Var)?;
            out.name(name)?;
            out.sign(Sign::Assign)?;
        }
    }
    Ok(())
}

/// Puts a statement.
#[cycle(stmt)]
#[tactic(auto, using(crate::proofs::Texts::text_rules, crate::proofs::StmtLayers::stmt_rules))]
pub fn put_stmt(out: &mut Output, stmt: &Stmt) -> Result<(), NoMemory>
    ensures { OnOk result (out.new ≡ out.old ++ text_of (stmt_pieces stmt.now)) }
{
    match &stmt.kind {
        StmtKind::Skip => {
            out.word(Keyword::Skip)?;
            out.semicolon()?;
            Ok(())
        }
        StmtKind::Decl(name, value) => {
            out.word(Keyword::Var)?;
            out.name(name)?;
            out.sign(Sign::Assign)?;
            end_with(out, value)?;
            Ok(())
        }
        StmtKind::Assign(name, value) => {
            out.name(name)?;
            out.sign(Sign::Assign)?;
            end_with(out, value)?;
            Ok(())
        }
        StmtKind::StoreWords(addr, value) => {
            out.word(Keyword::St)?;
            end_with_two(out, addr, value)?;
            Ok(())
        }
        StmtKind::StoreByte(addr, value) => {
            out.word(Keyword::Stb)?;
            end_with_two(out, addr, value)?;
            Ok(())
        }
        StmtKind::If(condition, then_do, else_do) => {
            out.word(Keyword::If)?;
            put_expr(out, condition)?;
            put_block(out, then_do)?;
            out.word(Keyword::Else)?;
            put_block(out, else_do)?;
            Ok(())
        }
        StmtKind::While(condition, body) => {
            out.word(Keyword::While)?;
            put_expr(out, condition)?;
            put_block(out, body)?;
            Ok(())
        }
        StmtKind::Break => {
            out.word(Keyword::Break)?;
            out.semicolon()?;
            Ok(())
        }
        StmtKind::Continue => {
            out.word(Keyword::Continue)?;
            out.semicolon()?;
            Ok(())
        }
        StmtKind::Call(call) => {
            put_target(out, &call.into)?;
            put_plain_call(out, &call.function, call.args.as_slice())?;
            put_handler(out, &call.handler)?;
            out.semicolon()?;
            Ok(())
        }
        StmtKind::Return(value) => {
            out.word(Keyword::Return)?;
            end_with(out, value)?;
            Ok(())
        }
        StmtKind::TailCall(function, args) => {
            out.word(Keyword::Return)?;
            put_plain_call(out, function, args.as_slice())?;
            out.semicolon()?;
            Ok(())
        }
        StmtKind::Raise(exception, value) => {
            out.word(Keyword::Raise)?;
            out.name(exception)?;
            end_with(out, value)?;
            Ok(())
        }
        StmtKind::SharedLoad(size, name, addr) => {
            out.name(name)?;
            out.sign(Sign::Assign)?;
            out.put(TokenKind::Load(*size))?;
            end_with(out, addr)?;
            Ok(())
        }
        StmtKind::SharedStore(size, addr, value) => {
            out.put(TokenKind::Store(*size))?;
            end_with_two(out, addr, value)?;
            Ok(())
        }
        StmtKind::Foreign(name, config, config_len, array, array_len) => {
            out.put(TokenKind::Foreign(name.as_bytes()))?;
            out.sign(Sign::OpenParen)?;
            put_buffers(out, config, config_len, array, array_len)?;
            out.sign(Sign::CloseParen)?;
            out.semicolon()?;
            Ok(())
        }
    }
}

/// Puts what catches an exception.
#[cycle(stmt)]
#[tactic(auto, using(crate::proofs::Texts::text_rules))]
fn put_handler(out: &mut Output, catcher: &Option<Handler>) -> Result<(), NoMemory>
    ensures { OnOk result (out.new ≡ out.old ++ text_of (handler stmt_pieces catcher.now)) }
{
    match catcher {
        None => Ok(()),
        Some(handler) => {
            out.word(Keyword::Handle)?;
            out.name(&handler.exception)?;
            out.name(&handler.name)?;
            put_block(out, &handler.body)?;
            Ok(())
        }
    }
}

/// Puts a block.
#[cycle(stmt)]
#[tactic(auto, using(crate::proofs::Texts::text_rules))]
pub fn put_block(out: &mut Output, body: &Block) -> Result<(), NoMemory>
    ensures { OnOk result (out.new ≡ out.old ++ text_of (block stmt_pieces body.now)) }
{
    out.end_line(Sign::OpenBrace)?;
    for stmt in body.stmts.as_slice() {
        put_stmt(out, stmt)?;
    }
    out.end_line(Sign::CloseBrace)?;
    Ok(())
}
