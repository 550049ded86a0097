//! Statements and blocks.

ghost use Rattle.std.specs.Prelude.{◌≡◌, ◌<◌, ◌≤◌, [], ◌∷◌, length, IfOk, IfErr, IfSome, IfNone};
ghost use Rattle.pan_base.specs.declared.tokens.Keyword.TheVariants as words;
ghost use Rattle.pan_base.specs.declared.tokens.Sign.TheVariants as signs;
ghost use Rattle.pan_base.specs.Tokens as kinds;
ghost use Rattle.pan_tree.specs.Grammar.{Within};
ghost use Rattle.pan_tree.specs.Grammar as grammar;
ghost use Rattle.pan_tree.specs.Nodes as nodes;
ghost use Rattle.pan_parser.specs.Machine as machine;
ghost use Rattle.pan_parser.specs.Reading.{left, IsOne, Reads, Stops, Behind, BehindAssign, ClosedStmts, NoAssignment, NoLoad};

use crate::calls::{begins_call, expr_end, plain, two_exprs};
use crate::cursor::{
    after_sign, after_word, deeper, expect, expect_name, expect_word, first, node, syntax,
};
use crate::error::ParseError;
use crate::expressions::expr;
use crate::simple::{foreign, raised, returned};
use crate::text::text;
use pan_base::{Keyword, List, Sign, Size, Text, TokenKind};
use pan_lexer::Tokens;
use pan_tree::{Block, BlockOf, Call, CallOf, Handler, HandlerOf, Stmt, StmtKind, Target};
use std::alloc::Global;

/// The size of the load of shared memory that comes, and what follows it.
fn load_at(tokens: &Tokens<'_>, at: usize) -> Option<(Size, usize)>
    ensures some { IfSome result (λ r. IsOne tokens.now at r.1 (kinds.Load r.0)) }
    ensures none { IfNone result (NoLoad (left tokens.now at)) }
{
    let (t, next) = first(tokens, at)?;
    match t.kind {
        TokenKind::Load(size) => Some((size, next)),
        _ => None,
    }
}

/// A handler, if one comes, and what follows.
#[cycle(stmts)]
#[tactic(auto, using(crate::proofs::StmtStarts::starts))]
fn handler(
    alloc: Global,
    tokens: &Tokens<'_>,
    at: usize,
    depth: u32,
) -> Result<(Option<Handler>, usize), ParseError>
    requires nested { depth ≤ grammar.nesting_limit }
    requires within { at ≤ length tokens.now.tokens }
    ensures tree { IfOk result (λ r. grammar.MayHandle Within depth (left tokens.now at) (left tokens.now r.1) r.0) }
    ensures reads { IfOk result (λ r. Reads (machine.MayHandle depth ∷ []) (left tokens.now at) (left tokens.now r.1)) }
    ensures ahead { IfOk result (λ r. (at ≤ r.1) × (r.1 ≤ length tokens.now.tokens)) }
    ensures err { IfErr result (λ e. Stops tokens.now.source_len (machine.MayHandle depth ∷ []) (left tokens.now at) e) }
{
    let Some(after) = after_word(tokens, at, Keyword::Handle) else {
        return Ok((None, at));
    };
    let (exception, after) = expect_name(alloc, tokens, after)?;
    let (name, after) = expect_name(alloc, tokens, after)?;
    let (body, after) = block(alloc, tokens, after, depth)?;
    let handler = HandlerOf {
        exception,
        name,
        body,
    };
    Ok((Some(handler), after))
}

/// A call with its handler and a `;`, and what follows. Its result goes there.
#[cycle(stmts)]
fn call_end(
    alloc: Global,
    tokens: &Tokens<'_>,
    at: usize,
    depth: u32,
    into: Target,
) -> Result<(Call, usize), ParseError>
    requires { depth ≤ grammar.nesting_limit }
    ensures tree { IfOk result (λ r. grammar.CallEnd Within depth (left tokens.now at) (left tokens.now r.1) r.0.function r.0.args r.0.handler) }
    ensures into { IfOk result (λ r. r.0.into ≡ into) }
    ensures reads { IfOk result (λ r. Reads (machine.WantPlain depth ∷ machine.MayHandle depth ∷ machine.WantSign signs.Semicolon ∷ []) (left tokens.now at) (left tokens.now r.1)) }
    ensures ahead { IfOk result (λ r. (at < r.1) × (r.1 ≤ length tokens.now.tokens)) }
    ensures err { IfErr result (λ e. Stops tokens.now.source_len (machine.WantPlain depth ∷ machine.MayHandle depth ∷ machine.WantSign signs.Semicolon ∷ []) (left tokens.now at) e) }
{
    let (function, args, after) = plain(alloc, tokens, at, depth)?;
    let (handler, after) = handler(alloc, tokens, after, depth)?;
    let after = expect(tokens, after, Sign::Semicolon)?;
    let call = CallOf {
        into,
        function,
        args,
        handler,
    };
    Ok((call, after))
}

/// What is declared behind `var`, and what follows.
#[cycle(stmts)]
#[tactic(auto, using(crate::proofs::StmtStarts::starts))]
fn declared(
    alloc: Global,
    tokens: &Tokens<'_>,
    at: usize,
    depth: u32,
) -> Result<(StmtKind, usize), ParseError>
    requires { depth ≤ grammar.nesting_limit }
    ensures tree { IfOk result (λ r. Behind (kinds.Reserved words.Var) depth (left tokens.now at) (left tokens.now r.1) r.0) }
    ensures reads { IfOk result (λ r. Reads (machine.WantName ∷ machine.WantSign signs.Assign ∷ machine.WantDeclared depth ∷ machine.WantSign signs.Semicolon ∷ []) (left tokens.now at) (left tokens.now r.1)) }
    ensures ahead { IfOk result (λ r. (at < r.1) × (r.1 ≤ length tokens.now.tokens)) }
    ensures err { IfErr result (λ e. Stops tokens.now.source_len (machine.WantName ∷ machine.WantSign signs.Assign ∷ machine.WantDeclared depth ∷ machine.WantSign signs.Semicolon ∷ []) (left tokens.now at) e) }
{
    let (name, after) = expect_name(alloc, tokens, at)?;
    let after = expect(tokens, after, Sign::Assign)?;
    if begins_call(tokens, after) {
        let (call, after) = call_end(alloc, tokens, after, depth, Target::New(name))?;
        return Ok((StmtKind::Call(call), after));
    }
    let (value, after) = expr_end(alloc, tokens, after, depth)?;
    Ok((StmtKind::Decl(name, value), after))
}

/// What the variable gets behind `=`, and what follows.
#[cycle(stmts)]
#[tactic(auto, using(crate::proofs::StmtStarts::starts))]
fn assigned(
    alloc: Global,
    tokens: &Tokens<'_>,
    at: usize,
    depth: u32,
    name: Text,
) -> Result<(StmtKind, usize), ParseError>
    requires { depth ≤ grammar.nesting_limit }
    ensures tree { IfOk result (λ r. BehindAssign name depth (left tokens.now at) (left tokens.now r.1) r.0) }
    ensures reads { IfOk result (λ r. Reads (machine.WantAssigned depth ∷ machine.WantSign signs.Semicolon ∷ []) (left tokens.now at) (left tokens.now r.1)) }
    ensures ahead { IfOk result (λ r. (at < r.1) × (r.1 ≤ length tokens.now.tokens)) }
    ensures err { IfErr result (λ e. Stops tokens.now.source_len (machine.WantAssigned depth ∷ machine.WantSign signs.Semicolon ∷ []) (left tokens.now at) e) }
{
    if let Some((size, after)) = load_at(tokens, at) {
        let (addr, after) = expr_end(alloc, tokens, after, depth)?;
        return Ok((StmtKind::SharedLoad(size, name, addr), after));
    }
    if begins_call(tokens, at) {
        let (call, after) = call_end(alloc, tokens, at, depth, Target::Old(name))?;
        return Ok((StmtKind::Call(call), after));
    }
    let (value, after) = expr_end(alloc, tokens, at, depth)?;
    Ok((StmtKind::Assign(name, value), after))
}

/// A call whose result goes nowhere, and what follows.
#[cycle(stmts)]
#[tactic(auto, using(crate::proofs::StmtStarts::starts))]
fn called(
    alloc: Global,
    tokens: &Tokens<'_>,
    at: usize,
    depth: u32,
) -> Result<(StmtKind, usize), ParseError>
    requires nested { depth ≤ grammar.nesting_limit }
    requires alone { NoAssignment (left tokens.now at) }
    ensures tree { IfOk result (λ r. grammar.AStmt Within depth (left tokens.now at) (left tokens.now r.1) (nodes.node (left tokens.now at) (left tokens.now r.1) r.0)) }
    ensures reads { IfOk result (λ r. Reads (machine.WantStmt depth ∷ []) (left tokens.now at) (left tokens.now r.1)) }
    ensures ahead { IfOk result (λ r. (at < r.1) × (r.1 ≤ length tokens.now.tokens)) }
    ensures err { IfErr result (λ e. Stops tokens.now.source_len (machine.WantStmt depth ∷ []) (left tokens.now at) e) }
{
    let (call, after) = call_end(alloc, tokens, at, depth, Target::Nothing)?;
    Ok((StmtKind::Call(call), after))
}

/// The test and the blocks behind `if`, and what follows.
#[cycle(stmts)]
fn branch(
    alloc: Global,
    tokens: &Tokens<'_>,
    at: usize,
    depth: u32,
) -> Result<(StmtKind, usize), ParseError>
    requires { depth ≤ grammar.nesting_limit }
    ensures tree { IfOk result (λ r. Behind (kinds.Reserved words.If) depth (left tokens.now at) (left tokens.now r.1) r.0) }
    ensures reads { IfOk result (λ r. Reads (machine.WantExpr depth ∷ machine.WantBlock depth ∷ machine.WantWord words.Else ∷ machine.WantBlock depth ∷ []) (left tokens.now at) (left tokens.now r.1)) }
    ensures ahead { IfOk result (λ r. (at < r.1) × (r.1 ≤ length tokens.now.tokens)) }
    ensures err { IfErr result (λ e. Stops tokens.now.source_len (machine.WantExpr depth ∷ machine.WantBlock depth ∷ machine.WantWord words.Else ∷ machine.WantBlock depth ∷ []) (left tokens.now at) e) }
{
    let (test, after) = expr(alloc, tokens, at, depth)?;
    let (yes_block, after) = block(alloc, tokens, after, depth)?;
    let after = expect_word(tokens, after, Keyword::Else)?;
    let (no_block, after) = block(alloc, tokens, after, depth)?;
    Ok((StmtKind::If(test, yes_block, no_block), after))
}

/// The test and the block behind `while`, and what follows.
#[cycle(stmts)]
fn repeated(
    alloc: Global,
    tokens: &Tokens<'_>,
    at: usize,
    depth: u32,
) -> Result<(StmtKind, usize), ParseError>
    requires { depth ≤ grammar.nesting_limit }
    ensures tree { IfOk result (λ r. Behind (kinds.Reserved words.While) depth (left tokens.now at) (left tokens.now r.1) r.0) }
    ensures reads { IfOk result (λ r. Reads (machine.WantExpr depth ∷ machine.WantBlock depth ∷ []) (left tokens.now at) (left tokens.now r.1)) }
    ensures ahead { IfOk result (λ r. (at < r.1) × (r.1 ≤ length tokens.now.tokens)) }
    ensures err { IfErr result (λ e. Stops tokens.now.source_len (machine.WantExpr depth ∷ machine.WantBlock depth ∷ []) (left tokens.now at) e) }
{
    let (test, after) = expr(alloc, tokens, at, depth)?;
    let (body, after) = block(alloc, tokens, after, depth)?;
    Ok((StmtKind::While(test, body), after))
}

/// A statement that begins with a reserved word, and what follows.
#[cycle(stmts)]
fn worded(
    alloc: Global,
    tokens: &Tokens<'_>,
    at: usize,
    next: usize,
    depth: u32,
    word: Keyword,
) -> Result<(StmtKind, usize), ParseError>
    requires nested { depth ≤ grammar.nesting_limit }
    requires word { IsOne tokens.now at next (kinds.Reserved word) }
    ensures tree { IfOk result (λ r. grammar.AStmt Within depth (left tokens.now at) (left tokens.now r.1) (nodes.node (left tokens.now at) (left tokens.now r.1) r.0)) }
    ensures reads { IfOk result (λ r. Reads (machine.WantStmt depth ∷ []) (left tokens.now at) (left tokens.now r.1)) }
    ensures ahead { IfOk result (λ r. (at < r.1) × (r.1 ≤ length tokens.now.tokens)) }
    ensures err { IfErr result (λ e. Stops tokens.now.source_len (machine.WantStmt depth ∷ []) (left tokens.now at) e) }
{
    match word {
        Keyword::Skip => Ok((StmtKind::Skip, expect(tokens, next, Sign::Semicolon)?)),
        Keyword::Break => Ok((StmtKind::Break, expect(tokens, next, Sign::Semicolon)?)),
        Keyword::Continue => Ok((StmtKind::Continue, expect(tokens, next, Sign::Semicolon)?)),
        Keyword::Var => declared(alloc, tokens, next, depth),
        Keyword::St => {
            let (addr, value, after) = two_exprs(alloc, tokens, next, depth)?;
            Ok((StmtKind::StoreWords(addr, value), after))
        }
        Keyword::Stb => {
            let (addr, value, after) = two_exprs(alloc, tokens, next, depth)?;
            Ok((StmtKind::StoreByte(addr, value), after))
        }
        Keyword::If => branch(alloc, tokens, next, depth),
        Keyword::While => repeated(alloc, tokens, next, depth),
        Keyword::Return => returned(alloc, tokens, next, depth),
        Keyword::Raise => raised(alloc, tokens, next, depth),
        Keyword::Exception
        | Keyword::Fun
        | Keyword::Else
        | Keyword::Handle
        | Keyword::Lds
        | Keyword::Ldb => Err(syntax(tokens, at)),
    }
}

/// What a statement is, and what follows it.
#[cycle(stmts)]
fn stmt_kind(
    alloc: Global,
    tokens: &Tokens<'_>,
    at: usize,
    depth: u32,
) -> Result<(StmtKind, usize), ParseError>
    requires { depth ≤ grammar.nesting_limit }
    ensures tree { IfOk result (λ r. grammar.AStmt Within depth (left tokens.now at) (left tokens.now r.1) (nodes.node (left tokens.now at) (left tokens.now r.1) r.0)) }
    ensures reads { IfOk result (λ r. Reads (machine.WantStmt depth ∷ []) (left tokens.now at) (left tokens.now r.1)) }
    ensures ahead { IfOk result (λ r. (at < r.1) × (r.1 ≤ length tokens.now.tokens)) }
    ensures err { IfErr result (λ e. Stops tokens.now.source_len (machine.WantStmt depth ∷ []) (left tokens.now at) e) }
{
    let Some((t, next)) = first(tokens, at) else {
        return Err(syntax(tokens, at));
    };
    match t.kind {
        TokenKind::Name(name) => match after_sign(tokens, next, Sign::Assign) {
            Some(after) => {
                let name = text(alloc, name)?;
                assigned(alloc, tokens, after, depth, name)
            }
            None => called(alloc, tokens, at, depth),
        },
        TokenKind::Reserved(word) => worded(alloc, tokens, at, next, depth, word),
        TokenKind::Store(size) => {
            let (addr, value, after) = two_exprs(alloc, tokens, next, depth)?;
            Ok((StmtKind::SharedStore(size, addr, value), after))
        }
        TokenKind::Foreign(name) => {
            let name = text(alloc, name)?;
            foreign(alloc, tokens, next, depth, name)
        }
        _ => Err(syntax(tokens, at)),
    }
}

/// A statement, and what follows.
#[cycle(stmts)]
fn stmt(
    alloc: Global,
    tokens: &Tokens<'_>,
    at: usize,
    depth: u32,
) -> Result<(Stmt, usize), ParseError>
    requires { depth ≤ grammar.nesting_limit }
    ensures tree { IfOk result (λ r. grammar.AStmt Within depth (left tokens.now at) (left tokens.now r.1) r.0) }
    ensures reads { IfOk result (λ r. Reads (machine.WantStmt depth ∷ []) (left tokens.now at) (left tokens.now r.1)) }
    ensures ahead { IfOk result (λ r. (at < r.1) × (r.1 ≤ length tokens.now.tokens)) }
    ensures err { IfErr result (λ e. Stops tokens.now.source_len (machine.WantStmt depth ∷ []) (left tokens.now at) e) }
{
    let (kind, after) = stmt_kind(alloc, tokens, at, depth)?;
    Ok((node(tokens, at, after, kind), after))
}

/// Statements up to the closing brace, and what follows it.
#[cycle(stmts)]
#[tactic(auto, using(crate::proofs::StmtStarts::starts))]
fn stmts(
    alloc: Global,
    tokens: &Tokens<'_>,
    at: usize,
    depth: u32,
) -> Result<(List<Stmt>, usize), ParseError>
    requires { depth ≤ grammar.nesting_limit }
    ensures tree { IfOk result (λ r. ClosedStmts depth (left tokens.now at) (left tokens.now r.1) r.0) }
    ensures reads { IfOk result (λ r. Reads (machine.MoreStmts depth ∷ machine.WantSign signs.CloseBrace ∷ []) (left tokens.now at) (left tokens.now r.1)) }
    ensures ahead { IfOk result (λ r. (at < r.1) × (r.1 ≤ length tokens.now.tokens)) }
    ensures err { IfErr result (λ e. Stops tokens.now.source_len (machine.MoreStmts depth ∷ machine.WantSign signs.CloseBrace ∷ []) (left tokens.now at) e) }
{
    let mut all = List::new(alloc);
    let mut rest = at;
    'stmts: loop {
        if let Some(after) = after_sign(tokens, rest, Sign::CloseBrace) {
            return Ok((all, after));
        }
        let (next, after) = stmt(alloc, tokens, rest, depth)?;
        all.push(next)?;
        rest = after;
    }
}

/// A block, and what follows.
#[cycle(stmts)]
pub fn block(
    alloc: Global,
    tokens: &Tokens<'_>,
    at: usize,
    depth: u32,
) -> Result<(Block, usize), ParseError>
    requires { depth ≤ grammar.nesting_limit }
    ensures tree { IfOk result (λ r. grammar.ABlock Within depth (left tokens.now at) (left tokens.now r.1) r.0) }
    ensures reads { IfOk result (λ r. Reads (machine.WantBlock depth ∷ []) (left tokens.now at) (left tokens.now r.1)) }
    ensures ahead { IfOk result (λ r. (at < r.1) × (r.1 ≤ length tokens.now.tokens)) }
    ensures err { IfErr result (λ e. Stops tokens.now.source_len (machine.WantBlock depth ∷ []) (left tokens.now at) e) }
{
    let Some(after) = after_sign(tokens, at, Sign::OpenBrace) else {
        return Err(syntax(tokens, at));
    };
    let depth = deeper(tokens, at, depth)?;
    let (stmts, after) = stmts(alloc, tokens, after, depth)?;
    Ok((BlockOf { stmts }, after))
}
