//! Exceptions and functions.

ghost use Rattle.std.specs.Prelude.{◌≡◌, ◌<◌, ◌≤◌, [], ◌∷◌, length, IfOk, IfErr, OnOk};
ghost use Rattle.pan_base.specs.declared.tokens.Keyword.TheVariants as words;
ghost use Rattle.pan_base.specs.declared.tokens.Sign.TheVariants as signs;
ghost use Rattle.pan_base.specs.Tokens as kinds;
ghost use Rattle.pan_tree.specs.Grammar.{Within};
ghost use Rattle.pan_tree.specs.Grammar as grammar;
ghost use Rattle.pan_tree.specs.Check.{HasLawfulNames};
ghost use Rattle.pan_parser.specs.Machine as machine;
ghost use Rattle.pan_parser.specs.Follow.{Halts};
ghost use Rattle.pan_parser.specs.Reading.{left, IsOne, Reads, Stops};
ghost use Rattle.pan_parser.specs.Items as items;

use crate::cursor::{after_sign, after_word, expect, expect_name, first, span_between, syntax};
use crate::error::ParseError;
use crate::shapes::shape;
use crate::statements::block;
use pan_base::{Keyword, List, Sign, Text, TokenKind, single};
use pan_lexer::Tokens;
use pan_tree::{Exception, Function, Param, Program, Shape};
use std::alloc::{AllocError, Global};

/// An item of a program.
#[derive(Drop)]
enum Item {
    Exception(Exception),
    Function(Function),
}

/// A parameter, and what follows.
#[tactic(auto, using(crate::proofs::ItemStarts::starts))]
fn param(alloc: Global, tokens: &Tokens<'_>, at: usize) -> Result<(Param, usize), ParseError>
    ensures tree { IfOk result (λ r. grammar.AParam Within 0 (left tokens.now at) (left tokens.now r.1) r.0) }
    ensures reads { IfOk result (λ r. Reads (machine.WantParam 0 ∷ []) (left tokens.now at) (left tokens.now r.1)) }
    ensures ahead { IfOk result (λ r. (at < r.1) × (r.1 ≤ length tokens.now.tokens)) }
    ensures err { IfErr result (λ e. Stops tokens.now.source_len (machine.WantParam 0 ∷ []) (left tokens.now at) e) }
{
    let (shape, after) = shape(alloc, tokens, at, 0)?;
    let (name, after) = expect_name(alloc, tokens, after)?;
    Ok((Param { name, shape }, after))
}

/// One parameter or more, with commas between them, and what follows.
fn some_params(
    alloc: Global,
    tokens: &Tokens<'_>,
    at: usize,
) -> Result<(List<Param>, usize), ParseError>
    ensures tree { IfOk result (λ r. items.SomeParams (left tokens.now at) (left tokens.now r.1) r.0) }
    ensures reads { IfOk result (λ r. Reads (machine.WantParam 0 ∷ machine.MoreParams 0 ∷ []) (left tokens.now at) (left tokens.now r.1)) }
    ensures ahead { IfOk result (λ r. (at < r.1) × (r.1 ≤ length tokens.now.tokens)) }
    ensures err { IfErr result (λ e. Stops tokens.now.source_len (machine.WantParam 0 ∷ machine.MoreParams 0 ∷ []) (left tokens.now at) e) }
{
    let (next, after) = param(alloc, tokens, at)?;
    let mut params = single(alloc, next)?;
    let mut rest = after;
    'params: while let Some(after) = after_sign(tokens, rest, Sign::Comma) {
        let (next, after) = param(alloc, tokens, after)?;
        params.push(next)?;
        rest = after;
    }
    Ok((params, rest))
}

/// Parameters, if there are any, up to the closing parenthesis, and what follows it.
#[tactic(auto, using(crate::proofs::ItemStarts::starts))]
fn params(alloc: Global, tokens: &Tokens<'_>, at: usize) -> Result<(List<Param>, usize), ParseError>
    ensures tree { IfOk result (λ r. items.ClosedParams (left tokens.now at) (left tokens.now r.1) r.0) }
    ensures reads { IfOk result (λ r. Reads (machine.MayParams 0 ∷ machine.WantSign signs.CloseParen ∷ []) (left tokens.now at) (left tokens.now r.1)) }
    ensures ahead { IfOk result (λ r. (at < r.1) × (r.1 ≤ length tokens.now.tokens)) }
    ensures err { IfErr result (λ e. Stops tokens.now.source_len (machine.MayParams 0 ∷ machine.WantSign signs.CloseParen ∷ []) (left tokens.now at) e) }
{
    if let Some(after) = after_sign(tokens, at, Sign::CloseParen) {
        return Ok((List::new(alloc), after));
    }
    let (params, after) = some_params(alloc, tokens, at)?;
    let after = expect(tokens, after, Sign::CloseParen)?;
    Ok((params, after))
}

/// Whether a name comes.
fn begins_name(tokens: &Tokens<'_>, at: usize) -> bool
    ensures { result ≡ items.begins_name (left tokens.now at) }
{
    let Some((t, _)) = first(tokens, at) else {
        return false;
    };
    matches!(t.kind, TokenKind::Name(_))
}

/// The shape of a function's result, where none is one word, and its name, and what follows.
#[tactic(auto, using(crate::proofs::ItemStarts::starts))]
fn named_result(
    alloc: Global,
    tokens: &Tokens<'_>,
    at: usize,
) -> Result<(Shape, Text, usize), ParseError>
    ensures tree { IfOk result (λ r. items.NamedResult (left tokens.now at) (left tokens.now r.2) r.0 r.1) }
    ensures reads { IfOk result (λ r. Reads (machine.MayShape 0 ∷ machine.WantName ∷ []) (left tokens.now at) (left tokens.now r.2)) }
    ensures ahead { IfOk result (λ r. (at < r.2) × (r.2 ≤ length tokens.now.tokens)) }
    ensures err { IfErr result (λ e. Stops tokens.now.source_len (machine.MayShape 0 ∷ machine.WantName ∷ []) (left tokens.now at) e) }
{
    if begins_name(tokens, at) {
        let (name, after) = expect_name(alloc, tokens, at)?;
        return Ok((Shape::Word, name, after));
    }
    let (shape, after) = shape(alloc, tokens, at, 0)?;
    let (name, after) = expect_name(alloc, tokens, after)?;
    Ok((shape, name, after))
}

/// An exception, behind its word, and what follows.
fn exception(
    alloc: Global,
    tokens: &Tokens<'_>,
    at: usize,
    next: usize,
) -> Result<(Exception, usize), ParseError>
    requires { IsOne tokens.now at next (kinds.Reserved words.Exception) }
    ensures tree { IfOk result (λ r. grammar.AnException Within (left tokens.now at) (left tokens.now r.1) r.0) }
    ensures reads { IfOk result (λ r. Reads (items.exception_rest) (left tokens.now next) (left tokens.now r.1)) }
    ensures ahead { IfOk result (λ r. (at < r.1) × (r.1 ≤ length tokens.now.tokens)) }
    ensures err { IfErr result (λ e. Stops tokens.now.source_len (items.exception_rest) (left tokens.now next) e) }
{
    let (name, after) = expect_name(alloc, tokens, next)?;
    let (shape, after) = shape(alloc, tokens, after, 0)?;
    let after = expect(tokens, after, Sign::Semicolon)?;
    let span = span_between(tokens, at, after);
    let exception = Exception { name, shape, span };
    Ok((exception, after))
}

/// A function, behind its word, and what follows.
fn function(
    alloc: Global,
    tokens: &Tokens<'_>,
    at: usize,
    next: usize,
) -> Result<(Function, usize), ParseError>
    requires { IsOne tokens.now at next (kinds.Reserved words.Fun) }
    ensures tree { IfOk result (λ r. grammar.AFunction Within (left tokens.now at) (left tokens.now r.1) r.0) }
    ensures reads { IfOk result (λ r. Reads (items.function_rest) (left tokens.now next) (left tokens.now r.1)) }
    ensures ahead { IfOk result (λ r. (at < r.1) × (r.1 ≤ length tokens.now.tokens)) }
    ensures err { IfErr result (λ e. Stops tokens.now.source_len (items.function_rest) (left tokens.now next) e) }
{
    let (result, name, after) = named_result(alloc, tokens, next)?;
    let after = expect(tokens, after, Sign::OpenParen)?;
    let (params, after) = params(alloc, tokens, after)?;
    let (body, after) = block(alloc, tokens, after, 0)?;
    let span = span_between(tokens, at, after);
    let function = Function {
        name,
        params,
        result,
        body,
        span,
    };
    Ok((function, after))
}

/// An item, and what follows.
fn next_item(alloc: Global, tokens: &Tokens<'_>, at: usize) -> Result<(Item, usize), ParseError>
    requires { at < length tokens.now.tokens }
    ensures tree { IfOk result (λ r. items.AnItem (left tokens.now at) (left tokens.now r.1) r.0) }
    ensures reads { IfOk result (λ r. machine.run grammar.nesting_limit (left tokens.now at) machine.whole ≡ machine.run grammar.nesting_limit (left tokens.now r.1) machine.whole) }
    ensures ahead { IfOk result (λ r. (at < r.1) × (r.1 ≤ length tokens.now.tokens)) }
    ensures err { IfErr result (λ e. Halts tokens.now.source_len (left tokens.now at) e) }
{
    if let Some(next) = after_word(tokens, at, Keyword::Exception) {
        let (exception, after) = exception(alloc, tokens, at, next)?;
        return Ok((Item::Exception(exception), after));
    }
    if let Some(next) = after_word(tokens, at, Keyword::Fun) {
        let (function, after) = function(alloc, tokens, at, next)?;
        return Ok((Item::Function(function), after));
    }
    Err(syntax(tokens, at))
}

/// Puts the item behind the others of its kind.
fn put(program: &mut Program, item: Item) -> Result<(), AllocError>
    ensures { OnOk result (program.new ≡ items.with_item program.old item) }
{
    match item {
        Item::Exception(exception) => program.exceptions.push(exception)?,
        Item::Function(function) => program.functions.push(function)?,
    }
    Ok(())
}

/// The program that all the tokens spell.
pub fn program(alloc: Global, tokens: &Tokens<'_>) -> Result<Program, ParseError>
    ensures tree { IfOk result (λ p. grammar.Tree tokens.now.tokens p) }
    ensures lawful { IfOk result HasLawfulNames }
    ensures err { IfErr result (λ e. Halts tokens.now.source_len tokens.now.tokens e) }
{
    let mut program = Program {
        exceptions: List::new(alloc),
        functions: List::new(alloc),
    };
    let mut rest = 0;
    'items: while rest < tokens.len() {
        let (next, after) = next_item(alloc, tokens, rest)?;
        put(&mut program, next)?;
        rest = after;
    }
    Ok(program)
}
