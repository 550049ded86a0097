//! The words of expressions.

ghost use Rattle.std.specs.Prelude.{◌≡◌, true, map, IfOk};
ghost use Rattle.std.specs.List.{list_all};
ghost use Rattle.pan_base.specs.declared.operators.BinOp.TheVariants as bin_op;
ghost use Rattle.crep_lang.specs.declared.syntax.Expr.TheVariants as e;
ghost use Rattle.crep_flatten.specs.Flat as flat;
ghost use Rattle.crep_flatten.specs.Flattened.{rows_of};
ghost use Rattle.crep_flatten.specs.Literals.{fits};

use crate::few::Few;
use crate::lists::reversed;
use crate::parts::{loaded, loaded_word, one, parts_at, variable, variable_word};
use crate::rows::{Row, first_word};
use crate::scopes::Scopes;
use crep_lang::Expr as Word;
use pan_base::{BinOp, Boxed, List, NoMemory, ShOp};
use pan_tree::{Expr, ExprKind, Shape};
use std::alloc::Global;

/// Where local memory begins.
const BASE_ADDRESS: u64 = 0x1000_0000;

/// The number of bytes in a word.
const BYTES_IN_WORD: u64 = 8;

/// The words of an expression, and its shape, in which a struct of words is a group.
#[derive(Drop)]
pub struct Flat {
    pub shape: Shape,
    pub rows: Few<Row>,
}

/// The words of an expression. `NoMemory` also stands for numbers that no checked program has: of 2^32 words or more, and shifts by
/// 256 or more.
#[cycle(flatten_expr)]
#[tactic(auto, using(crate::proofs::FlatLayers::expr_rules))]
pub fn flatten_expr(alloc: Global, expr: &Expr, here: &Scopes<'_>) -> Result<Flat, NoMemory>
    ensures flat { IfOk result (λ f. f ≡ flat.flat expr.now here.now) }
    ensures fits { IfOk result (λ _. fits expr.now ≡ true) }
{
    match &expr.kind {
        ExprKind::Var(name) => variable(alloc, here.place(name.as_bytes())),
        ExprKind::Struct(parts) => flatten_struct(alloc, parts.as_slice(), here),
        ExprKind::Field(of, path) => flatten_field(alloc, of.get(), path.as_slice(), here),
        ExprKind::Load(shape, address) => {
            let address = flatten_word(alloc, address.get(), here)?;
            loaded(alloc, shape, address)
        }
        ExprKind::Number(_)
        | ExprKind::Base
        | ExprKind::Biw
        | ExprKind::LoadByte(_)
        | ExprKind::Neg(_)
        | ExprKind::Chain(_, _)
        | ExprKind::Shift(_, _)
        | ExprKind::Compare(_, _, _) => one(alloc, flatten_word(alloc, expr, here)?),
    }
}

/// The word of an expression that has one. `NoMemory` also stands for what it does at `flatten_expr`.
#[cycle(flatten_expr)]
#[tactic(auto, using(crate::proofs::FlatLayers::word_rules))]
pub fn flatten_word(alloc: Global, expr: &Expr, here: &Scopes<'_>) -> Result<Word, NoMemory>
    ensures word { IfOk result (λ w. w ≡ flat.word_in (flat.flat expr.now here.now)) }
    ensures fits { IfOk result (λ _. fits expr.now ≡ true) }
{
    match &expr.kind {
        ExprKind::Number(number) => Ok(Word::Num(*number)),
        ExprKind::Base => Ok(Word::Num(BASE_ADDRESS)),
        ExprKind::Biw => Ok(Word::Num(BYTES_IN_WORD)),
        ExprKind::Var(name) => variable_word(here.place(name.as_bytes())),
        ExprKind::Struct(parts) => {
            let whole = flatten_struct(alloc, parts.as_slice(), here)?;
            first_word(alloc, whole.rows)
        }
        ExprKind::Field(of, path) => {
            let part = flatten_field(alloc, of.get(), path.as_slice(), here)?;
            first_word(alloc, part.rows)
        }
        ExprKind::Load(shape, address) => {
            let address = flatten_word(alloc, address.get(), here)?;
            loaded_word(alloc, shape, address)
        }
        ExprKind::LoadByte(at) => Ok(Word::LoadByte(flatten_boxed(alloc, at.get(), here)?)),
        ExprKind::Neg(of) => negated(alloc, flatten_boxed(alloc, of.get(), here)?),
        ExprKind::Chain(first, rest) => {
            let first = flatten_word(alloc, first.get(), here)?;
            let rest = flatten_terms(alloc, rest.as_slice(), here)?;
            chained(alloc, first, rest)
        }
        ExprKind::Shift(of, amounts) => {
            let of = flatten_word(alloc, of.get(), here)?;
            shifted(alloc, of, amounts.as_slice())
        }
        ExprKind::Compare(comparison, left, right) => {
            let left = flatten_boxed(alloc, left.get(), here)?;
            let right = flatten_boxed(alloc, right.get(), here)?;
            Ok(Word::Compare(*comparison, left, right))
        }
    }
}

/// The same, on the heap.
#[cycle(flatten_expr)]
fn flatten_boxed(alloc: Global, expr: &Expr, here: &Scopes<'_>) -> Result<Boxed<Word>, NoMemory>
    ensures word { IfOk result (λ w. w ≡ flat.word_in (flat.flat expr.now here.now)) }
    ensures fits { IfOk result (λ _. fits expr.now ≡ true) }
{
    Ok(Boxed::new(alloc, flatten_word(alloc, expr, here)?)?)
}

/// The words of a struct of these parts.
#[cycle(flatten_expr)]
fn flatten_struct(alloc: Global, parts: &[Expr], here: &Scopes<'_>) -> Result<Flat, NoMemory>
    ensures flat { IfOk result (λ f. f ≡ flat.struct_of (map (λ x. flat.flat x here.now) parts.now)) }
    ensures fits { IfOk result (λ _. list_all fits parts.now ≡ true) }
{
    let mut shapes = List::new(alloc);
    let mut rows = Few::new(alloc);
    for part in parts {
        let words = flatten_expr(alloc, part, here)?;
        shapes.push(words.shape)?;
        rows.append(words.rows)?;
    }
    Ok(Flat {
        shape: Shape::Group(shapes),
        rows,
    })
}

/// The words of a part of a struct, and a part of that, and so on.
#[cycle(flatten_expr)]
fn flatten_field(
    alloc: Global,
    of: &Expr,
    path: &[u64],
    here: &Scopes<'_>,
) -> Result<Flat, NoMemory>
    ensures flat { IfOk result (λ f. f ≡ flat.parts_at path.now (flat.flat of.now here.now)) }
    ensures fits { IfOk result (λ _. fits of.now ≡ true) }
{
    parts_at(alloc, flatten_expr(alloc, of, here)?, path)
}

/// The words of the terms of a chain behind its first.
#[cycle(flatten_expr)]
fn flatten_terms(
    alloc: Global,
    terms: &[(BinOp, Expr)],
    here: &Scopes<'_>,
) -> Result<List<(BinOp, Word)>, NoMemory>
    ensures words { IfOk result (λ ws. ws ≡ map (λ y. (y.0, flat.word_in (flat.flat y.1 here.now))) terms.now) }
    ensures fits { IfOk result (λ _. list_all (λ y. fits y.1) terms.now ≡ true) }
{
    let mut all = List::new(alloc);
    for (operator, term) in terms {
        all.push((*operator, flatten_word(alloc, term, here)?))?;
    }
    Ok(all)
}

/// The word with the other sign.
fn negated(alloc: Global, word: Boxed<Word>) -> Result<Word, NoMemory>
    ensures { IfOk result (λ w. w ≡ e.Bin bin_op.Sub (e.Num 0) word) }
{
    Ok(Word::Bin(BinOp::Sub, Boxed::new(alloc, Word::Num(0))?, word))
}

/// The word of operators one after another, from the left.
fn chained(alloc: Global, first: Word, terms: List<(BinOp, Word)>) -> Result<Word, NoMemory>
    ensures { IfOk result (λ w. w ≡ flat.chain first terms) }
{
    let mut word = first;
    let mut left = reversed(alloc, terms)?;
    while let Some((operator, term)) = left.pop() {
        let before = Boxed::new(alloc, word)?;
        word = Word::Bin(operator, before, Boxed::new(alloc, term)?);
    }
    Ok(word)
}

/// The word shifted by each of these amounts, one after another.
fn shifted(alloc: Global, word: Word, amounts: &[(ShOp, u64)]) -> Result<Word, NoMemory>
    ensures { IfOk result (λ w. w ≡ flat.shifts word amounts.now) }
{
    let mut word = word;
    for (operator, amount) in amounts {
        let Ok(amount) = u8::try_from(*amount) else {
            return Err(NoMemory);
        };
        word = Word::Shift(*operator, Boxed::new(alloc, word)?, amount);
    }
    Ok(word)
}

/// The words of several expressions, one after another.
pub fn flatten_rows(alloc: Global, exprs: &[Expr], here: &Scopes<'_>) -> Result<Few<Row>, NoMemory>
    ensures rows { IfOk result (λ rs. rs ≡ rows_of (map (λ v. flat.flat v here.now) exprs.now)) }
    ensures fits { IfOk result (λ _. list_all fits exprs.now ≡ true) }
{
    let mut rows = Few::new(alloc);
    for expr in exprs {
        let words = flatten_expr(alloc, expr, here)?;
        rows.append(words.rows)?;
    }
    Ok(rows)
}
