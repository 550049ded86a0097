//! The shapes and weights of expressions.

ghost use Rattle.std.specs.Prelude.{◌≡◌, ◌+◌, ◌*◌, ◌-◌, ◌^◌, min, length, [], ◌∷◌, not, map, nat_lt, ◌||◌};
ghost use Rattle.std.specs.List.{list_any};
ghost use Rattle.pan_tree.specs.declared.shape.Shape.TheVariants as shape;
ghost use Rattle.pan_tree.specs.declared.syntax.ExprKind.TheVariants as e;
ghost use Rattle.pan_tree.specs.declared.rule.Rule.TheVariants as rule;
ghost use Rattle.pan_tree.specs.Shapes.{APart, part_at, words_of, is_word};
ghost use Rattle.pan_tree.specs.Check.{judged, judge_kind};
ghost use Rattle.pan_tree.specs.Check as check;
ghost use Rattle.pan_shapes.specs.Answers.{IsAnswer};
ghost use Rattle.pan_shapes.specs.Judging.{IsJudged, AreJudged, AreParts, AreTerms, IsMade};

use crate::error::CheckError;
use crate::fields::{Found, part_at};
use crate::refusals::refuse;
use crate::scopes::Scopes;
use pan_base::{BinOp, List, ShOp};
use pan_tree::{Expr, ExprKind, Rule, Shape, copy_shape, count_words, is_word, words};
use std::alloc::Global;

/// The greatest number of words of a shape.
const MAX_WORDS: u64 = 64;

/// The shape of an expression, and what it weighs, or 2^64 - 1 where that is less.
#[derive(Drop)]
pub struct Judged {
    pub shape: Shape,
    pub weight: u64,
}

/// The shapes of expressions, and what they weigh together, or 2^64 - 1 where that is less.
#[derive(Drop)]
pub struct Parts {
    pub shapes: List<Shape>,
    pub weight: u64,
}

/// Whether some of the terms of a chain is no word, and what they weigh together, or 2^64 - 1 where that is less.
#[derive(Clone, Copy, Drop)]
pub struct Terms {
    pub has_no_word: bool,
    pub weight: u64,
}

/// What has this shape and is made of parts that weigh so much.
fn made_of(shape: Shape, parts: u64) -> Judged
    ensures shaped { result.shape ≡ shape }
    ensures weighs { result.weight ≡ min (1 + words_of shape + parts) (2 ^ 64 - 1) }
{
    let weight = count_words(&shape).saturating_add(parts).saturating_add(1);
    Judged { shape, weight }
}

/// A word that is made of this one, which must be a word.
fn word_of(place: u32, of: &Judged) -> Result<Judged, CheckError>
    ensures { IsAnswer (check.broken place ((rule.NotWord, not (is_word of.now.shape)) ∷ [])) (IsMade shape.Word (2 + of.now.weight)) result }
{
    refuse(place, &[(Rule::NotWord, !is_word(&of.shape))])?;
    Ok(Judged {
        shape: Shape::Word,
        weight: of.weight.saturating_add(2),
    })
}

/// A word that is made of these two, which must be words.
fn word_of_both(place: u32, left: &Judged, right: &Judged) -> Result<Judged, CheckError>
    ensures { IsAnswer (check.broken place ((rule.NotWord, not (is_word left.now.shape) || not (is_word right.now.shape)) ∷ [])) (IsMade shape.Word (2 + (left.now.weight + right.now.weight))) result }
{
    let has_no_word = !is_word(&left.shape) || !is_word(&right.shape);
    refuse(place, &[(Rule::NotWord, has_no_word)])?;
    let weight = left.weight.saturating_add(right.weight).saturating_add(2);
    Ok(Judged {
        shape: Shape::Word,
        weight,
    })
}

/// The value of the variable.
fn judge_var(
    alloc: Global,
    place: u32,
    name: &[u8],
    scopes: &Scopes<'_>,
) -> Result<Judged, CheckError>
    ensures { IsJudged (judge_kind (e.Var name.now) place scopes.now) result }
{
    match scopes.shape(name) {
        Some(shape) => Ok(made_of(copy_shape(alloc, shape)?, 0)),
        None => Err(CheckError::Breaks {
            rule: Rule::UnknownName,
            place,
        }),
    }
}

/// A struct of such parts.
fn struct_of(place: u32, parts: Parts) -> Result<Judged, CheckError>
    ensures { let s = shape.Group parts.shapes in IsAnswer (check.broken place ((rule.ShapeTooWide, check.is_wide s) ∷ [])) (IsMade s (1 + words_of s + parts.weight)) result }
{
    let shape = Shape::Group(parts.shapes);
    let is_wide = words(&shape) > MAX_WORDS;
    refuse(place, &[(Rule::ShapeTooWide, is_wide)])?;
    Ok(made_of(shape, parts.weight))
}

/// The part of what has this shape and weighs so much, by these numbers.
fn field_of(alloc: Global, place: u32, of: &Judged, path: &[u64]) -> Result<Judged, CheckError>
    ensures { let part = part_at (APart of.now.shape) path.now in IsAnswer (check.broken place ((rule.NotStruct, check.is_of_word part) ∷ (rule.NoField, check.is_no_part part) ∷ [])) (IsMade (check.part_shape part) (1 + words_of (check.part_shape part) + of.now.weight)) result }
{
    match part_at(alloc, &of.shape, path)? {
        Found::Part(shape) => Ok(made_of(shape, of.weight)),
        Found::OfWord => Err(CheckError::Breaks {
            rule: Rule::NotStruct,
            place,
        }),
        Found::NoPart => Err(CheckError::Breaks {
            rule: Rule::NoField,
            place,
        }),
    }
}

/// What local memory has of this shape at such an address.
fn loaded_of(
    alloc: Global,
    place: u32,
    shape: &Shape,
    address: &Judged,
) -> Result<Judged, CheckError>
    ensures { IsAnswer (check.broken place ((rule.NotWord, not (is_word address.now.shape)) ∷ (rule.ShapeTooWide, check.is_wide shape.now) ∷ [])) (IsMade shape.now (1 + words_of shape.now + address.now.weight)) result }
{
    let no_word = !is_word(&address.shape);
    let is_wide = words(shape) > MAX_WORDS;
    refuse(
        place,
        &[(Rule::NotWord, no_word), (Rule::ShapeTooWide, is_wide)],
    )?;
    Ok(made_of(copy_shape(alloc, shape)?, address.weight))
}

/// Whether some of the amounts is more than 63.
fn shifts_too_far(amounts: &[(ShOp, u64)]) -> bool
    ensures { result ≡ list_any (λ n. nat_lt 63 n.1) amounts.now }
{
    amounts.iter().any(|(_, amount)| *amount > 63)
}

/// A chain of a part and of terms, all of which must be words.
fn chain_of(place: u32, first: &Judged, rest: Terms, count: usize) -> Result<Judged, CheckError>
    ensures { IsAnswer (check.broken place ((rule.NotWord, not (is_word first.now.shape) || rest.has_no_word) ∷ [])) (IsMade shape.Word (2 * count + (first.now.weight + rest.weight))) result }
{
    let has_no_word = !is_word(&first.shape) || rest.has_no_word;
    refuse(place, &[(Rule::NotWord, has_no_word)])?;
    let weight = (count as u64)
        .saturating_mul(2)
        .saturating_add(first.weight)
        .saturating_add(rest.weight);
    Ok(Judged {
        shape: Shape::Word,
        weight,
    })
}

/// A word that is shifted by these amounts.
fn shift_of(place: u32, of: &Judged, amounts: &[(ShOp, u64)]) -> Result<Judged, CheckError>
    ensures { IsAnswer (check.broken place ((rule.NotWord, not (is_word of.now.shape)) ∷ (rule.BadShift, list_any (λ n. nat_lt 63 n.1) amounts.now) ∷ [])) (IsMade shape.Word (2 * length amounts.now + of.now.weight)) result }
{
    let no_word = !is_word(&of.shape);
    let too_far = shifts_too_far(amounts);
    refuse(
        place,
        &[(Rule::NotWord, no_word), (Rule::BadShift, too_far)],
    )?;
    let weight = (amounts.len() as u64)
        .saturating_mul(2)
        .saturating_add(of.weight);
    Ok(Judged {
        shape: Shape::Word,
        weight,
    })
}

/// The shape and weight of the expression, where these variables can be named.
#[cycle(judge)]
pub fn judge(alloc: Global, expr: &Expr, scopes: &Scopes<'_>) -> Result<Judged, CheckError>
    ensures { IsJudged (judged expr.now scopes.now) result }
{
    let place = expr.span.start;
    match &expr.kind {
        ExprKind::Number(_) | ExprKind::Base | ExprKind::Biw => Ok(made_of(Shape::Word, 0)),
        ExprKind::Var(name) => judge_var(alloc, place, name.as_bytes(), scopes),
        ExprKind::Struct(parts) => {
            let parts = judge_parts(alloc, parts.as_slice(), scopes)?;
            struct_of(place, parts)
        }
        ExprKind::Field(of, path) => {
            let of = judge(alloc, of.get(), scopes)?;
            field_of(alloc, place, &of, path.as_slice())
        }
        ExprKind::Load(shape, address) => {
            let address = judge(alloc, address.get(), scopes)?;
            loaded_of(alloc, place, shape, &address)
        }
        ExprKind::LoadByte(of) | ExprKind::Neg(of) => {
            let of = judge(alloc, of.get(), scopes)?;
            word_of(place, &of)
        }
        ExprKind::Compare(_, left, right) => {
            judge_compare(alloc, place, left.get(), right.get(), scopes)
        }
        ExprKind::Chain(first, rest) => {
            judge_chain(alloc, place, first.get(), rest.as_slice(), scopes)
        }
        ExprKind::Shift(of, amounts) => {
            let of = judge(alloc, of.get(), scopes)?;
            shift_of(place, &of, amounts.as_slice())
        }
    }
}

/// The shape and weight of a comparison of these two.
#[cycle(judge)]
fn judge_compare(
    alloc: Global,
    place: u32,
    left: &Expr,
    right: &Expr,
    scopes: &Scopes<'_>,
) -> Result<Judged, CheckError>
    ensures { let parts = judged left.now scopes.now ∷ judged right.now scopes.now ∷ [] in IsJudged (check.whole place shape.Word parts ((rule.NotWord, check.has_no_word parts) ∷ [])) result }
{
    let left = judge(alloc, left, scopes)?;
    let right = judge(alloc, right, scopes)?;
    word_of_both(place, &left, &right)
}

/// The shape and weight of a chain of a part and of terms.
#[cycle(judge)]
fn judge_chain(
    alloc: Global,
    place: u32,
    first: &Expr,
    rest: &[(BinOp, Expr)],
    scopes: &Scopes<'_>,
) -> Result<Judged, CheckError>
    ensures { IsJudged (judge_kind (e.Chain first.now rest.now) place scopes.now) result }
{
    let first = judge(alloc, first, scopes)?;
    let terms = judge_terms(alloc, rest, scopes)?;
    chain_of(place, &first, terms, rest.len())
}

/// The shapes of the parts of a struct, and what they weigh.
#[cycle(judge)]
fn judge_parts(alloc: Global, parts: &[Expr], scopes: &Scopes<'_>) -> Result<Parts, CheckError>
    ensures { AreParts (map (λ x. judged x scopes.now) parts.now) result }
{
    let mut shapes = List::new(alloc);
    let mut weight: u64 = 0;
    for part in parts {
        let part = judge(alloc, part, scopes)?;
        weight = weight.saturating_add(part.weight);
        shapes.push(part.shape)?;
    }
    Ok(Parts { shapes, weight })
}

/// Whether the terms of a chain are words, and what they weigh.
#[cycle(judge)]
fn judge_terms(
    alloc: Global,
    terms: &[(BinOp, Expr)],
    scopes: &Scopes<'_>,
) -> Result<Terms, CheckError>
    ensures { AreTerms (map (λ y. judged y.1 scopes.now) terms.now) result }
{
    let mut has_no_word = false;
    let mut weight: u64 = 0;
    for (_, term) in terms {
        let term = judge(alloc, term, scopes)?;
        has_no_word = has_no_word || !is_word(&term.shape);
        weight = weight.saturating_add(term.weight);
    }
    Ok(Terms {
        has_no_word,
        weight,
    })
}

/// The shapes and weights of the expressions, in their order.
pub fn judge_all(
    alloc: Global,
    exprs: &[Expr],
    scopes: &Scopes<'_>,
) -> Result<List<Judged>, CheckError>
    ensures { AreJudged (map (λ x. judged x scopes.now) exprs.now) result }
{
    let mut all = List::new(alloc);
    for expr in exprs {
        all.push(judge(alloc, expr, scopes)?)?;
    }
    Ok(all)
}
