//! Statements without blocks.

ghost use Rattle.std.specs.Prelude.{◌≡◌, ◌-◌, ◌^◌, min, not, map, [], ◌∷◌, option_map};
ghost use Rattle.std.specs.Option.{option_copied};
ghost use Rattle.pan_tree.specs.declared.syntax.StmtKind.TheOpen as stmt;
ghost use Rattle.pan_tree.specs.Shapes.{words_of, is_word};
ghost use Rattle.pan_tree.specs.Check.{or_word, is_other, exception_of, judged};
ghost use Rattle.pan_tree.specs.declared.program.Exception.{Exception};
ghost use Rattle.pan_shapes.specs.Doings.{Does, IsDone, condition_alone, state};
ghost use Rattle.pan_shapes.specs.Pairs.{AreWords};

use crate::error::CheckError;
use crate::heads::Heads;
use crate::judging::judge;
use crate::refusals::refuse;
use crate::scopes::Scopes;
use crate::walking::{Around, Walk};
use pan_base::{Size, Text};
use pan_tree::{Expr, Rule, Shape, count_words, is_word, same};
use std::alloc::Global;

/// What a statement weighs alone.
pub const STMT_WEIGHT: u64 = 4;

/// The greatest number of bytes of a foreign name.
const MAX_NAME_LEN: usize = 64;

/// The greatest number of foreign names.
const MAX_NAMES: usize = 1024;

/// The number of words of the shape, where an unknown variable counts as a word, or 2^64 - 1 where that is less.
pub fn words_of_known(known: Option<&Shape>) -> u64
    ensures { result ≡ min (words_of (or_word (option_copied known.entry))) (2 ^ 64 - 1) }
{
    match known {
        None => 1,
        Some(shape) => count_words(shape),
    }
}

/// Whether there is a shape here, and it is another.
pub fn is_other(known: Option<&Shape>, shape: &Shape) -> bool
    ensures { result ≡ is_other (option_copied known.entry) shape.now }
{
    match known {
        None => false,
        Some(known) => !same(known, shape),
    }
}

/// Whether the shape isn't one word, where an unknown variable counts as a word.
fn is_no_word(known: Option<&Shape>) -> bool
    ensures { result ≡ not (is_word (or_word (option_copied known.entry))) }
{
    match known {
        None => false,
        Some(known) => !is_word(known),
    }
}

/// Declares a variable.
pub fn check_decl<'p>(
    around: &Around<'_>,
    place: u32,
    name: &'p Text,
    value: &Expr,
    walk: &mut Walk<'p>,
) -> Result<u64, CheckError>
    ensures { Does (stmt.Decl name.now value.now) around.now place walk.old walk.new result }
{
    let value = judge(around.alloc, value, &walk.scopes)?;
    let is_twice = walk.scopes.is_declared(name.as_bytes());
    refuse(place, &[(Rule::TwoNames, is_twice)])?;
    let weight = STMT_WEIGHT
        .saturating_add(value.weight)
        .saturating_add(count_words(&value.shape));
    walk.scopes.declare(name.as_bytes(), value.shape)?;
    Ok(weight)
}

/// Gives a variable a value.
pub fn check_assign(
    around: &Around<'_>,
    place: u32,
    name: &Text,
    value: &Expr,
    walk: &Walk<'_>,
) -> Result<u64, CheckError>
    ensures { Does (stmt.Assign name.now value.now) around.now place walk.now walk.now result }
{
    let value = judge(around.alloc, value, &walk.scopes)?;
    let known = walk.scopes.shape(name.as_bytes());
    let is_unknown = known.is_none();
    let is_other = is_other(known, &value.shape);
    refuse(
        place,
        &[
            (Rule::UnknownName, is_unknown),
            (Rule::WrongShape, is_other),
        ],
    )?;
    Ok(
        STMT_WEIGHT
            .saturating_add(value.weight)
            .saturating_add(words_of_known(known)),
    )
}

/// Writes the words of a value to local memory.
pub fn check_store_words(
    around: &Around<'_>,
    place: u32,
    address: &Expr,
    value: &Expr,
    walk: &Walk<'_>,
) -> Result<u64, CheckError>
    ensures { Does (stmt.StoreWords address.now value.now) around.now place walk.now walk.now result }
{
    let address = judge(around.alloc, address, &walk.scopes)?;
    let value = judge(around.alloc, value, &walk.scopes)?;
    let is_no_word = !is_word(&address.shape);
    refuse(place, &[(Rule::NotWord, is_no_word)])?;
    Ok(
        STMT_WEIGHT
            .saturating_add(address.weight)
            .saturating_add(value.weight),
    )
}

/// What words are told of together.
#[derive(Drop)]
struct Words {
    /// What they weigh, or 2^64 - 1 where that is less.
    weight: u64,
    /// Whether one of them is no word.
    has_no_word: bool,
}

/// The weight of two expressions, and whether one is no word.
fn judge_two(
    alloc: Global,
    first: &Expr,
    second: &Expr,
    scopes: &Scopes<'_>,
) -> Result<Words, CheckError>
    ensures { AreWords (judged first.now scopes.now ∷ judged second.now scopes.now ∷ []) result }
{
    let first = judge(alloc, first, scopes)?;
    let second = judge(alloc, second, scopes)?;
    let has_no_word = !is_word(&first.shape) || !is_word(&second.shape);
    let weight = first.weight.saturating_add(second.weight);
    Ok(Words {
        weight,
        has_no_word,
    })
}

/// The weight of the words of two buffers, and whether one is no word.
fn judge_buffers(
    alloc: Global,
    config: (&Expr, &Expr),
    array: (&Expr, &Expr),
    scopes: &Scopes<'_>,
) -> Result<Words, CheckError>
    ensures { AreWords (map (λ y. judged y scopes.now) (config.entry.0.now ∷ config.entry.1.now ∷ array.entry.0.now ∷ array.entry.1.now ∷ [])) result }
{
    let config = judge_two(alloc, config.0, config.1, scopes)?;
    let array = judge_two(alloc, array.0, array.1, scopes)?;
    let has_no_word = config.has_no_word || array.has_no_word;
    let weight = config.weight.saturating_add(array.weight);
    Ok(Words {
        weight,
        has_no_word,
    })
}

/// Takes two words, as the stores of a byte and of shared memory do.
pub fn check_two_words(
    around: &Around<'_>,
    place: u32,
    address: &Expr,
    value: &Expr,
    walk: &Walk<'_>,
) -> Result<u64, CheckError>
    ensures { Does (stmt.StoreByte address.now value.now) around.now place walk.now walk.now result }
{
    let words = judge_two(around.alloc, address, value, &walk.scopes)?;
    refuse(place, &[(Rule::NotWord, words.has_no_word)])?;
    Ok(STMT_WEIGHT.saturating_add(words.weight))
}

/// Calls a foreign function with two buffers, each by its address and its length.
pub fn check_foreign<'p>(
    around: &Around<'_>,
    place: u32,
    name: &'p Text,
    config: (&Expr, &Expr),
    array: (&Expr, &Expr),
    walk: &mut Walk<'p>,
) -> Result<u64, CheckError>
    ensures { Does (stmt.Foreign name.now config.entry.0.now config.entry.1.now array.entry.0.now array.entry.1.now) around.now place walk.old walk.new result }
{
    let words = judge_buffers(around.alloc, config, array, &walk.scopes)?;
    let name = name.as_bytes();
    walk.names.add(name)?;
    let is_too_many = name.len() > MAX_NAME_LEN || walk.names.len() > MAX_NAMES;
    refuse(
        place,
        &[
            (Rule::NotWord, words.has_no_word),
            (Rule::TooMany, is_too_many),
        ],
    )?;
    Ok(STMT_WEIGHT.saturating_add(words.weight))
}

/// Asks for a word, as `if` and `while` do before their blocks.
pub fn check_condition(
    around: &Around<'_>,
    place: u32,
    condition: &Expr,
    walk: &Walk<'_>,
) -> Result<u64, CheckError>
    ensures { IsDone (condition_alone condition.now place (state walk.now)) walk.now result }
{
    let condition = judge(around.alloc, condition, &walk.scopes)?;
    let is_no_word = !is_word(&condition.shape);
    refuse(place, &[(Rule::NotWord, is_no_word)])?;
    Ok(STMT_WEIGHT.saturating_add(condition.weight))
}

/// Leaves a loop, or its turn.
pub fn check_leave(around: &Around<'_>, place: u32, walk: &Walk<'_>) -> Result<u64, CheckError>
    ensures { Does stmt.Break around.now place walk.now walk.now result }
{
    let is_outside = !around.in_loop;
    refuse(place, &[(Rule::LoopOutside, is_outside)])?;
    Ok(STMT_WEIGHT)
}

/// Leaves the function with a value.
pub fn check_return(
    around: &Around<'_>,
    place: u32,
    value: &Expr,
    walk: &Walk<'_>,
) -> Result<u64, CheckError>
    ensures { Does (stmt.Return value.now) around.now place walk.now walk.now result }
{
    let value = judge(around.alloc, value, &walk.scopes)?;
    let is_wrong = !same(around.result, &value.shape);
    refuse(place, &[(Rule::WrongShape, is_wrong)])?;
    Ok(STMT_WEIGHT.saturating_add(value.weight))
}

/// Leaves the function with an exception.
pub fn check_raise(
    around: &Around<'_>,
    place: u32,
    exception: &Text,
    value: &Expr,
    walk: &Walk<'_>,
) -> Result<u64, CheckError>
    ensures { Does (stmt.Raise exception.now value.now) around.now place walk.now walk.now result }
{
    let value = judge(around.alloc, value, &walk.scopes)?;
    let known = shape_of_exception(around.heads, exception);
    let is_unknown = known.is_none();
    let is_other = is_other(known, &value.shape);
    refuse(
        place,
        &[
            (Rule::UnknownException, is_unknown),
            (Rule::WrongShape, is_other),
        ],
    )?;
    Ok(STMT_WEIGHT.saturating_add(value.weight))
}

/// The shape of the exception's value.
pub fn shape_of_exception<'a>(heads: &'a Heads<'a>, name: &Text) -> Option<&'a Shape>
    ensures { option_copied result ≡ option_map (λ (x : Exception). x.shape) (exception_of name.now heads.now) }
{
    match heads.exception(name.as_bytes()) {
        None => None,
        Some(exception) => Some(&exception.shape),
    }
}

/// Reads from the shared window into a variable.
pub fn check_shared_load(
    around: &Around<'_>,
    place: u32,
    size: Size,
    name: &Text,
    address: &Expr,
    walk: &Walk<'_>,
) -> Result<u64, CheckError>
    ensures { Does (stmt.SharedLoad size name.now address.now) around.now place walk.now walk.now result }
{
    let address = judge(around.alloc, address, &walk.scopes)?;
    let known = walk.scopes.shape(name.as_bytes());
    let is_unknown = known.is_none();
    let is_wide = is_no_word(known);
    let is_no_word = !is_word(&address.shape);
    refuse(
        place,
        &[
            (Rule::UnknownName, is_unknown),
            (Rule::WrongShape, is_wide),
            (Rule::NotWord, is_no_word),
        ],
    )?;
    Ok(
        STMT_WEIGHT
            .saturating_add(address.weight)
            .saturating_add(words_of_known(known)),
    )
}
