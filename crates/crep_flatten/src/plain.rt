//! Statements without blocks, in words.

ghost use Rattle.std.specs.Prelude.{◌≡◌, ◌+◌, [], ◌∷◌, ◌++◌, true, map, IfOk, OnOk};
ghost use Rattle.std.specs.List.{list_all};
ghost use Rattle.pan_tree.specs.Scopes.{innermost, declare};
ghost use Rattle.pan_tree.specs.Shapes.{words_of};
ghost use Rattle.pan_tree.specs.Meaning.{function_index, exception_index, foreign_index};
ghost use Rattle.crep_lang.specs.declared.syntax.Stmt.TheVariants as stmt;
ghost use Rattle.crep_flatten.specs.Flat.{count, flat, word_in};
ghost use Rattle.crep_flatten.specs.Rows as rows_of;
ghost use Rattle.crep_flatten.specs.Flattened as flattened;
ghost use Rattle.crep_flatten.specs.Literals.{fits};

use crate::exprs::{Flat, flatten_expr, flatten_rows, flatten_word};
use crate::moving::{assigned, push_assigns, stored};
use crate::scopes::Scopes;
use crate::settling::{Settled, settle};
use crate::shaping::size;
use crate::targets::{first_word_of, number_of};
use crep_lang::Stmt;
use pan_base::{List, NoMemory, Size};
use pan_tree::Expr;
use source_resolver::Directory;
use std::alloc::Global;

/// The words of two expressions.
fn two_words(
    alloc: Global,
    first: &Expr,
    second: &Expr,
    here: &Scopes<'_>,
) -> Result<(crep_lang::Expr, crep_lang::Expr), NoMemory>
    ensures words { IfOk result (λ w. w ≡ (word_in (flat first.now here.now), word_in (flat second.now here.now))) }
    ensures first_fits { IfOk result (λ _. fits first.now ≡ true) }
    ensures second_fits { IfOk result (λ _. fits second.now ≡ true) }
{
    let first = flatten_word(alloc, first, here)?;
    let second = flatten_word(alloc, second, here)?;
    Ok((first, second))
}

/// A statement behind others.
pub fn behind(before: List<Stmt>, last: Stmt) -> Result<Stmt, NoMemory>
    ensures { IfOk result (λ s. s ≡ stmt.Seq (before ++ last ∷ [])) }
{
    let mut stmts = before;
    stmts.push(last)?;
    Ok(Stmt::Seq(stmts))
}

/// Declares a variable, whose words get those of a value.
pub fn flatten_decl<'p>(
    alloc: Global,
    name: &'p [u8],
    value: &Expr,
    here: &mut Scopes<'p>,
) -> Result<Stmt, NoMemory>
    ensures stmt { IfOk result (λ s. let f = flat value.now here.old in let g = rows_of.settle f.rows (count here.old + words_of f.shape) in s ≡ stmt.Seq (g.before ++ flattened.assign_row (count here.old) g.words)) }
    ensures after { OnOk result (here.new ≡ declare name.now (flattened.new_place (flat value.now here.old).shape here.old) here.old) }
    ensures fits { IfOk result (λ _. fits value.now ≡ true) }
{
    let Flat { shape, rows } = flatten_expr(alloc, value, here)?;
    let first = here.count();
    let Some(free) = first.checked_add(size(&shape)?) else {
        return Err(NoMemory);
    };
    let Settled {
        before: mut stmts,
        words,
        next: _,
    } = settle(alloc, rows, free)?;
    push_assigns(alloc, &mut stmts, first, words)?;
    here.declare(name, shape)?;
    Ok(Stmt::Seq(stmts))
}

/// Gives a variable a value.
pub fn flatten_assign(
    alloc: Global,
    name: &[u8],
    value: &Expr,
    here: &Scopes<'_>,
) -> Result<Stmt, NoMemory>
    ensures stmt { IfOk result (λ s. s ≡ stmt.Seq (flattened.assigned (flattened.place_at (innermost name.now here.now)).first (flat value.now here.now).rows (count here.now))) }
    ensures fits { IfOk result (λ _. fits value.now ≡ true) }
{
    let Flat { shape: _, rows } = flatten_expr(alloc, value, here)?;
    let stmts = assigned(alloc, first_word_of(name, here), rows, here.count())?;
    Ok(Stmt::Seq(stmts))
}

/// Writes the words of a value to local memory from an address on.
pub fn flatten_store_words(
    alloc: Global,
    address: &Expr,
    value: &Expr,
    here: &Scopes<'_>,
) -> Result<Stmt, NoMemory>
    ensures stmt { IfOk result (λ s. s ≡ stmt.Seq (flattened.stored (word_in (flat address.now here.now)) (flat value.now here.now).rows (count here.now))) }
    ensures address_fits { IfOk result (λ _. fits address.now ≡ true) }
    ensures value_fits { IfOk result (λ _. fits value.now ≡ true) }
{
    let address = flatten_word(alloc, address, here)?;
    let Flat { shape: _, rows } = flatten_expr(alloc, value, here)?;
    let stmts = stored(alloc, address, rows, here.count())?;
    Ok(Stmt::Seq(stmts))
}

/// Writes the low byte of a word to local memory at an address.
pub fn flatten_store_byte(
    alloc: Global,
    address: &Expr,
    value: &Expr,
    here: &Scopes<'_>,
) -> Result<Stmt, NoMemory>
    ensures stmt { IfOk result (λ s. s ≡ stmt.StoreByte (word_in (flat address.now here.now)) (word_in (flat value.now here.now))) }
    ensures address_fits { IfOk result (λ _. fits address.now ≡ true) }
    ensures value_fits { IfOk result (λ _. fits value.now ≡ true) }
{
    let (address, value) = two_words(alloc, address, value, here)?;
    Ok(Stmt::StoreByte(address, value))
}

/// A value with its words behind the statements that compute addresses once.
fn settled_value(alloc: Global, value: &Expr, here: &Scopes<'_>) -> Result<Settled, NoMemory>
    ensures before { IfOk result (λ g. g.before ≡ (rows_of.settle (flat value.now here.now).rows (count here.now)).before) }
    ensures words { IfOk result (λ g. g.words ≡ (rows_of.settle (flat value.now here.now).rows (count here.now)).words) }
    ensures fits { IfOk result (λ _. fits value.now ≡ true) }
{
    let Flat { shape: _, rows } = flatten_expr(alloc, value, here)?;
    settle(alloc, rows, here.count())
}

/// The arguments of a call, with their words behind the statements that compute addresses once.
pub fn settled_args(alloc: Global, args: &[Expr], here: &Scopes<'_>) -> Result<Settled, NoMemory>
    ensures before { IfOk result (λ g. g.before ≡ (rows_of.settle (flattened.rows_of (map (λ v. flat v here.now) args.now)) (count here.now)).before) }
    ensures words { IfOk result (λ g. g.words ≡ (rows_of.settle (flattened.rows_of (map (λ v. flat v here.now) args.now)) (count here.now)).words) }
    ensures fits { IfOk result (λ _. list_all fits args.now ≡ true) }
{
    let rows = flatten_rows(alloc, args, here)?;
    settle(alloc, rows, here.count())
}

/// Leaves the function with a value.
pub fn flatten_return(alloc: Global, value: &Expr, here: &Scopes<'_>) -> Result<Stmt, NoMemory>
    ensures stmt { IfOk result (λ s. let g = rows_of.settle (flat value.now here.now).rows (count here.now) in s ≡ stmt.Seq (g.before ++ stmt.Return g.words ∷ [])) }
    ensures fits { IfOk result (λ _. fits value.now ≡ true) }
{
    let value = settled_value(alloc, value, here)?;
    behind(value.before, Stmt::Return(value.words))
}

/// Leaves the function with an exception and its value.
pub fn flatten_raise(
    alloc: Global,
    directory: &Directory<'_>,
    exception: &[u8],
    value: &Expr,
    here: &Scopes<'_>,
) -> Result<Stmt, NoMemory>
    ensures stmt { IfOk result (λ s. let g = rows_of.settle (flat value.now here.now).rows (count here.now) in s ≡ stmt.Seq (g.before ++ stmt.Raise (flattened.numbered (exception_index exception.now directory.now)) g.words ∷ [])) }
    ensures fits { IfOk result (λ _. fits value.now ≡ true) }
{
    let exception = number_of(directory.exception(exception))?;
    let value = settled_value(alloc, value, here)?;
    behind(value.before, Stmt::Raise(exception, value.words))
}

/// Leaves the function with the result of a call.
pub fn flatten_tail_call(
    alloc: Global,
    directory: &Directory<'_>,
    function: &[u8],
    args: &[Expr],
    here: &Scopes<'_>,
) -> Result<Stmt, NoMemory>
    ensures stmt { IfOk result (λ s. let g = rows_of.settle (flattened.rows_of (map (λ v. flat v here.now) args.now)) (count here.now) in s ≡ stmt.Seq (g.before ++ stmt.TailCall (flattened.numbered (function_index function.now directory.now)) g.words ∷ [])) }
    ensures fits { IfOk result (λ _. list_all fits args.now ≡ true) }
{
    let function = number_of(directory.function(function))?;
    let args = settled_args(alloc, args, here)?;
    let call = Stmt::TailCall {
        function,
        args: args.words,
    };
    behind(args.before, call)
}

/// Reads from the shared window at an address into a variable.
pub fn flatten_shared_load(
    alloc: Global,
    size: Size,
    name: &[u8],
    address: &Expr,
    here: &Scopes<'_>,
) -> Result<Stmt, NoMemory>
    ensures stmt { IfOk result (λ s. s ≡ stmt.SharedLoad size (flattened.place_at (innermost name.now here.now)).first (word_in (flat address.now here.now))) }
    ensures fits { IfOk result (λ _. fits address.now ≡ true) }
{
    let address = flatten_word(alloc, address, here)?;
    Ok(Stmt::SharedLoad(size, first_word_of(name, here), address))
}

/// Writes to the shared window: the address, and the word whose low bytes go there.
pub fn flatten_shared_store(
    alloc: Global,
    size: Size,
    address: &Expr,
    value: &Expr,
    here: &Scopes<'_>,
) -> Result<Stmt, NoMemory>
    ensures stmt { IfOk result (λ s. s ≡ stmt.SharedStore size (word_in (flat address.now here.now)) (word_in (flat value.now here.now))) }
    ensures address_fits { IfOk result (λ _. fits address.now ≡ true) }
    ensures value_fits { IfOk result (λ _. fits value.now ≡ true) }
{
    let (address, value) = two_words(alloc, address, value, here)?;
    Ok(Stmt::SharedStore(size, address, value))
}

/// Calls a foreign function with two buffers, each by its address and length.
pub fn flatten_foreign(
    alloc: Global,
    function: u32,
    config: &Expr,
    config_len: &Expr,
    array: &Expr,
    array_len: &Expr,
    here: &Scopes<'_>,
) -> Result<Stmt, NoMemory>
    ensures stmt { IfOk result (λ s. s ≡ stmt.Foreign function (word_in (flat config.now here.now)) (word_in (flat config_len.now here.now)) (word_in (flat array.now here.now)) (word_in (flat array_len.now here.now))) }
    ensures config_fits { IfOk result (λ _. fits config.now ≡ true) }
    ensures config_len_fits { IfOk result (λ _. fits config_len.now ≡ true) }
    ensures array_fits { IfOk result (λ _. fits array.now ≡ true) }
    ensures array_len_fits { IfOk result (λ _. fits array_len.now ≡ true) }
{
    let (config, config_len) = two_words(alloc, config, config_len, here)?;
    let (array, array_len) = two_words(alloc, array, array_len, here)?;
    Ok(Stmt::Foreign(function, config, config_len, array, array_len))
}
