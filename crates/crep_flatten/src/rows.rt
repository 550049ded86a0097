//! The words of a value, in rows.

ghost use Rattle.std.specs.Prelude.{◌≡◌, ◌++◌, IfOk};
ghost use Rattle.crep_flatten.specs.Flat as flat;
ghost use Rattle.crep_flatten.specs.Rows as rows_of;

use crate::few::Few;
use crep_lang::Expr;
use pan_base::{BinOp, Boxed, NoMemory};
use std::alloc::Global;

/// Words one after another.
#[derive(Drop)]
pub enum Row {
    /// Variables from one on, so many.
    Variables(u32, u32),
    /// So many words of data memory, from so many words behind an address on.
    Loads(Expr, u32, u32),
    /// One word.
    One(Expr),
}

impl Default for Row {
    /// No words.
    fn default() -> Row {
        Row::Variables(0, 0)
    }
}

/// The address so many words on.
pub fn far(alloc: Global, address: Expr, words: u32) -> Result<Expr, NoMemory>
    ensures { IfOk result (λ e. e ≡ rows_of.far address words) }
{
    if words == 0 {
        return Ok(address);
    }
    let bytes = Expr::Num(8 * words as u64);
    Ok(Expr::Bin(
        BinOp::Add,
        Boxed::new(alloc, address)?,
        Boxed::new(alloc, bytes)?,
    ))
}

/// The first word of rows, or 0 where there is none.
#[tactic(auto, using(crate::proofs::FirstWords::first_rules))]
pub fn first_word(alloc: Global, rows: Few<Row>) -> Result<Expr, NoMemory>
    ensures { IfOk result (λ e. e ≡ flat.first_of (rows_of.inlined rows)) }
{
    let mut left = rows.into_iter();
    while let Some(row) = left.next() {
        match row {
            Row::Variables(first, count) => {
                if count > 0 {
                    return Ok(Expr::Var(first));
                }
            }
            Row::Loads(address, words, count) => {
                if count > 0 {
                    let e = Expr::LoadWord(Boxed::new(alloc, far(alloc, address, words)?)?);
                    return Ok(e);
                }
            }
            Row::One(word) => return Ok(word),
        }
    }
    Ok(Expr::Num(0))
}

impl Row {
    /// How many words there are.
    pub fn size(&self) -> u32
        ensures { result ≡ rows_of.row_size self.now }
    {
        match self {
            Row::Variables(_, count) => *count,
            Row::Loads(_, _, count) => *count,
            Row::One(_) => 1,
        }
    }
}

/// So many words of a row, behind so many others, come behind some rows.
fn push_part(kept: &mut Few<Row>, row: Row, skip: u32, count: u32) -> Result<(), NoMemory>
    ensures { IfOk result (λ _. kept.new ≡ kept.old ++ rows_of.cut_row skip count row) }
{
    match row {
        Row::Variables(first, size) => {
            let Some(first) = first.checked_add(skip) else {
                return Err(NoMemory);
            };
            kept.push(Row::Variables(first, count.min(size.saturating_sub(skip))))?;
            Ok(())
        }
        Row::Loads(address, words, size) => {
            let Some(words) = words.checked_add(skip) else {
                return Err(NoMemory);
            };
            kept.push(Row::Loads(address, words, count.min(size.saturating_sub(skip))))?;
            Ok(())
        }
        Row::One(word) => {
            if skip == 0 && count > 0 {
                kept.push(Row::One(word))?;
            }
            Ok(())
        }
    }
}

/// Of rows so many words behind so many others.
pub fn cut(alloc: Global, rows: Few<Row>, skip: u32, count: u32) -> Result<Few<Row>, NoMemory>
    ensures { IfOk result (λ rs. rs ≡ rows_of.cut_rows skip count rows) }
{
    let mut kept = Few::new(alloc);
    let mut before = skip;
    let mut wanted = count;
    let mut left = rows.into_iter();
    while let Some(row) = left.next() {
        let size = row.size();
        push_part(&mut kept, row, before, wanted)?;
        wanted = wanted.saturating_sub(size.saturating_sub(before));
        before = before.saturating_sub(size);
    }
    Ok(kept)
}
