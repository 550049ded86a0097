//! The operations of operators, comparisons and shifts.

ghost use Rattle.std.specs.Prelude.{◌≡◌, [], ◌∷◌, IfOk};
ghost use Rattle.word_select.specs.Facts.{number_at};
ghost use Rattle.word_select.specs.Selected as selected;

use crate::facts::{Fact, Known, forgotten, learned, number_at};
use crate::immediates::{exponent_at, immediate_at, negated, negated_at};
use pan_base::{BinOp, Cmp, IOp, List, NoMemory, ROp, ShOp, ShiftOp, single};
use std::alloc::Global;
use word_lang::Stmt;

// ---- one operation

/// With an immediate on the right, or with two variables.
fn right_side(i: IOp, r: ROp, x: u32, a: u32, b: u32, known: &[Known]) -> Stmt
    ensures { result ≡ selected.right_side i r x a b known.now }
{
    match immediate_at(known, b) {
        Some(n) => Stmt::Imm(i, x, a, n),
        None => Stmt::Reg(r, x, a, b),
    }
}

/// With an immediate on either side, or with two variables.
fn either_side(i: IOp, r: ROp, x: u32, a: u32, b: u32, known: &[Known]) -> Stmt
    ensures { result ≡ selected.either_side i r x a b known.now }
{
    match immediate_at(known, b) {
        Some(n) => Stmt::Imm(i, x, a, n),
        None => right_side(i, r, x, b, a, known),
    }
}

fn difference(x: u32, a: u32, b: u32, known: &[Known]) -> Stmt
    ensures { result ≡ selected.difference x a b known.now }
{
    match negated_at(known, b) {
        Some(n) => Stmt::Imm(IOp::Addi, x, a, n),
        None => Stmt::Reg(ROp::Sub, x, a, b),
    }
}

fn right_product(x: u32, a: u32, b: u32, known: &[Known]) -> Stmt
    ensures { result ≡ selected.right_product x a b known.now }
{
    match exponent_at(known, b) {
        Some(n) => Stmt::Sh(ShiftOp::Slli, x, a, n),
        None => Stmt::Reg(ROp::Mul, x, a, b),
    }
}

fn product(x: u32, a: u32, b: u32, known: &[Known]) -> Stmt
    ensures { result ≡ selected.product x a b known.now }
{
    match exponent_at(known, b) {
        Some(n) => Stmt::Sh(ShiftOp::Slli, x, a, n),
        None => right_product(x, b, a, known),
    }
}

/// What an operator of two variables becomes.
pub fn operation(op: BinOp, x: u32, a: u32, b: u32, known: &[Known]) -> Stmt
    ensures { result ≡ selected.operation op x a b known.now }
{
    match op {
        BinOp::Add => either_side(IOp::Addi, ROp::Add, x, a, b, known),
        BinOp::Sub => difference(x, a, b, known),
        BinOp::Mul => product(x, a, b, known),
        BinOp::And => either_side(IOp::Andi, ROp::And, x, a, b, known),
        BinOp::Or => either_side(IOp::Ori, ROp::Or, x, a, b, known),
        BinOp::Xor => either_side(IOp::Xori, ROp::Xor, x, a, b, known),
    }
}

// ---- what is then known

fn right_sum(
    alloc: Global,
    x: u32,
    a: u32,
    b: u32,
    known: &[Known],
) -> Result<List<Known>, NoMemory>
    ensures { IfOk result (λ ps. ps ≡ selected.right_sum x a b known.now) }
{
    match number_at(known, b) {
        Some(c) => learned(alloc, x, Fact::Sum(a, c), known),
        None => forgotten(alloc, x, known),
    }
}

fn sum(alloc: Global, x: u32, a: u32, b: u32, known: &[Known]) -> Result<List<Known>, NoMemory>
    ensures { IfOk result (λ ps. ps ≡ selected.sum_facts x a b known.now) }
{
    match number_at(known, b) {
        Some(c) => learned(alloc, x, Fact::Sum(a, c), known),
        None => right_sum(alloc, x, b, a, known),
    }
}

fn difference_known(
    alloc: Global,
    x: u32,
    a: u32,
    b: u32,
    known: &[Known],
) -> Result<List<Known>, NoMemory>
    ensures { IfOk result (λ ps. ps ≡ selected.difference_facts x a b known.now) }
{
    match number_at(known, b) {
        Some(c) => learned(alloc, x, Fact::Sum(a, negated(c)), known),
        None => forgotten(alloc, x, known),
    }
}

/// What is known once an operator of two variables has given a third its word.
pub fn operation_known(
    alloc: Global,
    op: BinOp,
    x: u32,
    a: u32,
    b: u32,
    known: &[Known],
) -> Result<List<Known>, NoMemory>
    ensures { IfOk result (λ ps. ps ≡ selected.operation_facts op x a b known.now) }
{
    match op {
        BinOp::Add => sum(alloc, x, a, b, known),
        BinOp::Sub => difference_known(alloc, x, a, b, known),
        _ => forgotten(alloc, x, known),
    }
}

// ---- operations one after another

fn two(alloc: Global, first: Stmt, second: Stmt) -> Result<List<Stmt>, NoMemory>
    ensures { IfOk result (λ ss. ss ≡ first ∷ second ∷ []) }
{
    let mut stmts = single(alloc, first)?;
    stmts.push(second)?;
    Ok(stmts)
}

fn three(alloc: Global, first: Stmt, second: Stmt, third: Stmt) -> Result<List<Stmt>, NoMemory>
    ensures { IfOk result (λ ss. ss ≡ first ∷ second ∷ third ∷ []) }
{
    let mut stmts = two(alloc, first, second)?;
    stmts.push(third)?;
    Ok(stmts)
}

/// 1 in place of 0, and 0 in place of another number.
fn is_zero(x: u32) -> Stmt
    ensures { result ≡ selected.is_zero x }
{
    Stmt::Imm(IOp::Sltiu, x, x, 1)
}

/// 1 in place of 0, and 0 in place of 1.
fn turned(x: u32) -> Stmt
    ensures { result ≡ selected.turned x }
{
    Stmt::Imm(IOp::Xori, x, x, 1)
}

/// Whether two variables are the same.
fn equal(alloc: Global, x: u32, a: u32, b: u32, known: &[Known]) -> Result<List<Stmt>, NoMemory>
    ensures { IfOk result (λ ss. ss ≡ selected.equal_by (number_at b known.now) x a b known.now []) }
{
    match number_at(known, b) {
        Some(0) => Ok(single(alloc, Stmt::Imm(IOp::Sltiu, x, a, 1))?),
        _ => two(
            alloc,
            either_side(IOp::Xori, ROp::Xor, x, a, b, known),
            is_zero(x),
        ),
    }
}

/// Whether two variables differ.
fn differ(alloc: Global, x: u32, a: u32, b: u32, known: &[Known]) -> Result<List<Stmt>, NoMemory>
    ensures { IfOk result (λ ss. ss ≡ selected.equal_by (number_at b known.now) x a b known.now (selected.turned x ∷ [])) }
{
    let mut stmts = equal(alloc, x, a, b, known)?;
    stmts.push(turned(x))?;
    Ok(stmts)
}

/// What the comparison of two variables becomes as a value.
pub fn comparison(
    alloc: Global,
    op: Cmp,
    x: u32,
    a: u32,
    b: u32,
    known: &[Known],
) -> Result<List<Stmt>, NoMemory>
    ensures { IfOk result (λ ss. ss ≡ selected.comparison op x a b known.now) }
{
    let less = right_side(IOp::Slti, ROp::Slt, x, a, b, known);
    let below = right_side(IOp::Sltiu, ROp::Sltu, x, a, b, known);
    match op {
        Cmp::Eq => equal(alloc, x, a, b, known),
        Cmp::Ne => differ(alloc, x, a, b, known),
        Cmp::Lt => single(alloc, less),
        Cmp::Ge => two(alloc, less, turned(x)),
        Cmp::Ltu => single(alloc, below),
        Cmp::Geu => two(alloc, below, turned(x)),
    }
}

/// What a rotation to the right becomes: by 0 a move, else two shifts, the one into the variable that is free, and an OR.
fn rotation(alloc: Global, free: u32, x: u32, a: u32, amount: u8) -> Result<List<Stmt>, NoMemory>
    ensures { IfOk result (λ ss. ss ≡ selected.rotation_steps free x a amount) }
{
    if amount == 0 {
        Ok(single(alloc, Stmt::Imm(IOp::Ori, x, a, 0))?)
    } else {
        let low = Stmt::Sh(ShiftOp::Srli, free, a, amount);
        let high = Stmt::Sh(ShiftOp::Slli, x, a, 64u8.saturating_sub(amount));
        three(alloc, low, high, Stmt::Reg(ROp::Or, x, free, x))
    }
}

/// What a shift becomes, with a variable that is free for the other half of a word that is rotated.
pub fn shift(
    alloc: Global,
    free: u32,
    op: ShOp,
    x: u32,
    a: u32,
    amount: u8,
) -> Result<List<Stmt>, NoMemory>
    ensures { IfOk result (λ ss. ss ≡ selected.shift_steps free op x a amount) }
{
    match op {
        ShOp::Shl => single(alloc, Stmt::Sh(ShiftOp::Slli, x, a, amount)),
        ShOp::Shr => single(alloc, Stmt::Sh(ShiftOp::Srli, x, a, amount)),
        ShOp::Sar => single(alloc, Stmt::Sh(ShiftOp::Srai, x, a, amount)),
        ShOp::Ror => rotation(alloc, free, x, a, amount),
    }
}
