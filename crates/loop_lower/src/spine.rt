//! Expressions from the first word that they compute outwards, so that a long chain of operators is followed in a loop.

ghost use Rattle.std.specs.Prelude.{◌≡◌, IfOk};
ghost use Rattle.loop_lower.specs.Spine.{layer_expr, spine_expr};

use crep_lang::Expr;
use pan_base::{BinOp, Cmp, List, NoMemory, ShOp};
use std::alloc::Global;

/// An expression without operands.
#[derive(Clone, Copy, Drop)]
pub enum Leaf {
    Num(u64),
    Var(u32),
}

/// An operator of one operand.
#[derive(Clone, Copy, Drop)]
pub enum Unary {
    LoadWord,
    LoadByte,
    /// By an amount, below 64.
    Shift(ShOp, u8),
}

/// An operator of two.
#[derive(Clone, Copy, Drop)]
pub enum Binary {
    Bin(BinOp),
    Compare(Cmp),
}

/// What is done with the word of a first operand.
#[derive(Clone, Copy, Drop)]
pub enum Operation<'a> {
    Unary(Unary),
    /// With its second operand.
    Binary(Binary, &'a Expr),
}

/// The outermost part of an expression.
#[derive(Clone, Copy, Drop)]
pub enum Layer<'a> {
    Leaf(Leaf),
    /// A first operand, and what is done with its word.
    Operation(&'a Expr, Operation<'a>),
}

/// An expression: its first word, and what is done with that, the last operation first.
#[derive(Drop)]
pub struct Spine<'a> {
    pub leaf: Leaf,
    pub operations: List<Operation<'a>>,
}

/// Takes the outermost part off.
fn layer_of(expr: &Expr) -> Layer<'_>
    ensures { layer_expr result ≡ expr.now }
{
    match expr {
        Expr::Num(number) => Layer::Leaf(Leaf::Num(*number)),
        Expr::Var(variable) => Layer::Leaf(Leaf::Var(*variable)),
        Expr::LoadWord(address) => {
            Layer::Operation(address.get(), Operation::Unary(Unary::LoadWord))
        }
        Expr::LoadByte(address) => {
            Layer::Operation(address.get(), Operation::Unary(Unary::LoadByte))
        }
        Expr::Bin(operator, first, second) => Layer::Operation(
            first.get(),
            Operation::Binary(Binary::Bin(*operator), second.get()),
        ),
        Expr::Shift(operator, of, amount) => Layer::Operation(
            of.get(),
            Operation::Unary(Unary::Shift(*operator, *amount)),
        ),
        Expr::Compare(comparison, first, second) => Layer::Operation(
            first.get(),
            Operation::Binary(Binary::Compare(*comparison), second.get()),
        ),
    }
}

/// Follows the first operands of an expression down to the innermost one.
#[tactic(auto, using(crate::proofs::Spines::applied_first))]
pub fn spine_of(alloc: Global, expr: &Expr) -> Result<Spine<'_>, NoMemory>
    ensures { IfOk result (λ s. spine_expr s ≡ expr.now) }
{
    let mut operations = List::new(alloc);
    let mut rest = expr;
    'operands: loop {
        match layer_of(rest) {
            Layer::Leaf(leaf) => return Ok(Spine { leaf, operations }),
            Layer::Operation(first, operation) => {
                operations.push(operation)?;
                rest = first;
            }
        }
    }
}
