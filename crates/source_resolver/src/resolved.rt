//! Programs whose names are resolved.
//!
//! A variable is the number of its place among the variables that are declared, the function's first being 0. A function, an
//! exception and a foreign name are their numbers in the program. Where the program has no such name there is no number.
//! Blocks are shared, so that the stack of a run can hold them.

use crate::shared::Shared;
use pan_base::{BinOp, Boxed, Cmp, List, ShOp, Size};
use pan_tree::Shape;

/// An expression.
#[derive(Drop)]
pub enum Expr {
    /// This word.
    Number(u64),
    /// The value of the variable.
    Variable(Option<usize>),
    /// A struct of these parts.
    Struct(List<Expr>),
    /// A part of a struct, by its number from 0, and a part of that, and so on.
    Field(Boxed<Expr>, List<u64>),
    /// What local memory has from an address on, read as a value of the shape.
    Load(Shape, Boxed<Expr>),
    /// The byte that local memory has at an address.
    LoadByte(Boxed<Expr>),
    /// The word with the other sign.
    Neg(Boxed<Expr>),
    /// Operators one after another, evaluated from the left.
    Chain(Boxed<Expr>, List<(BinOp, Expr)>),
    /// A word shifted by each of these amounts, one after another.
    Shift(Boxed<Expr>, List<(ShOp, u64)>),
    /// 1 where the comparison holds, else 0.
    Compare(Cmp, Boxed<Expr>, Boxed<Expr>),
}

/// Where the result of a call goes.
#[derive(Drop)]
pub enum Target {
    /// Nowhere.
    Nothing,
    /// To a variable that is declared already.
    Old(Option<usize>),
    /// To a variable of this shape that is declared here.
    New(Shape),
}

/// What catches an exception of a call: its value goes to a new variable, and the block runs.
#[derive(Drop)]
pub struct HandlerOf<B> {
    pub exception: Option<usize>,
    pub body: B,
}

/// A call of a function.
#[derive(Drop)]
pub struct CallOf<B> {
    pub into: Target,
    pub function: Option<usize>,
    pub args: List<Expr>,
    pub handler: Option<HandlerOf<B>>,
}

/// A block of statements.
pub type Block = Shared<List<Stmt>>;

/// A handler.
pub type Handler = HandlerOf<Block>;

/// A call.
pub type Call = CallOf<Block>;

/// A statement.
#[derive(Drop)]
pub enum Stmt {
    /// Does nothing.
    Skip,
    /// Declares a variable, with a value.
    Declare(Expr),
    /// Gives a variable a value.
    Assign(Option<usize>, Expr),
    /// Writes the words of a value to local memory from an address on.
    StoreWords(Expr, Expr),
    /// Writes the low byte of a word to local memory at an address.
    StoreByte(Expr, Expr),
    /// The first block where the word isn't 0, else the second.
    If(Expr, Shared<List<Stmt>>, Shared<List<Stmt>>),
    /// The block, over and over, as long as the word isn't 0.
    While(Expr, Shared<List<Stmt>>),
    /// Leaves the innermost loop.
    Break,
    /// Goes to the next turn of the innermost loop.
    Continue,
    /// Calls a function.
    Call(CallOf<Shared<List<Stmt>>>),
    /// Leaves the function with a value.
    Return(Expr),
    /// Leaves the function with the result of a call.
    TailCall(Option<usize>, List<Expr>),
    /// Leaves the function with an exception and its value.
    Raise(Option<usize>, Expr),
    /// Reads from the shared window at an address into a variable.
    SharedLoad(Size, Option<usize>, Expr),
    /// Writes to the shared window: the address, and the word whose low bytes go there.
    SharedStore(Size, Expr, Expr),
    /// Calls a foreign function with two buffers of local memory, each by its address and length: the configuration, and
    /// the array that the reply replaces.
    Foreign(Option<usize>, Expr, Expr, Expr, Expr),
}

/// A function: how many parameters it has, and its body.
#[derive(Drop)]
pub struct Function {
    pub params: usize,
    pub body: Block,
}

/// A program: its functions, and the number of `main`.
#[derive(Drop)]
pub struct Program {
    pub functions: List<Function>,
    pub main: Option<usize>,
}
