//! Expressions and statements.
//!
//! What stands between a tree and its parts (`Spanned`, `BlockOf`, `CallOf`, `HandlerOf`) is generic over the part, so that
//! each class of syntax is one recursive type.

use crate::shape::Shape;
use crate::spanned::Spanned;
use pan_base::{BinOp, Boxed, Cmp, List, ShOp, Size, Text};

/// An expression.
pub type Expr = Spanned<ExprKind>;

/// What an expression is.
#[derive(Drop)]
pub enum ExprKind {
    /// This word.
    Number(u64),
    /// The value of the variable.
    Var(Text),
    /// `@base`: where local memory begins.
    Base,
    /// `@biw`: the number of bytes in a word.
    Biw,
    /// A struct of one part or more.
    Struct(List<Expr>),
    /// A part of a struct, by its number from 0, and a part of that, and so on.
    Field(Boxed<Expr>, List<u64>),
    /// What local memory has from an address on, read as a value of the shape.
    Load(Shape, Boxed<Expr>),
    /// The byte that local memory has at an address.
    LoadByte(Boxed<Expr>),
    /// The word with the other sign.
    Neg(Boxed<Expr>),
    /// Operators of one level one after another, evaluated from the left.
    Chain(Boxed<Expr>, List<(BinOp, Expr)>),
    /// A word shifted by each of these amounts, one after another.
    Shift(Boxed<Expr>, List<(ShOp, u64)>),
    /// 1 where the comparison holds, else 0.
    Compare(Cmp, Boxed<Expr>, Boxed<Expr>),
}

/// A block of statements.
#[derive(Drop)]
pub struct BlockOf<S> {
    pub stmts: List<S>,
}

/// Where the result of a call goes.
#[derive(Drop)]
pub enum Target {
    /// Nowhere.
    Nothing,
    /// To a variable that is declared already.
    Old(Text),
    /// To a variable that is declared here.
    New(Text),
}

/// What catches an exception of a call: its value goes to a variable, and the block runs.
#[derive(Drop)]
pub struct HandlerOf<S> {
    pub exception: Text,
    pub name: Text,
    pub body: BlockOf<S>,
}

/// A call of a function.
#[derive(Drop)]
pub struct CallOf<S> {
    pub into: Target,
    pub function: Text,
    pub args: List<Expr>,
    pub handler: Option<HandlerOf<S>>,
}

/// A statement.
pub type Stmt = Spanned<StmtKind>;

/// A block of statements of the source.
pub type Block = BlockOf<Stmt>;

/// A handler of the source.
pub type Handler = HandlerOf<Stmt>;

/// A call of the source.
pub type Call = CallOf<Stmt>;

/// What a statement is.
#[derive(Drop)]
pub enum StmtKind {
    /// Does nothing.
    Skip,
    /// Declares a variable to the end of the block, with a value.
    Decl(Text, Expr),
    /// Gives a variable a value.
    Assign(Text, Expr),
    /// Writes the words of a value to local memory from an address on.
    StoreWords(Expr, Expr),
    /// Writes the low byte of a word to local memory at an address.
    StoreByte(Expr, Expr),
    /// The first block where the word isn't 0, else the second.
    If(Expr, Block, Block),
    /// The block, over and over, as long as the word isn't 0.
    While(Expr, Block),
    /// Leaves the innermost loop.
    Break,
    /// Goes to the next turn of the innermost loop.
    Continue,
    /// Calls a function.
    Call(Call),
    /// Leaves the function with a value.
    Return(Expr),
    /// Leaves the function with the result of a call.
    TailCall(Text, List<Expr>),
    /// Leaves the function with an exception and its value.
    Raise(Text, Expr),
    /// Reads from the shared window at an address into a variable.
    SharedLoad(Size, Text, Expr),
    /// Writes to the shared window: the address, and the word whose low bytes go there.
    SharedStore(Size, Expr, Expr),
    /// Calls a foreign function with two buffers of local memory, each by its address and length: the configuration, and
    /// the array that the reply replaces.
    Foreign(Text, Expr, Expr, Expr, Expr),
}
