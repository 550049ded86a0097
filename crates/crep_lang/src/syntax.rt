//! Expressions, statements and functions.

use pan_base::{BinOp, Blob, Boxed, Cmp, List, ShOp, Size};
use pan_stage::Handler;

/// An expression, which gives a word.
#[derive(Drop)]
pub enum Expr {
    /// This word.
    Num(u64),
    /// The word of the variable.
    Var(u32),
    /// The word of data memory at an address.
    LoadWord(Boxed<Expr>),
    /// The byte of data memory at an address.
    LoadByte(Boxed<Expr>),
    /// What an operator makes of two words.
    Bin(BinOp, Boxed<Expr>, Boxed<Expr>),
    /// A word shifted by an amount, below 64.
    Shift(ShOp, Boxed<Expr>, u8),
    /// 1 where the comparison holds, else 0.
    Compare(Cmp, Boxed<Expr>, Boxed<Expr>),
}

/// A statement.
#[derive(Drop)]
pub enum Stmt {
    /// Does nothing.
    Skip,
    /// One after another.
    Seq(List<Stmt>),
    /// Gives a variable a word.
    Assign(u32, Expr),
    /// Writes a word to data memory: the address, and the word.
    StoreWord(Expr, Expr),
    /// Writes a byte to data memory: the address, and the word whose low byte goes there.
    StoreByte(Expr, Expr),
    /// The first where the word isn't 0, else the second.
    If(Expr, Boxed<Stmt>, Boxed<Stmt>),
    /// The statements before the test, the test, and where its word isn't 0 the body; again and again. A break or continue
    /// before the test is one of the loop around.
    While {
        before: List<Stmt>,
        test: Expr,
        body: Boxed<Stmt>,
    },
    /// Leaves the innermost loop.
    Break,
    /// Goes to the next turn of the innermost loop.
    Continue,
    /// Calls a function. Its result's words go to variables, or nowhere.
    Call {
        results: List<u32>,
        function: u32,
        args: List<Expr>,
        handler: Option<Handler<Boxed<Stmt>>>,
    },
    /// Leaves the function with the result of a call.
    TailCall {
        function: u32,
        args: List<Expr>,
    },
    /// Leaves the function with these words.
    Return(List<Expr>),
    /// Leaves the function with an exception and its words.
    Raise(u32, List<Expr>),
    /// Reads from the shared window at an address into a variable.
    SharedLoad(Size, u32, Expr),
    /// Writes to the shared window: the address, and the word whose low bytes go there.
    SharedStore(Size, Expr, Expr),
    /// Calls a foreign function, by its number, with two buffers of local memory, each by its address and length.
    Foreign(u32, Expr, Expr, Expr, Expr),
}

/// A function. Its parameters are the first variables.
#[derive(Drop)]
pub struct CrepFun {
    pub name: Blob,
    /// What an active call costs, in bytes of stack.
    pub cost: u64,
    /// How many words it takes.
    pub params: u32,
    /// How many words it returns.
    pub results: u32,
    pub body: Stmt,
}
