//! Tests, statements and functions.

use pan_base::{Blob, Boxed, Cmp, IOp, LOp, List, ROp, SOp, ShiftOp, Size};
use pan_stage::Handler;

/// A comparison of two operands, each of which is a variable, or else 0.
#[derive(Drop)]
pub struct Test {
    pub comparison: Cmp,
    pub left: Option<u32>,
    pub right: Option<u32>,
}

/// A statement. Where a variable is written it stands first; immediates and offsets have 12 bits, with a sign.
#[derive(Drop)]
pub enum Stmt {
    /// Does nothing.
    Skip,
    /// One after another.
    Seq(List<Stmt>),
    /// Gives a variable this word.
    Const(u32, u64),
    /// Gives a variable what an operation makes of two.
    Reg(ROp, u32, u32, u32),
    /// Gives a variable what an operation makes of a variable and an immediate.
    Imm(IOp, u32, u32, i32),
    /// Gives a variable another's word, shifted by an amount.
    Sh(ShiftOp, u32, u32, u8),
    /// Reads data memory into a variable: the variable of the address, and an offset.
    Load(LOp, u32, u32, i32),
    /// Writes to data memory: the variable whose low bytes go there, that of the address, and an offset.
    Store(SOp, u32, u32, i32),
    /// The first where the test holds, else the second.
    If(Test, Boxed<Stmt>, Boxed<Stmt>),
    /// The statements before the test, and where the test holds the body; again and again. A break or continue before the
    /// test is one of the loop around.
    While {
        before: List<Stmt>,
        test: Test,
        body: Boxed<Stmt>,
    },
    /// Leaves the innermost loop.
    Break,
    /// Goes to the next turn of the innermost loop.
    Continue,
    /// Calls a function. Its result's words go to variables, or nowhere.
    Call {
        results: List<u32>,
        function: u32,
        args: List<u32>,
        handler: Option<Handler<Boxed<Stmt>>>,
    },
    /// Leaves the function with the result of a call.
    TailCall {
        function: u32,
        args: List<u32>,
    },
    /// Leaves the function with the words of these variables.
    Return(List<u32>),
    /// Leaves the function with an exception and the words of these variables.
    Raise(u32, List<u32>),
    /// Reads from the shared window into a variable: the variable of the address, and an offset.
    SharedLoad(Size, u32, u32, i32),
    /// Writes to the shared window: the variable whose low bytes go there, that of the address, and an offset.
    SharedStore(Size, u32, u32, i32),
    /// Calls a foreign function, by its number, with two buffers of local memory, each by its address and length.
    Foreign(u32, u32, u32, u32, u32),
}

/// A function.
#[derive(Drop)]
pub struct WordFun {
    pub name: Blob,
    /// What an active call costs, in bytes of stack.
    pub cost: u64,
    /// The variables of its parameters, in order.
    pub params: List<u32>,
    /// How many words it returns.
    pub results: u32,
    pub body: Stmt,
}
