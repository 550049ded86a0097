//! Statements and functions.

use pan_base::{BinOp, Blob, Boxed, Cmp, List, ShOp, Size};
use pan_stage::Handler;

/// A statement. Of its variables the one that is written comes first. A live set has no effect.
#[derive(Drop)]
pub enum Stmt {
    /// Does nothing.
    Skip,
    /// One after another.
    Seq(List<Stmt>),
    /// Gives a variable this word.
    Const(u32, u64),
    /// Gives a variable the word of another.
    Move(u32, u32),
    /// Gives a variable what an operator makes of two.
    Bin(BinOp, u32, u32, u32),
    /// Gives a variable the word of another, shifted by an amount.
    Shift(ShOp, u32, u32, u8),
    /// Gives a variable 1 where the comparison of two holds, else 0.
    Compare(Cmp, u32, u32, u32),
    /// Gives a variable the word of data memory at an address.
    LoadWord(u32, u32),
    /// Gives a variable the byte of data memory at an address.
    LoadByte(u32, u32),
    /// Writes a word to data memory: the address, and the word.
    StoreWord(u32, u32),
    /// Writes a byte to data memory: the address, and the word whose low byte goes there.
    StoreByte(u32, u32),
    /// The first where the word isn't 0, else the second.
    If(u32, Boxed<Stmt>, Boxed<Stmt>),
    /// The statements before the test, the test, and where the variable's word isn't 0 the body; again and again. A break or continue
    /// before the test is one of the loop around.
    While {
        live: List<u32>,
        before: List<Stmt>,
        test: u32,
        body: Boxed<Stmt>,
    },
    /// Leaves the innermost loop.
    Break,
    /// Goes to the next turn of the innermost loop.
    Continue,
    /// Calls a function. Its result's words go to variables, or nowhere.
    Call {
        live: List<u32>,
        results: List<u32>,
        function: u32,
        args: List<u32>,
        handler: Option<Handler<Boxed<Stmt>>>,
    },
    /// Leaves the function with the result of a call.
    TailCall {
        function: u32,
        args: List<u32>,
    },
    /// Leaves the function with the words of these variables.
    Return(List<u32>),
    /// Leaves the function with an exception and the words of these variables.
    Raise(u32, List<u32>),
    /// Reads from the shared window at an address into a variable.
    SharedLoad(Size, u32, u32),
    /// Writes to the shared window: the address, and the word whose low bytes go there.
    SharedStore(Size, u32, u32),
    /// Calls a foreign function, by its number, with two buffers of local memory, each by its address and length.
    Foreign {
        live: List<u32>,
        name: u32,
        conf: u32,
        conf_len: u32,
        array: u32,
        array_len: u32,
    },
}

/// A function. Its parameters are the first variables.
#[derive(Drop)]
pub struct LoopFun {
    pub name: Blob,
    /// What an active call costs, in bytes of stack.
    pub cost: u64,
    /// How many words it takes.
    pub params: u32,
    /// How many words it returns.
    pub results: u32,
    pub body: Stmt,
}
