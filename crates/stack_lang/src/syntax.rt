//! Statements and functions.

use pan_base::{Blob, Boxed, Cmp, List, Size};
use riscv_isa::Instr;

/// What catches an exception of a call: its words stand where every function passes words, and the body runs.
#[derive(Drop)]
pub struct Catch<S> {
    /// The number of the exception.
    pub exception: u32,
    pub body: S,
}

/// A statement. Registers are numbered as the machine's, slots from 0.
#[derive(Drop)]
pub enum Stmt {
    /// One after another.
    Seq(List<Stmt>),
    /// An instruction that runs on to the next one.
    Plain(Instr),
    /// Gives a register the word of a slot.
    Get(u8, u32),
    /// Gives a slot the word of a register.
    Put(u32, u8),
    /// Reads from the shared window, at `rs1` and the immediate, into `rd`, with zeros above.
    SharedLoad {
        size: Size,
        rd: u8,
        rs1: u8,
        imm: i32,
    },
    /// Writes the low bytes of `rs2` to the shared window, at `rs1` and the immediate.
    SharedStore {
        size: Size,
        rs1: u8,
        rs2: u8,
        imm: i32,
    },
    /// Calls a foreign function, by its number, with the buffers of x10 and x11 and of x12 and x13. The number then stands in
    /// x14, and 1 in x17.
    Foreign(u32),
    /// The first where the comparison holds of two registers, else the second.
    If(Cmp, u8, u8, Boxed<Stmt>, Boxed<Stmt>),
    /// The statements before the test, and where the comparison holds of two registers the body; again and again. A break or
    /// continue before the test is one of the loop around.
    While {
        before: List<Stmt>,
        comparison: Cmp,
        left: u8,
        right: u8,
        body: Boxed<Stmt>,
    },
    /// Leaves the innermost loop.
    Break,
    /// Goes to the next turn of the innermost loop.
    Continue,
    /// Calls a function. Where it returns, `returned` takes what it left.
    Call {
        function: u32,
        returned: Boxed<Stmt>,
        handler: Option<Catch<Boxed<Stmt>>>,
    },
    /// Gives up the frame, and leaves the function with what a call of this one leaves.
    TailCall(u32),
    /// Gives up the frame and leaves the function.
    Return,
    /// Leaves the function with an exception.
    Raise(u32),
}

/// A function.
#[derive(Drop)]
pub struct StackFun {
    pub name: Blob,
    /// What an active call costs, in bytes of stack.
    pub cost: u64,
    /// The bytes of its frame, a multiple of 16: its slots, a word each, behind a word for the return address where it calls
    /// (other than by a tail call), and two more where a call is under a handler; 0 where there is none of these.
    pub frame: u64,
    pub body: Stmt,
}
