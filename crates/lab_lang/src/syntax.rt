//! Lines, and what is left of functions.

use pan_base::{Blob, Cmp};
use riscv_isa::Instr;

/// A line of flat code. Labels are numbers, and so are registers, which are below 32.
#[derive(Clone, Copy, Debug, PartialEq, Eq)]
pub enum Line {
    /// The place that the label stands for. No instruction.
    Label(u32),
    /// An instruction.
    Plain(Instr),
    /// A jump to a label. A long one writes x9.
    Jump(u32),
    /// A jump to a label where the comparison holds of two registers. A long one that is taken writes x9.
    Branch(Cmp, u8, u8, u32),
    /// A jump to a label that leaves the address of the next line in x1.
    CallTo(u32),
    /// Puts the address of a label into a register.
    Address(u8, u32),
    /// A jump to the address in a register, with its lowest bit cleared.
    JumpReg(u8),
}

/// A function, whose lines stand among the program's.
#[derive(Drop)]
pub struct LabFun {
    pub name: Blob,
    /// What an active call costs, in bytes of stack.
    pub cost: u64,
}
