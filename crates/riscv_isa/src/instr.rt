//! Instructions.

use pan_base::{Cmp, IOp, LOp, ROp, SOp, ShiftOp, UOp};

/// An instruction of RV64I with MUL and MULHU, by its format in the RISC-V unprivileged ISA. `rd` is the register that
/// is written, `rs1` and `rs2` are those that are read.
#[derive(Clone, Copy, Debug, PartialEq, Eq)]
pub enum Instr {
    /// An operation on two registers.
    R {
        op: ROp,
        rd: u8,
        rs1: u8,
        rs2: u8,
    },
    /// An operation on a register and an immediate.
    I {
        op: IOp,
        rd: u8,
        rs1: u8,
        imm: i32,
    },
    /// A shift by a fixed amount.
    Sh {
        op: ShiftOp,
        rd: u8,
        rs1: u8,
        amount: u8,
    },
    /// A store of `rs2` at `rs1` and the immediate.
    S {
        op: SOp,
        rs1: u8,
        rs2: u8,
        imm: i32,
    },
    /// An operation on an immediate's 20 high bits.
    U {
        op: UOp,
        rd: u8,
        high: u32,
    },
    /// A load from `rs1` and the immediate.
    L {
        op: LOp,
        rd: u8,
        rs1: u8,
        imm: i32,
    },
    /// A branch by the immediate, where the comparison holds of `rs1` and `rs2`: BEQ, BNE, BLT, BGE, BLTU or BGEU.
    B {
        op: Cmp,
        rs1: u8,
        rs2: u8,
        imm: i32,
    },
    /// A jump by the immediate that links in `rd`.
    Jal {
        rd: u8,
        imm: i32,
    },
    /// A jump to `rs1` and the immediate that links in `rd`.
    Jalr {
        rd: u8,
        rs1: u8,
        imm: i32,
    },
    /// A fence, which has no effect here. `high` are the bits 15 to 31 of its word, which are kept.
    Fence {
        high: u32,
        rd: u8,
    },
    /// A call of the environment.
    Ecall,
    /// A breakpoint.
    Ebreak,
}
