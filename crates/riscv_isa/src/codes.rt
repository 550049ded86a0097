//! The opcodes and the fields funct3 and funct7 of the operations, by the tables of the RISC-V unprivileged ISA.

ghost use Rattle.std.specs.Prelude.{◌≡◌, ◌<◌};
ghost use Rattle.riscv_isa.specs.Table.{r_code, i_opcode, i_funct3, l_funct3, s_funct3, b_funct3, u_opcode};

use pan_base::{Cmp, IOp, LOp, ROp, SOp, UOp};

/// The opcode, funct3 and funct7.
pub fn r_code_of(op: ROp) -> (u32, u32, u32)
    ensures value { (result.0 ≡ (r_code op).opcode) × (result.1 ≡ (r_code op).funct3) × (result.2 ≡ (r_code op).funct7) }
    ensures bound { (result.0 < 128) × (result.1 < 8) × (result.2 < 128) }
{
    match op {
        ROp::Add => (0b0110011, 0b000, 0b0000000),
        ROp::Sub => (0b0110011, 0b000, 0b0100000),
        ROp::Sll => (0b0110011, 0b001, 0b0000000),
        ROp::Slt => (0b0110011, 0b010, 0b0000000),
        ROp::Sltu => (0b0110011, 0b011, 0b0000000),
        ROp::Xor => (0b0110011, 0b100, 0b0000000),
        ROp::Srl => (0b0110011, 0b101, 0b0000000),
        ROp::Sra => (0b0110011, 0b101, 0b0100000),
        ROp::Or => (0b0110011, 0b110, 0b0000000),
        ROp::And => (0b0110011, 0b111, 0b0000000),
        ROp::Mul => (0b0110011, 0b000, 0b0000001),
        ROp::Mulhu => (0b0110011, 0b011, 0b0000001),
        ROp::Addw => (0b0111011, 0b000, 0b0000000),
        ROp::Subw => (0b0111011, 0b000, 0b0100000),
        ROp::Sllw => (0b0111011, 0b001, 0b0000000),
        ROp::Srlw => (0b0111011, 0b101, 0b0000000),
        ROp::Sraw => (0b0111011, 0b101, 0b0100000),
    }
}

pub fn i_opcode_of(op: IOp) -> u32
    ensures value { result ≡ i_opcode op }
    ensures bound { result < 128 }
{
    match op {
        IOp::Addiw => 0b0011011,
        _ => 0b0010011,
    }
}

pub fn i_funct3_of(op: IOp) -> u32
    ensures value { result ≡ i_funct3 op }
    ensures bound { result < 8 }
{
    match op {
        IOp::Addi => 0b000,
        IOp::Slti => 0b010,
        IOp::Sltiu => 0b011,
        IOp::Xori => 0b100,
        IOp::Ori => 0b110,
        IOp::Andi => 0b111,
        IOp::Addiw => 0b000,
    }
}

pub fn l_funct3_of(op: LOp) -> u32
    ensures value { result ≡ l_funct3 op }
    ensures bound { result < 8 }
{
    match op {
        LOp::Lb => 0b000,
        LOp::Lh => 0b001,
        LOp::Lw => 0b010,
        LOp::Ld => 0b011,
        LOp::Lbu => 0b100,
        LOp::Lhu => 0b101,
        LOp::Lwu => 0b110,
    }
}

pub fn s_funct3_of(op: SOp) -> u32
    ensures value { result ≡ s_funct3 op }
    ensures bound { result < 8 }
{
    match op {
        SOp::Sb => 0b000,
        SOp::Sh => 0b001,
        SOp::Sw => 0b010,
        SOp::Sd => 0b011,
    }
}

pub fn b_funct3_of(op: Cmp) -> u32
    ensures value { result ≡ b_funct3 op }
    ensures bound { result < 8 }
{
    match op {
        Cmp::Eq => 0b000,
        Cmp::Ne => 0b001,
        Cmp::Lt => 0b100,
        Cmp::Ge => 0b101,
        Cmp::Ltu => 0b110,
        Cmp::Geu => 0b111,
    }
}

pub fn u_opcode_of(op: UOp) -> u32
    ensures value { result ≡ u_opcode op }
    ensures bound { result < 128 }
{
    match op {
        UOp::Lui => 0b0110111,
        UOp::Auipc => 0b0010111,
    }
}
