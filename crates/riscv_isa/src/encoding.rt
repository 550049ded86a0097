//! From instructions to words, by the formats of the RISC-V unprivileged ISA (sections 2.2 and 2.3, and its listing of
//! RV64I and M).

ghost use Rattle.std.specs.Prelude.{◌≡◌, IfSome, Some, ℕ, pos, negsuc, ◌+◌, ◌*◌, ◌^◌, ◌<◌, ◌≤ℤ◌};
ghost use Rattle.riscv_isa.specs.Table.{r_code, i_opcode, i_funct3, l_funct3, s_funct3, b_funct3, u_opcode, amounts, Instruction, InRange, IsEven, RFormat, IFormat, SFormat, BFormat, UFormat, JFormat, ShFormat, ShwFormat, FenceFormat, ShRow};

use crate::bits::{bits_of, join, unsigned_12, unsigned_13, unsigned_21};
use crate::codes::{
    b_funct3_of, i_funct3_of, i_opcode_of, l_funct3_of, r_code_of, s_funct3_of, u_opcode_of,
};
use crate::instr::Instr;
use pan_base::{Cmp, IOp, LOp, ROp, SOp, ShiftOp, UOp};

/// The word with these fields, the first one at the top.
fn word_of(funct7: u32, rs2: u32, rs1: u32, funct3: u32, rd: u32, opcode: u32) -> u32
    requires funct7 { funct7 < 128 }
    requires rs2 { rs2 < 32 }
    requires rs1 { rs1 < 32 }
    requires funct3 { funct3 < 8 }
    requires rd { rd < 32 }
    requires opcode { opcode < 128 }
    ensures { result ≡ funct7 * 2 ^ 25 + rs2 * 2 ^ 20 + rs1 * 2 ^ 15 + funct3 * 2 ^ 12 + rd * 2 ^ 7 + opcode }
{
    let low = join(funct3, 12, join(rd, 7, opcode));
    join(funct7, 25, join(rs2, 20, join(rs1, 15, low)))
}

fn write_s(op: SOp, rs1: u8, rs2: u8, imm: i32) -> u32
    requires { InRange (Instr.S op rs1 rs2 imm) }
    ensures fits { SFormat result 0b0100011 (s_funct3 op) rs1 rs2 imm }
    ensures only { (w : ℕ) → SFormat w 0b0100011 (s_funct3 op) rs1 rs2 imm → w ≡ result }
{
    let bits = unsigned_12(imm);
    word_of(
        bits_of(bits, 5, 7),
        rs2 as u32,
        rs1 as u32,
        s_funct3_of(op),
        bits_of(bits, 0, 5),
        0b0100011,
    )
}

fn write_r(op: ROp, rd: u8, rs1: u8, rs2: u8) -> u32
    requires { InRange (Instr.R op rd rs1 rs2) }
    ensures fits { RFormat result (r_code op) rd rs1 rs2 }
    ensures only { (w : ℕ) → RFormat w (r_code op) rd rs1 rs2 → w ≡ result }
{
    let (opcode, funct3, funct7) = r_code_of(op);
    word_of(funct7, rs2 as u32, rs1 as u32, funct3, rd as u32, opcode)
}

/// A word of the format I.
fn write_i(opcode: u32, funct3: u32, rd: u8, rs1: u8, imm: i32) -> u32
    requires opcode { opcode < 128 }
    requires funct3 { funct3 < 8 }
    requires rd { rd < 32 }
    requires rs1 { rs1 < 32 }
    requires low { negsuc 2047 ≤ℤ imm }
    requires high { imm ≤ℤ pos 2047 }
    ensures fits { IFormat result opcode funct3 rd rs1 imm }
    ensures only { (w : ℕ) → IFormat w opcode funct3 rd rs1 imm → w ≡ result }
{
    let bits = unsigned_12(imm);
    join(
        bits,
        20,
        join(rs1 as u32, 15, join(funct3, 12, join(rd as u32, 7, opcode))),
    )
}

fn write_six(opcode: u32, funct3: u32, above: u32, rd: u8, rs1: u8, amount: u8) -> u32
    requires opcode { opcode < 128 }
    requires funct3 { funct3 < 8 }
    requires above { above < 64 }
    requires rd { rd < 32 }
    requires rs1 { rs1 < 32 }
    requires amount { amount < 64 }
    ensures fits { ShFormat result opcode funct3 above rd rs1 amount }
    ensures only { (w : ℕ) → ShFormat w opcode funct3 above rd rs1 amount → w ≡ result }
{
    let low = join(rs1 as u32, 15, join(funct3, 12, join(rd as u32, 7, opcode)));
    join(above, 26, join(amount as u32, 20, low))
}

fn write_five(opcode: u32, funct3: u32, above: u32, rd: u8, rs1: u8, amount: u8) -> u32
    requires opcode { opcode < 128 }
    requires funct3 { funct3 < 8 }
    requires above { above < 128 }
    requires rd { rd < 32 }
    requires rs1 { rs1 < 32 }
    requires amount { amount < 32 }
    ensures fits { ShwFormat result opcode funct3 above rd rs1 amount }
    ensures only { (w : ℕ) → ShwFormat w opcode funct3 above rd rs1 amount → w ≡ result }
{
    word_of(above, amount as u32, rs1 as u32, funct3, rd as u32, opcode)
}

fn write_shift(op: ShiftOp, rd: u8, rs1: u8, amount: u8) -> u32
    requires { InRange (Instr.Sh op rd rs1 amount) }
    ensures fits { ShRow op result rd rs1 amount }
    ensures only { (w : ℕ) → ShRow op w rd rs1 amount → w ≡ result }
{
    match op {
        ShiftOp::Slli => write_six(0b0010011, 0b001, 0b000000, rd, rs1, amount),
        ShiftOp::Srli => write_six(0b0010011, 0b101, 0b000000, rd, rs1, amount),
        ShiftOp::Srai => write_six(0b0010011, 0b101, 0b010000, rd, rs1, amount),
        ShiftOp::Slliw => write_five(0b0011011, 0b001, 0b0000000, rd, rs1, amount),
        ShiftOp::Srliw => write_five(0b0011011, 0b101, 0b0000000, rd, rs1, amount),
        ShiftOp::Sraiw => write_five(0b0011011, 0b101, 0b0100000, rd, rs1, amount),
    }
}

fn write_u(op: UOp, rd: u8, high: u32) -> u32
    requires { InRange (Instr.U op rd high) }
    ensures fits { UFormat result (u_opcode op) rd high }
    ensures only { (w : ℕ) → UFormat w (u_opcode op) rd high → w ≡ result }
{
    join(high, 12, join(rd as u32, 7, u_opcode_of(op)))
}

fn write_b(op: Cmp, rs1: u8, rs2: u8, imm: i32) -> u32
    requires { InRange (Instr.B op rs1 rs2 imm) }
    ensures fits { BFormat result 0b1100011 (b_funct3 op) rs1 rs2 imm }
    ensures only { (w : ℕ) → BFormat w 0b1100011 (b_funct3 op) rs1 rs2 imm → w ≡ result }
{
    let bits = unsigned_13(imm);
    word_of(
        join(bits_of(bits, 12, 1), 6, bits_of(bits, 5, 6)),
        rs2 as u32,
        rs1 as u32,
        b_funct3_of(op),
        join(bits_of(bits, 1, 4), 1, bits_of(bits, 11, 1)),
        0b1100011,
    )
}

fn write_jal(rd: u8, imm: i32) -> u32
    requires { InRange (Instr.Jal rd imm) }
    ensures fits { JFormat result 0b1101111 rd imm }
    ensures only { (w : ℕ) → JFormat w 0b1101111 rd imm → w ≡ result }
{
    let bits = unsigned_21(imm);
    let low = join(bits_of(bits, 12, 8), 12, join(rd as u32, 7, 0b1101111));
    let middle = join(
        bits_of(bits, 1, 10),
        21,
        join(bits_of(bits, 11, 1), 20, low),
    );
    join(bits_of(bits, 20, 1), 31, middle)
}

fn write_fence(high: u32, rd: u8) -> u32
    requires { InRange (Instr.Fence high rd) }
    ensures fits { FenceFormat result 0b0001111 0b000 high rd }
    ensures only { (w : ℕ) → FenceFormat w 0b0001111 0b000 high rd → w ≡ result }
{
    join(high, 15, join(rd as u32, 7, 0b0001111))
}

/// The word that stands for the instruction, and the only one.
pub fn encode(instr: Instr) -> u32
    requires { InRange instr }
    ensures fits { Instruction result instr }
    ensures only { (w : ℕ) → Instruction w instr → w ≡ result }
{
    match instr {
        Instr::R { op, rd, rs1, rs2 } => write_r(op, rd, rs1, rs2),
        Instr::I { op, rd, rs1, imm } => { write_i(i_opcode_of(op), i_funct3_of(op), rd, rs1, imm) }
        Instr::L { op, rd, rs1, imm } => write_i(0b0000011, l_funct3_of(op), rd, rs1, imm),
        Instr::Jalr { rd, rs1, imm } => write_i(0b1100111, 0b000, rd, rs1, imm),
        Instr::S { op, rs1, rs2, imm } => write_s(op, rs1, rs2, imm),
        Instr::B { op, rs1, rs2, imm } => write_b(op, rs1, rs2, imm),
        Instr::Sh {
            op,
            rd,
            rs1,
            amount,
        } => write_shift(op, rd, rs1, amount),
        Instr::U { op, rd, high } => write_u(op, rd, high),
        Instr::Jal { rd, imm } => write_jal(rd, imm),
        Instr::Fence { high, rd } => write_fence(high, rd),
        Instr::Ecall => 0x0000_0073,
        Instr::Ebreak => 0x0010_0073,
    }
}
