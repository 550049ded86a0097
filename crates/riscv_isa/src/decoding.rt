//! From words to instructions, by the formats of the RISC-V unprivileged ISA (sections 2.2 and 2.3, and its listing of
//! RV64I and M).

ghost use Rattle.std.specs.Prelude.{◌≡◌, ◌==◌, ◌&&◌, ◌⊎◌, IfSome, Some, find, ◌+◌, ◌*◌, ◌^◌};
ghost use Rattle.pan_base.specs.Words.{signed};
ghost use Rattle.riscv_isa.specs.Table.{field, r_code, i_opcode, i_funct3, l_funct3, s_funct3, b_funct3, Instruction, InRange};
ghost use Rattle.riscv_isa.specs.Decoded.{r_ops, i_ops, l_ops, s_ops, b_ops, r_read, i_read, sh_read, l_read, s_read, b_read, j_read, jalr_read, fence_read, or_else, decoded};
ghost use Rattle.riscv_isa.specs.declared.instr.Instr.{Instr};

use crate::bits::{bits_of, join, signed_12, signed_13, signed_21};
use crate::instr::Instr;
use pan_base::{Cmp, IOp, LOp, ROp, SOp, ShiftOp, UOp};

fn r_op(opcode: u32, funct3: u32, funct7: u32) -> Option<ROp>
    ensures { result ≡ find (λ op. (r_code op).opcode == opcode && (r_code op).funct3 == funct3 && (r_code op).funct7 == funct7) r_ops }
{
    match (opcode, funct7, funct3) {
        (0b0110011, 0b0000000, 0b000) => Some(ROp::Add),
        (0b0110011, 0b0100000, 0b000) => Some(ROp::Sub),
        (0b0110011, 0b0000000, 0b001) => Some(ROp::Sll),
        (0b0110011, 0b0000000, 0b010) => Some(ROp::Slt),
        (0b0110011, 0b0000000, 0b011) => Some(ROp::Sltu),
        (0b0110011, 0b0000000, 0b100) => Some(ROp::Xor),
        (0b0110011, 0b0000000, 0b101) => Some(ROp::Srl),
        (0b0110011, 0b0100000, 0b101) => Some(ROp::Sra),
        (0b0110011, 0b0000000, 0b110) => Some(ROp::Or),
        (0b0110011, 0b0000000, 0b111) => Some(ROp::And),
        (0b0110011, 0b0000001, 0b000) => Some(ROp::Mul),
        (0b0110011, 0b0000001, 0b011) => Some(ROp::Mulhu),
        (0b0111011, 0b0000000, 0b000) => Some(ROp::Addw),
        (0b0111011, 0b0100000, 0b000) => Some(ROp::Subw),
        (0b0111011, 0b0000000, 0b001) => Some(ROp::Sllw),
        (0b0111011, 0b0000000, 0b101) => Some(ROp::Srlw),
        (0b0111011, 0b0100000, 0b101) => Some(ROp::Sraw),
        _ => None,
    }
}

fn i_op(opcode: u32, funct3: u32) -> Option<IOp>
    ensures { result ≡ find (λ op. i_opcode op == opcode && i_funct3 op == funct3) i_ops }
{
    match (opcode, funct3) {
        (0b0010011, 0b000) => Some(IOp::Addi),
        (0b0010011, 0b010) => Some(IOp::Slti),
        (0b0010011, 0b011) => Some(IOp::Sltiu),
        (0b0010011, 0b100) => Some(IOp::Xori),
        (0b0010011, 0b110) => Some(IOp::Ori),
        (0b0010011, 0b111) => Some(IOp::Andi),
        (0b0011011, 0b000) => Some(IOp::Addiw),
        _ => None,
    }
}

fn l_op(funct3: u32) -> Option<LOp>
    ensures { result ≡ find (λ op. l_funct3 op == funct3) l_ops }
{
    match funct3 {
        0b000 => Some(LOp::Lb),
        0b001 => Some(LOp::Lh),
        0b010 => Some(LOp::Lw),
        0b011 => Some(LOp::Ld),
        0b100 => Some(LOp::Lbu),
        0b101 => Some(LOp::Lhu),
        0b110 => Some(LOp::Lwu),
        _ => None,
    }
}

fn s_op(funct3: u32) -> Option<SOp>
    ensures { result ≡ find (λ op. s_funct3 op == funct3) s_ops }
{
    match funct3 {
        0b000 => Some(SOp::Sb),
        0b001 => Some(SOp::Sh),
        0b010 => Some(SOp::Sw),
        0b011 => Some(SOp::Sd),
        _ => None,
    }
}

fn b_op(funct3: u32) -> Option<Cmp>
    ensures { result ≡ find (λ op. b_funct3 op == funct3) b_ops }
{
    match funct3 {
        0b000 => Some(Cmp::Eq),
        0b001 => Some(Cmp::Ne),
        0b100 => Some(Cmp::Lt),
        0b101 => Some(Cmp::Ge),
        0b110 => Some(Cmp::Ltu),
        0b111 => Some(Cmp::Geu),
        _ => None,
    }
}

fn rd_of(word: u32) -> u8
    ensures { result ≡ field 7 5 word }
{
    bits_of(word, 7, 5) as u8
}

fn rs1_of(word: u32) -> u8
    ensures { result ≡ field 15 5 word }
{
    bits_of(word, 15, 5) as u8
}

fn rs2_of(word: u32) -> u8
    ensures { result ≡ field 20 5 word }
{
    bits_of(word, 20, 5) as u8
}

fn i_imm_of(word: u32) -> i32
    ensures { result ≡ signed 12 (field 20 12 word) }
{
    signed_12(bits_of(word, 20, 12))
}

#[tactic(auto, unfolding(crate::specs::Decoded::r_read))]
fn read_r(word: u32) -> Option<Instr>
    ensures { result ≡ r_read word }
{
    let op = r_op(
        bits_of(word, 0, 7),
        bits_of(word, 12, 3),
        bits_of(word, 25, 7),
    )?;
    Some(Instr::R {
        op,
        rd: rd_of(word),
        rs1: rs1_of(word),
        rs2: rs2_of(word),
    })
}

#[tactic(auto, unfolding(crate::specs::Decoded::i_read))]
fn read_i(word: u32) -> Option<Instr>
    ensures { result ≡ i_read word }
{
    let op = i_op(bits_of(word, 0, 7), bits_of(word, 12, 3))?;
    Some(Instr::I {
        op,
        rd: rd_of(word),
        rs1: rs1_of(word),
        imm: i_imm_of(word),
    })
}

/// A shift by an amount of six bits.
#[tactic(auto, unfolding(crate::specs::Decoded::sh_read))]
fn read_six(word: u32) -> Option<Instr>
    requires { field 0 7 word ≡ 0b0010011 }
    ensures { result ≡ sh_read word }
{
    let op = match (bits_of(word, 12, 3), bits_of(word, 26, 6)) {
        (0b001, 0b000000) => ShiftOp::Slli,
        (0b101, 0b000000) => ShiftOp::Srli,
        (0b101, 0b010000) => ShiftOp::Srai,
        _ => return None,
    };
    Some(Instr::Sh {
        op,
        rd: rd_of(word),
        rs1: rs1_of(word),
        amount: bits_of(word, 20, 6) as u8,
    })
}

/// A shift of the low 32 bits by an amount of five bits.
#[tactic(auto, unfolding(crate::specs::Decoded::sh_read))]
fn read_five(word: u32) -> Option<Instr>
    requires { field 0 7 word ≡ 0b0011011 }
    ensures { result ≡ sh_read word }
{
    let op = match (bits_of(word, 12, 3), bits_of(word, 25, 7)) {
        (0b001, 0b0000000) => ShiftOp::Slliw,
        (0b101, 0b0000000) => ShiftOp::Srliw,
        (0b101, 0b0100000) => ShiftOp::Sraiw,
        _ => return None,
    };
    Some(Instr::Sh {
        op,
        rd: rd_of(word),
        rs1: rs1_of(word),
        amount: bits_of(word, 20, 5) as u8,
    })
}

/// An operation on an immediate, or else a shift by a fixed amount.
fn read_immediate(word: u32) -> Option<Instr>
    requires { (field 0 7 word ≡ 0b0010011) ⊎ (field 0 7 word ≡ 0b0011011) }
    ensures { result ≡ or_else (i_read word) (sh_read word) }
{
    match read_i(word) {
        Some(instr) => Some(instr),
        None => {
            if bits_of(word, 0, 7) == 0b0010011 {
                read_six(word)
            } else {
                read_five(word)
            }
        }
    }
}

#[tactic(auto, unfolding(crate::specs::Decoded::l_read))]
fn read_l(word: u32) -> Option<Instr>
    ensures { result ≡ l_read word }
{
    let op = l_op(bits_of(word, 12, 3))?;
    Some(Instr::L {
        op,
        rd: rd_of(word),
        rs1: rs1_of(word),
        imm: i_imm_of(word),
    })
}

#[tactic(auto, unfolding(crate::specs::Decoded::s_read))]
fn read_s(word: u32) -> Option<Instr>
    ensures { result ≡ s_read word }
{
    let op = s_op(bits_of(word, 12, 3))?;
    let imm = signed_12(join(bits_of(word, 25, 7), 5, bits_of(word, 7, 5)));
    Some(Instr::S {
        op,
        rs1: rs1_of(word),
        rs2: rs2_of(word),
        imm,
    })
}

#[tactic(auto, unfolding(crate::specs::Decoded::b_read))]
fn read_b(word: u32) -> Option<Instr>
    ensures { result ≡ b_read word }
{
    let op = b_op(bits_of(word, 12, 3))?;
    let low = join(bits_of(word, 25, 6), 5, bits_of(word, 8, 4) * 2);
    let high = join(bits_of(word, 31, 1), 1, bits_of(word, 7, 1));
    let imm = signed_13(join(high, 11, low));
    Some(Instr::B {
        op,
        rs1: rs1_of(word),
        rs2: rs2_of(word),
        imm,
    })
}

#[tactic(auto, unfolding(crate::specs::Decoded::j_read))]
fn read_jal(word: u32) -> Option<Instr>
    ensures { result ≡ j_read word }
{
    let low = join(bits_of(word, 20, 1), 11, bits_of(word, 21, 10) * 2);
    let high = join(bits_of(word, 31, 1), 8, bits_of(word, 12, 8));
    let imm = signed_21(join(high, 12, low));
    Some(Instr::Jal {
        rd: rd_of(word),
        imm,
    })
}

#[tactic(auto, unfolding(crate::specs::Decoded::jalr_read))]
fn read_jalr(word: u32) -> Option<Instr>
    ensures { result ≡ jalr_read word }
{
    if bits_of(word, 12, 3) != 0b000 {
        return None;
    }
    Some(Instr::Jalr {
        rd: rd_of(word),
        rs1: rs1_of(word),
        imm: i_imm_of(word),
    })
}

#[tactic(auto, unfolding(crate::specs::Decoded::fence_read))]
fn read_fence(word: u32) -> Option<Instr>
    ensures { result ≡ fence_read word }
{
    if bits_of(word, 12, 3) != 0b000 {
        return None;
    }
    Some(Instr::Fence {
        high: bits_of(word, 15, 17),
        rd: rd_of(word),
    })
}

fn read_u(op: UOp, word: u32) -> Option<Instr>
    ensures { result ≡ Some (Instr.U op (field 7 5 word) (field 12 20 word)) }
{
    Some(Instr::U {
        op,
        rd: rd_of(word),
        high: bits_of(word, 12, 20),
    })
}

#[tactic(auto, unfolding(crate::specs::Decoded::decoded))]
fn read(word: u32) -> Option<Instr>
    ensures { result ≡ decoded word }
{
    match bits_of(word, 0, 7) {
        0b0110011 | 0b0111011 => read_r(word),
        0b0010011 | 0b0011011 => read_immediate(word),
        0b0100011 => read_s(word),
        0b0110111 => read_u(UOp::Lui, word),
        0b0010111 => read_u(UOp::Auipc, word),
        0b0000011 => read_l(word),
        0b1100011 => read_b(word),
        0b1101111 => read_jal(word),
        0b1100111 => read_jalr(word),
        0b0001111 => read_fence(word),
        _ => match word {
            0x0000_0073 => Some(Instr::Ecall),
            0x0010_0073 => Some(Instr::Ebreak),
            _ => None,
        },
    }
}

/// The instruction that a word stands for, with its fields in range, or `None` where it stands for none.
#[tactic(auto, using(crate::proofs::DecodedLaws::reads, crate::proofs::DecodedLaws::fits, crate::proofs::Ranges::decoded_in_range))]
pub fn decode(word: u32) -> Option<Instr>
    ensures value { result ≡ decoded word }
    ensures fits { IfSome result (λ i. Instruction word i) }
    ensures only { (i : Instr) → Instruction word i → result ≡ Some i }
    ensures range { IfSome result InRange }
{
    read(word)
}
