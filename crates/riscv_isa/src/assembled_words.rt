//! Each row of the table, against the words that LLVM's assembler makes of it.

use crate::decoding::decode;
use crate::instr::Instr;
use pan_base::{Cmp, IOp, LOp, ROp, SOp, ShiftOp, UOp};

/// The operation, `rd`, `rs1`, `rs2` and the word.
const R_WORDS: [(ROp, u8, u8, u8, u32); 17] = [
    (ROp::Add, 1, 2, 3, 0x0031_00b3),
    (ROp::Sub, 4, 5, 6, 0x4062_8233),
    (ROp::Sll, 7, 8, 9, 0x0094_13b3),
    (ROp::Slt, 10, 11, 12, 0x00c5_a533),
    (ROp::Sltu, 13, 14, 15, 0x00f7_36b3),
    (ROp::Xor, 16, 17, 18, 0x0128_c833),
    (ROp::Srl, 19, 20, 21, 0x015a_59b3),
    (ROp::Sra, 22, 23, 24, 0x418b_db33),
    (ROp::Or, 25, 26, 27, 0x01bd_6cb3),
    (ROp::And, 28, 29, 30, 0x01ee_fe33),
    (ROp::Mul, 10, 11, 12, 0x02c5_8533),
    (ROp::Mulhu, 31, 1, 2, 0x0220_bfb3),
    (ROp::Addw, 3, 4, 5, 0x0052_01bb),
    (ROp::Subw, 6, 7, 8, 0x4083_833b),
    (ROp::Sllw, 9, 10, 11, 0x00b5_14bb),
    (ROp::Srlw, 12, 13, 14, 0x00e6_d63b),
    (ROp::Sraw, 15, 16, 17, 0x4118_57bb),
];

/// The operation, `rd`, `rs1`, the immediate and the word.
const I_WORDS: [(IOp, u8, u8, i32, u32); 7] = [
    (IOp::Addi, 10, 0, 5, 0x0050_0513),
    (IOp::Slti, 1, 2, -2048, 0x8001_2093),
    (IOp::Sltiu, 3, 4, 2047, 0x7ff2_3193),
    (IOp::Xori, 5, 6, -1, 0xfff3_4293),
    (IOp::Ori, 7, 8, 291, 0x1234_6393),
    (IOp::Andi, 9, 10, -292, 0xedc5_7493),
    (IOp::Addiw, 11, 12, 1, 0x0016_059b),
];

/// The operation, `rd`, `rs1`, the amount and the word.
const SHIFT_WORDS: [(ShiftOp, u8, u8, u8, u32); 6] = [
    (ShiftOp::Slli, 1, 2, 63, 0x03f1_1093),
    (ShiftOp::Srli, 3, 4, 33, 0x0212_5193),
    (ShiftOp::Srai, 10, 10, 63, 0x43f5_5513),
    (ShiftOp::Slliw, 5, 6, 31, 0x01f3_129b),
    (ShiftOp::Srliw, 7, 8, 17, 0x0114_539b),
    (ShiftOp::Sraiw, 9, 10, 1, 0x4015_549b),
];

/// The operation, `rd`, the 20 high bits and the word.
const U_WORDS: [(UOp, u8, u32, u32); 2] = [
    (UOp::Lui, 5, 0x12345, 0x1234_52b7),
    (UOp::Auipc, 6, 0xfffff, 0xffff_f317),
];

/// The load, `rd`, `rs1`, the immediate and the word.
const LOAD_WORDS: [(LOp, u8, u8, i32, u32); 7] = [
    (LOp::Lb, 1, 2, -1, 0xfff1_0083),
    (LOp::Lh, 3, 4, 2, 0x0022_1183),
    (LOp::Lw, 5, 6, -4, 0xffc3_2283),
    (LOp::Ld, 7, 8, 2040, 0x7f84_3383),
    (LOp::Lbu, 9, 10, -2048, 0x8005_4483),
    (LOp::Lhu, 11, 12, 2046, 0x7fe6_5583),
    (LOp::Lwu, 13, 14, 100, 0x0647_6683),
];

/// The store, `rs1`, `rs2`, the immediate and the word.
const STORE_WORDS: [(SOp, u8, u8, i32, u32); 4] = [
    (SOp::Sb, 2, 1, -1, 0xfe11_0fa3),
    (SOp::Sh, 4, 3, 2, 0x0032_1123),
    (SOp::Sw, 6, 5, -2048, 0x8053_2023),
    (SOp::Sd, 2, 1, 8, 0x0011_3423),
];

/// The comparison, `rs1`, `rs2`, the immediate and the word.
const BRANCH_WORDS: [(Cmp, u8, u8, i32, u32); 6] = [
    (Cmp::Eq, 0, 0, -4, 0xfe00_0ee3),
    (Cmp::Ne, 1, 2, 4094, 0x7e20_9fe3),
    (Cmp::Lt, 3, 4, -4096, 0x8041_c063),
    (Cmp::Ge, 5, 6, 2048, 0x0062_d0e3),
    (Cmp::Ltu, 7, 8, 30, 0x0083_ef63),
    (Cmp::Geu, 9, 10, -1366, 0xaaa4_f5e3),
];

/// `rd`, the immediate and the word.
const JAL_WORDS: [(u8, i32, u32); 5] = [
    (0, 0, 0x0000_006f),
    (1, 1048574, 0x7fff_f0ef),
    (31, -1048576, 0x8000_0fef),
    (5, 699050, 0x2aba_a2ef),
    (5, 2048, 0x0010_02ef),
];

#[test]
fn register_operations(rt: HostRuntime) {
    for (op, rd, rs1, rs2, word) in R_WORDS {
        assert_eq!(rt; decode(word), Some(Instr::R { op, rd, rs1, rs2 }));
    }
}

#[test]
fn immediate_operations(rt: HostRuntime) {
    for (op, rd, rs1, imm, word) in I_WORDS {
        assert_eq!(rt; decode(word), Some(Instr::I { op, rd, rs1, imm }));
    }
}

#[test]
fn shifts(rt: HostRuntime) {
    for (op, rd, rs1, amount, word) in SHIFT_WORDS {
        assert_eq!(rt;
            decode(word),
            Some(Instr::Sh {
                op,
                rd,
                rs1,
                amount
            })
        );
    }
}

#[test]
fn upper_immediates(rt: HostRuntime) {
    for (op, rd, high, word) in U_WORDS {
        assert_eq!(rt; decode(word), Some(Instr::U { op, rd, high }));
    }
}

#[test]
fn loads(rt: HostRuntime) {
    for (op, rd, rs1, imm, word) in LOAD_WORDS {
        assert_eq!(rt; decode(word), Some(Instr::L { op, rd, rs1, imm }));
    }
}

#[test]
fn stores(rt: HostRuntime) {
    for (op, rs1, rs2, imm, word) in STORE_WORDS {
        assert_eq!(rt; decode(word), Some(Instr::S { op, rs1, rs2, imm }));
    }
}

#[test]
fn branches(rt: HostRuntime) {
    for (op, rs1, rs2, imm, word) in BRANCH_WORDS {
        assert_eq!(rt; decode(word), Some(Instr::B { op, rs1, rs2, imm }));
    }
}

#[test]
fn jumps(rt: HostRuntime) {
    for (rd, imm, word) in JAL_WORDS {
        assert_eq!(rt; decode(word), Some(Instr::Jal { rd, imm }));
    }
}

/// `jalr x1, -2048(x31)`, `fence r, rw`, `fence.tso` and `ebreak`.
#[test]
fn others(rt: HostRuntime) {
    assert_eq!(rt;
        decode(0x800f_80e7),
        Some(Instr::Jalr {
            rd: 1,
            rs1: 31,
            imm: -2048
        })
    );
    assert_eq!(rt;
        decode(0x0230_000f),
        Some(Instr::Fence {
            high: 0x0460,
            rd: 0
        })
    );
    assert_eq!(rt;
        decode(0x8330_000f),
        Some(Instr::Fence {
            high: 0x1_0660,
            rd: 0
        })
    );
    assert_eq!(rt; decode(0x0010_0073), Some(Instr::Ebreak));
}
