//! Words that assemblers make of known instructions.

use crate::decoding::decode;
use crate::encoding::encode;
use crate::instr::Instr;
use crate::laws::{decoded_is_the_table, read_written, write_read};
use pan_base::{Cmp, IOp, ROp, SOp, ShiftOp, UOp};

/// `addi x10, x0, 5`
const ADDI: Instr = Instr::I {
    op: IOp::Addi,
    rd: 10,
    rs1: 0,
    imm: 5,
};
/// `sd x1, 8(x2)`
const SD: Instr = Instr::S {
    op: SOp::Sd,
    rs1: 2,
    rs2: 1,
    imm: 8,
};
/// `beq x0, x0, -4`
const BEQ: Instr = Instr::B {
    op: Cmp::Eq,
    rs1: 0,
    rs2: 0,
    imm: -4,
};
/// `jal x0, 0`
const JAL: Instr = Instr::Jal { rd: 0, imm: 0 };
/// `mul x10, x11, x12`
const MUL: Instr = Instr::R {
    op: ROp::Mul,
    rd: 10,
    rs1: 11,
    rs2: 12,
};
/// `lui x5, 0x12345`
const LUI: Instr = Instr::U {
    op: UOp::Lui,
    rd: 5,
    high: 0x12345,
};
/// `srai x10, x10, 63`
const SRAI: Instr = Instr::Sh {
    op: ShiftOp::Srai,
    rd: 10,
    rs1: 10,
    amount: 63,
};

/// Words, each with its instruction or with none: a shift to the right by a fixed amount with bit 31 set, and the word of zeros, stand for none.
const WORDS: [(Option<Instr>, u32); 10] = [
    (Some(ADDI), 0x0050_0513),
    (Some(SD), 0x0011_3423),
    (Some(BEQ), 0xfe00_0ee3),
    (Some(JAL), 0x0000_006f),
    (Some(MUL), 0x02c5_8533),
    (Some(LUI), 0x1234_52b7),
    (Some(SRAI), 0x43f5_5513),
    (Some(Instr::Ecall), 0x0000_0073),
    (None, 0x8005_5513),
    (None, 0x0000_0000),
];

#[test]
fn encodes_and_decodes(rt: HostRuntime) {
    for (instr, word) in WORDS {
        let read = decode(word);
        assert_eq!(rt; read, instr);
        if let Some(read) = read {
            assert_eq!(rt; encode(read), word);
        }
    }
}

/// The laws' calls return.
#[test]
fn undoes(rt: HostRuntime) {
    for (instr, word) in WORDS {
        assert_eq!(rt; write_read(word), instr.map(|_| word));
        if let Some(read) = decode(word) {
            assert_eq!(rt; read_written(read), instr);
        }
    }
    decoded_is_the_table();
}
