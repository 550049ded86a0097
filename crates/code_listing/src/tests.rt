//! Instructions as text, and listings, against the words that LLVM's assembler makes of these texts.

use crate::{put_instr, put_listing};
use pan_base::{List, MemSink};
use riscv_isa::decode;
use std::test::Fail;

/// Words, each with the text that LLVM's assembler makes it of: each operation, and each form at its least and its greatest
/// numbers.
const TEXTS: [(u32, &str); 58] = [
    (0x0031_00b3, "add x1,x2,x3"),
    (0x4062_8233, "sub x4,x5,x6"),
    (0x0094_13b3, "sll x7,x8,x9"),
    (0x00c5_a533, "slt x10,x11,x12"),
    (0x00f7_36b3, "sltu x13,x14,x15"),
    (0x0128_c833, "xor x16,x17,x18"),
    (0x015a_59b3, "srl x19,x20,x21"),
    (0x418b_db33, "sra x22,x23,x24"),
    (0x01bd_6cb3, "or x25,x26,x27"),
    (0x01ee_fe33, "and x28,x29,x30"),
    (0x02c5_8533, "mul x10,x11,x12"),
    (0x0220_bfb3, "mulhu x31,x1,x2"),
    (0x0052_01bb, "addw x3,x4,x5"),
    (0x4083_833b, "subw x6,x7,x8"),
    (0x00b5_14bb, "sllw x9,x10,x11"),
    (0x00e6_d63b, "srlw x12,x13,x14"),
    (0x4118_57bb, "sraw x15,x16,x17"),
    (0x0050_0513, "addi x10,x0,5"),
    (0x8001_2093, "slti x1,x2,-2048"),
    (0x7ff2_3193, "sltiu x3,x4,2047"),
    (0xfff3_4293, "xori x5,x6,-1"),
    (0x1234_6393, "ori x7,x8,291"),
    (0xedc5_7493, "andi x9,x10,-292"),
    (0x0016_059b, "addiw x11,x12,1"),
    (0x03f1_1093, "slli x1,x2,63"),
    (0x0212_5193, "srli x3,x4,33"),
    (0x43f5_5513, "srai x10,x10,63"),
    (0x01f3_129b, "slliw x5,x6,31"),
    (0x0004_539b, "srliw x7,x8,0"),
    (0x4015_549b, "sraiw x9,x10,1"),
    (0x1234_52b7, "lui x5,0x12345"),
    (0x0000_00b7, "lui x1,0x0"),
    (0xffff_f317, "auipc x6,0xfffff"),
    (0x000a_0397, "auipc x7,0xa0"),
    (0xfff1_0083, "lb x1,-1(x2)"),
    (0x0022_1183, "lh x3,2(x4)"),
    (0xffc3_2283, "lw x5,-4(x6)"),
    (0x7f84_3383, "ld x7,2040(x8)"),
    (0x8005_4483, "lbu x9,-2048(x10)"),
    (0x7fe6_5583, "lhu x11,2046(x12)"),
    (0x0647_6683, "lwu x13,100(x14)"),
    (0xfe11_0fa3, "sb x1,-1(x2)"),
    (0x0032_1123, "sh x3,2(x4)"),
    (0x8053_2023, "sw x5,-2048(x6)"),
    (0x0011_3423, "sd x1,8(x2)"),
    (0xfe00_0ee3, "beq x0,x0,-4"),
    (0x7e20_9fe3, "bne x1,x2,4094"),
    (0x8041_c063, "blt x3,x4,-4096"),
    (0x0062_d0e3, "bge x5,x6,2048"),
    (0x0083_ef63, "bltu x7,x8,30"),
    (0xaaa4_f5e3, "bgeu x9,x10,-1366"),
    (0x0000_006f, "jal x0,0"),
    (0x7fff_f0ef, "jal x1,1048574"),
    (0x8000_0fef, "jal x31,-1048576"),
    (0x800f_80e7, "jalr x1,-2048(x31)"),
    (0x0ff0_000f, "fence"),
    (0x0000_0073, "ecall"),
    (0x0010_0073, "ebreak"),
];

#[test]
fn instructions(rt: HostRuntime) -> Result<(), Fail> {
    let alloc = rt.alloc();
    for (word, text) in TEXTS {
        let instr = decode(word).ok_or(text)?;
        let mut out = MemSink::new(alloc, 64, List::new(alloc))?;
        put_instr(instr, &mut out)?;
        assert_eq!(rt; out.bytes(), text.as_bytes());
    }
    Ok(())
}

/// Three words, the second of which stands for no instruction.
const CODE: [u8; 12] = [
    0x73, 0x00, 0x00, 0x00, 0x00, 0x00, 0x00, 0x00, 0x13, 0x05, 0x50, 0x00,
];

/// Their listing.
const LISTING: &str = "00000000 00000073 ecall
00000004 00000000 none
00000008 00500513 addi x10,x0,5
";

#[test]
fn listings(rt: HostRuntime) -> Result<(), Fail> {
    let alloc = rt.alloc();
    let mut out = MemSink::new(alloc, 256, List::new(alloc))?;
    put_listing(&CODE, &mut out)?;
    assert_eq!(rt; out.bytes(), LISTING.as_bytes());
    Ok(())
}

/// The second line is put at once and fails: the first line stays.
#[test]
fn failing_line(rt: HostRuntime) -> Result<(), Fail> {
    let alloc = rt.alloc();
    let mut failing = List::new(alloc);
    failing.push(1)?;
    let mut out = MemSink::new(alloc, 256, failing)?;
    assert!(rt; put_listing(&CODE, &mut out).is_err());
    assert_eq!(rt; out.bytes(), b"00000000 00000073 ecall\n".as_slice());
    Ok(())
}
