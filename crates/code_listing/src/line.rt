//! Lines of the listing.

ghost use Rattle.std.specs.Prelude.{◌≡◌, ◌+◌, ◌<◌, ◌≤◌, [], ◌++◌, length};
ghost use Rattle.code_listing.specs.Assembly.{of_two, of_three, instr_text, word_text};
ghost use Rattle.code_listing.specs.Operands.{eight_digits, significant, register, operand_text};

use crate::mnemonics::{
    name_of_branch, name_of_i, name_of_load, name_of_r, name_of_shift, name_of_store, name_of_upper,
};
use crate::operand::Operand;
use itoa::Buffer;
use riscv_isa::Instr;
use std::marker::Model;

/// More bytes than any line has.
const ROOM: usize = 80;

/// A number of 32 bits as eight hexadecimal digits in lower case.
fn digits_of(number: u32) -> [u8; 8]
    ensures { result ≡ eight_digits number }
{
    let mut digits = [0; 8];
    match hex::encode_to_slice(number.to_be_bytes(), &mut digits) {
        Ok(()) => digits,
        Err(_) => unreachable!(),
    }
}

/// The digits without the zeros that they begin with, but the last digit.
fn significant(digits: &[u8]) -> &[u8]
    ensures digits { result.now ≡ significant digits.now }
    ensures fewer { length result.now ≤ length digits.now }
{
    match digits {
        [b'0', rest @ ..] if !rest.is_empty() => significant(rest),
        _ => digits,
    }
}

/// A line, or the front of one.
#[derive(Drop)]
pub struct Line {
    bytes: [u8; ROOM],
    count: usize,
}

impl Model for Line {
    ghost use Rattle.std.specs.Prelude.{ℕ, ◌≤◌, List, take};

    ghost Value = { List ℕ };

    ghost view = { λ line. take line.count line.bytes };

    ghost invariant = { λ line. line.count ≤ 80 };
}

impl Line {
    /// No byte.
    pub fn new() -> Line
        ensures { result ≡ [] }
    {
        Line {
            bytes: [0; ROOM],
            count: 0,
        }
    }

    /// Its bytes.
    pub fn as_slice(&self) -> &[u8]
        ensures { result.now ≡ self.now }
    {
        &self.bytes[..self.count]
    }

    /// Goes on by some text.
    pub fn add(&mut self, text: &[u8])
        requires { length self.old + length text.now ≤ 80 }
        ensures { self.new ≡ self.old ++ text.now }
    {
        let from = self.count;
        let room = &mut self.bytes[..];
        room[from..from + text.len()].copy_from_slice(text);
        self.count = from + text.len();
    }

    /// Goes on by a number as eight hexadecimal digits.
    pub fn add_digits(&mut self, number: u32)
        requires { length self.old + 8 ≤ 80 }
        ensures text { self.new ≡ self.old ++ eight_digits number }
        ensures count { length self.new ≡ length self.old + 8 }
    {
        self.add(&digits_of(number));
    }

    /// Goes on by a number in hexadecimal, without zeros at its front.
    fn add_hexadecimal(&mut self, number: u32)
        requires { length self.old + 10 ≤ 80 }
        ensures text { self.new ≡ self.old ++ operand_text (Operand.High number) }
        ensures count { length self.new ≤ length self.old + 10 }
    {
        self.add(b"0x");
        self.add(significant(&digits_of(number)));
    }

    /// Goes on by a number in decimal.
    fn add_number(&mut self, number: i32)
        requires { length self.old + 11 ≤ 80 }
        ensures text { self.new ≡ self.old ++ operand_text (Operand.Number number) }
        ensures count { length self.new ≤ length self.old + 11 }
    {
        self.add(Buffer::new().format(number).as_bytes());
    }

    /// Goes on by a register.
    fn add_register(&mut self, number: u8)
        requires { length self.old + 4 ≤ 80 }
        ensures text { self.new ≡ self.old ++ operand_text (Operand.Register number) }
        ensures count { length self.new ≤ length self.old + 4 }
    {
        self.add(b"x");
        self.add(Buffer::new().format(number).as_bytes());
    }

    /// Goes on by an address.
    fn add_address(&mut self, offset: i32, base: u8)
        requires { length self.old + 17 ≤ 80 }
        ensures text { self.new ≡ self.old ++ operand_text (Operand.Address offset base) }
        ensures count { length self.new ≤ length self.old + 17 }
    {
        self.add_number(offset);
        self.add(b"(");
        self.add_register(base);
        self.add(b")");
    }

    /// Goes on by an operand.
    fn add_operand(&mut self, operand: Operand)
        requires { length self.old + 17 ≤ 80 }
        ensures text { self.new ≡ self.old ++ operand_text operand }
        ensures count { length self.new ≤ length self.old + 17 }
    {
        match operand {
            Operand::Register(number) => self.add_register(number),
            Operand::Number(number) => self.add_number(number),
            Operand::High(number) => self.add_hexadecimal(number),
            Operand::Address { offset, base } => self.add_address(offset, base),
        }
    }

    /// Goes on by a mnemonic and two operands.
    fn add_two(&mut self, name: &[u8], first: Operand, second: Operand)
        requires name { length name.now ≤ 5 }
        requires room { length self.old ≤ 18 }
        ensures text { self.new ≡ self.old ++ of_two name.now (operand_text first) (operand_text second) }
        ensures count { length self.new ≤ 77 }
    {
        self.add(name);
        self.add(b" ");
        self.add_operand(first);
        self.add(b",");
        self.add_operand(second);
    }

    /// Goes on by a mnemonic and three operands.
    fn add_three(&mut self, name: &[u8], first: Operand, second: Operand, third: Operand)
        requires name { length name.now ≤ 5 }
        requires room { length self.old ≤ 18 }
        ensures text { self.new ≡ self.old ++ of_three name.now (operand_text first) (operand_text second) (operand_text third) }
        ensures count { length self.new ≤ 77 }
    {
        self.add(name);
        self.add(b" ");
        self.add_operand(first);
        self.add(b",");
        self.add_operand(second);
        self.add(b",");
        self.add_operand(third);
    }

    /// Goes on by an instruction.
    pub fn add_instr(&mut self, instr: Instr)
        requires { length self.old ≤ 18 }
        ensures text { self.new ≡ self.old ++ instr_text instr }
        ensures count { length self.new ≤ 77 }
    {
        match instr {
            Instr::R { op, rd, rs1, rs2 } => self.add_three(
                name_of_r(op),
                Operand::Register(rd),
                Operand::Register(rs1),
                Operand::Register(rs2),
            ),
            Instr::I { op, rd, rs1, imm } => self.add_three(
                name_of_i(op),
                Operand::Register(rd),
                Operand::Register(rs1),
                Operand::Number(imm),
            ),
            Instr::Sh {
                op,
                rd,
                rs1,
                amount,
            } => self.add_three(
                name_of_shift(op),
                Operand::Register(rd),
                Operand::Register(rs1),
                Operand::Number(i32::from(amount)),
            ),
            Instr::S { op, rs1, rs2, imm } => self.add_two(
                name_of_store(op),
                Operand::Register(rs2),
                Operand::Address {
                    offset: imm,
                    base: rs1,
                },
            ),
            Instr::U { op, rd, high } => self.add_two(
                name_of_upper(op),
                Operand::Register(rd),
                Operand::High(high),
            ),
            Instr::L { op, rd, rs1, imm } => self.add_two(
                name_of_load(op),
                Operand::Register(rd),
                Operand::Address {
                    offset: imm,
                    base: rs1,
                },
            ),
            Instr::B { op, rs1, rs2, imm } => self.add_three(
                name_of_branch(op),
                Operand::Register(rs1),
                Operand::Register(rs2),
                Operand::Number(imm),
            ),
            Instr::Jal { rd, imm } => {
                self.add_two(b"jal", Operand::Register(rd), Operand::Number(imm));
            }
            Instr::Jalr { rd, rs1, imm } => self.add_two(
                b"jalr",
                Operand::Register(rd),
                Operand::Address {
                    offset: imm,
                    base: rs1,
                },
            ),
            Instr::Fence { .. } => self.add(b"fence"),
            Instr::Ecall => self.add(b"ecall"),
            Instr::Ebreak => self.add(b"ebreak"),
        }
    }

    /// Goes on by what a word stands for.
    pub fn add_meaning(&mut self, instr: Option<Instr>)
        requires { length self.old ≤ 18 }
        ensures text { self.new ≡ self.old ++ word_text instr }
        ensures count { length self.new ≤ 77 }
    {
        match instr {
            Some(instr) => self.add_instr(instr),
            None => self.add(b"none"),
        }
    }
}
