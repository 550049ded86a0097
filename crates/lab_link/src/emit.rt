//! The instructions of lines.

ghost use Rattle.std.specs.Prelude.{◌≡◌, ℕ, ◌+◌, ◌<◌, ◌≤◌, ◌++◌, length, Option, OnOk, IfOk, slice_index};
ghost use Rattle.std.specs.List.{All};
ghost use Rattle.riscv_isa.specs.Ways.{way, high_of, low_of};
ghost use Rattle.lab_lang.specs.Layout.{address_of, IsLayout};
ghost use Rattle.lab_lang.specs.Needs.{code};
ghost use Rattle.lab_lang.specs.WellFormed.{IsLine};
ghost use Rattle.lab_link.specs.Turns.{IsTable};
ghost use Rattle.lab_link.specs.Lowered.{inverse, far_jump, jump_by, branch_by, address_by, lowered, all_lowered};

use lab_lang::Line;
use pan_base::{Cmp, IOp, List, NoMemory, UOp};
use riscv_isa::Instr;
use std::alloc::Global;

/// The way from a place to another one, in bytes of code: the 20 bits of an AUIPC there, and what is left for the
/// instruction after it.
fn split_way(from: u32, to: u32) -> (u32, i32)
    requires from { from < 0x30000000 }
    requires to { to ≤ 0x30000000 }
    ensures high { result.0 ≡ high_of (address_of from) (address_of to) }
    ensures low { result.1 ≡ low_of (address_of from) (address_of to) }
{
    let distance = to.wrapping_sub(from);
    let high = distance.wrapping_add(2048) / 4096;
    let bits = (distance % 4096) as i32;
    if bits < 2048 {
        (high, bits)
    } else {
        (high, bits - 4096)
    }
}

/// The way from a place to another one, in bytes of code, where one instruction has it whole.
fn whole_way(from: u32, to: u32) -> i32
    requires from { from < 0x30000000 }
    requires to { to ≤ 0x30000000 }
    ensures { result ≡ way (address_of from) (address_of to) }
{
    if from <= to {
        (to - from) as i32
    } else {
        -((from - to) as i32)
    }
}

/// The comparison that holds where another doesn't.
fn inverse_of(op: Cmp) -> Cmp
    ensures { result ≡ inverse op }
{
    match op {
        Cmp::Eq => Cmp::Ne,
        Cmp::Ne => Cmp::Eq,
        Cmp::Lt => Cmp::Ge,
        Cmp::Ge => Cmp::Lt,
        Cmp::Ltu => Cmp::Geu,
        Cmp::Geu => Cmp::Ltu,
    }
}

/// Puts a jump by way of the register `by`, which links in `rd`, at the end.
fn push_far_jump(
    instrs: &mut List<Instr>,
    rd: u8,
    by: u8,
    from: u32,
    to: u32,
) -> Result<(), NoMemory>
    requires from { from < 0x30000000 }
    requires to { to ≤ 0x30000000 }
    ensures { OnOk result (instrs.new ≡ instrs.old ++ far_jump rd by (address_of from) (address_of to)) }
{
    let (high, imm) = split_way(from, to);
    instrs.push(Instr::U {
        op: UOp::Auipc,
        rd: by,
        high,
    })?;
    instrs.push(Instr::Jalr { rd, rs1: by, imm })?;
    Ok(())
}

/// Puts a jump of so many instructions, which links in `rd`, at the end: a JAL, or one by way of the register `by`.
fn push_jump(
    instrs: &mut List<Instr>,
    count: u32,
    rd: u8,
    by: u8,
    from: u32,
    to: u32,
) -> Result<(), NoMemory>
    requires from { from < 0x30000000 }
    requires to { to ≤ 0x30000000 }
    ensures { OnOk result (instrs.new ≡ instrs.old ++ jump_by count rd by (address_of from) (address_of to)) }
{
    if count == 1 {
        instrs.push(Instr::Jal {
            rd,
            imm: whole_way(from, to),
        })?;
    } else {
        push_far_jump(instrs, rd, by, from, to)?;
    }
    Ok(())
}

/// Puts a branch of so many instructions at the end: one, or one by the inverse comparison over the two of a jump.
fn push_branch(
    instrs: &mut List<Instr>,
    count: u32,
    op: Cmp,
    rs1: u8,
    rs2: u8,
    from: u32,
    to: u32,
) -> Result<(), NoMemory>
    requires from { from + 4 < 0x30000000 }
    requires to { to ≤ 0x30000000 }
    ensures { OnOk result (instrs.new ≡ instrs.old ++ branch_by count op rs1 rs2 (address_of from) (address_of to)) }
{
    if count == 1 {
        instrs.push(Instr::B {
            op,
            rs1,
            rs2,
            imm: whole_way(from, to),
        })?;
    } else {
        instrs.push(Instr::B {
            op: inverse_of(op),
            rs1,
            rs2,
            imm: 12,
        })?;
        push_far_jump(instrs, 0, 9, from + 4, to)?;
    }
    Ok(())
}

/// Puts the two instructions at the end that make the address of a place in `rd`.
fn push_address(instrs: &mut List<Instr>, rd: u8, from: u32, to: u32) -> Result<(), NoMemory>
    requires from { from < 0x30000000 }
    requires to { to ≤ 0x30000000 }
    ensures { OnOk result (instrs.new ≡ instrs.old ++ address_by rd (address_of from) (address_of to)) }
{
    let (high, imm) = split_way(from, to);
    instrs.push(Instr::U {
        op: UOp::Auipc,
        rd,
        high,
    })?;
    instrs.push(Instr::I {
        op: IOp::Addi,
        rd,
        rs1: rd,
        imm,
    })?;
    Ok(())
}

/// Puts the so many instructions of a line at the end, which stands at the place `from`, each label at its place of the
/// table.
fn push_line(
    instrs: &mut List<Instr>,
    line: &Line,
    count: u32,
    from: u32,
    table: &[u32],
) -> Result<(), NoMemory>
    requires line { IsLine (length table.now) line.now }
    requires from { from + 4 < 0x30000000 }
    requires near { (l : ℕ) → l < length table.now → slice_index table.now l ≤ 0x30000000 }
    ensures { OnOk result ((f : ℕ → Option ℕ) → IsTable f table.now → instrs.new ≡ instrs.old ++ lowered line.now count (address_of from) f) }
{
    match line {
        Line::Label(_) => {}
        Line::Plain(instr) => instrs.push(*instr)?,
        Line::Jump(label) => push_jump(instrs, count, 0, 9, from, table[*label as usize])?,
        Line::Branch(op, rs1, rs2, label) => {
            push_branch(instrs, count, *op, *rs1, *rs2, from, table[*label as usize])?
        }
        Line::CallTo(label) => push_jump(instrs, count, 1, 1, from, table[*label as usize])?,
        Line::Address(rd, label) => push_address(instrs, *rd, from, table[*label as usize])?,
        Line::JumpReg(register) => instrs.push(Instr::Jalr {
            rd: 0,
            rs1: *register,
            imm: 0,
        })?,
    }
    Ok(())
}

/// The instructions of all lines at their places. `NoMemory` is the one error.
pub fn emit(
    alloc: Global,
    lines: &[Line],
    layout: &[(u32, u32)],
    table: &[u32],
) -> Result<List<Instr>, NoMemory>
    requires lines { All (IsLine (length table.now)) lines.now }
    requires layout { IsLayout 0 lines.now layout.now }
    requires most { code lines.now ≤ 268439552 }
    requires near { (l : ℕ) → l < length table.now → slice_index table.now l ≤ 0x30000000 }
    ensures { IfOk result (λ instrs. (f : ℕ → Option ℕ) → IsTable f table.now → instrs ≡ all_lowered lines.now layout.now f) }
{
    let mut instrs = List::new(alloc);
    for i in 0..lines.len() {
        let (place, count) = layout[i];
        push_line(&mut instrs, &lines[i], count, place, table)?;
    }
    Ok(instrs)
}
