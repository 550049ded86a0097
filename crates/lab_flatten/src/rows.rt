//! Fixed rows of lines in functions.

ghost use Rattle.std.specs.Prelude.{◌≡◌, ℕ, ◌+◌, ◌^◌, ◌<◌, ◌≤◌, ◌++◌, [], ◌∷◌, pos, negsuc, IfOk, OnOk};
ghost use Rattle.lab_flatten.specs.Flatten.{high, low, reach, base, rest, where_some, slot_at, below, front_lines, off, pushed};
ghost use Rattle.lab_lang.specs.declared.syntax.Line.TheVariants as line;
ghost use Rattle.stack_lang.specs.Shown.{zero_extending, storing, load_of, store_of};
ghost use Rattle.riscv_isa.specs.declared.instr.Instr.TheVariants as instr;
ghost use Rattle.pan_base.specs.declared.operators.Cmp.TheVariants.{Eq, Ltu, Ne};
ghost use Rattle.pan_base.specs.declared.operators.LOp.TheVariants.{Ld};
ghost use Rattle.pan_base.specs.declared.operators.SOp.TheVariants.{Sd};
ghost use Rattle.pan_base.specs.declared.operators.IOp.TheVariants.{Addi};

use lab_lang::Line;
use pan_base::{Cmp, IOp, LOp, List, NoMemory, ROp, SOp, Size, UOp};
use riscv_isa::Instr;

/// Puts a line at the end.
pub fn put(lines: &mut List<Line>, line: Line) -> Result<(), NoMemory>
    ensures { OnOk result (lines.new ≡ lines.old ++ line ∷ []) }
{
    lines.push(line)?;
    Ok(())
}

/// The sum of a register and a small number.
pub fn sum(rd: u8, rs1: u8, imm: i32) -> Line
    ensures { result ≡ line.Plain (instr.I Addi rd rs1 imm) }
{
    Line::Plain(Instr::I {
        op: IOp::Addi,
        rd,
        rs1,
        imm,
    })
}

/// A load of a word.
pub fn load(rd: u8, rs1: u8, imm: i32) -> Line
    ensures { result ≡ line.Plain (instr.L Ld rd rs1 imm) }
{
    Line::Plain(Instr::L {
        op: LOp::Ld,
        rd,
        rs1,
        imm,
    })
}

/// A store of a word.
fn store(rs1: u8, rs2: u8, imm: i32) -> Line
    ensures { result ≡ line.Plain (instr.S Sd rs1 rs2 imm) }
{
    Line::Plain(Instr::S {
        op: SOp::Sd,
        rs1,
        rs2,
        imm,
    })
}

/// The 20 bits of a LUI for an offset, and what is left.
fn parts(offset: u64) -> (u32, i32)
    requires { offset < 2 ^ 40 }
    ensures high { result.0 ≡ high offset }
    ensures low { result.1 ≡ low offset }
{
    let upper = ((offset + 2048) / 4096) as u32;
    let bits = (offset % 4096) as i32;
    if bits < 2048 {
        (upper, bits)
    } else {
        (upper, bits - 4096)
    }
}

/// Brings a place at an offset from x2 into reach: its base register, and the offset from it.
#[tactic(auto, using(crate::proofs::Rules::offset_rules))]
pub fn put_reach(lines: &mut List<Line>, offset: u64) -> Result<(u8, i32), NoMemory>
    requires { offset < 2 ^ 40 }
    ensures lines { OnOk result (lines.new ≡ lines.old ++ reach offset) }
    ensures place { IfOk result (λ at. (at.0 ≡ base offset) × (at.1 ≡ rest offset)) }
{
    if offset < 2048 {
        Ok((2, offset as i32))
    } else {
        let (high, low) = parts(offset);
        put(
            lines,
            Line::Plain(Instr::U {
                op: UOp::Lui,
                rd: 9,
                high,
            }),
        )?;
        put(
            lines,
            Line::Plain(Instr::R {
                op: ROp::Add,
                rd: 9,
                rs1: 9,
                rs2: 2,
            }),
        )?;
        Ok((9, low))
    }
}

/// Loads a slot, which stands behind so many words, into a register.
#[tactic(auto, using(crate::proofs::Rules::offset_rules))]
pub fn put_get(lines: &mut List<Line>, front: u64, register: u8, slot: u32) -> Result<(), NoMemory>
    requires { front < 2 ^ 8 }
    ensures { OnOk result (lines.new ≡ lines.old ++ (reach (slot_at front slot) ++ line.Plain (instr.L Ld register (base (slot_at front slot)) (rest (slot_at front slot))) ∷ [])) }
{
    let at = put_reach(lines, 8 * (front + slot as u64))?;
    put(lines, load(register, at.0, at.1))
}

/// Stores a register in a slot, which stands behind so many words.
#[tactic(auto, using(crate::proofs::Rules::offset_rules))]
pub fn put_put(lines: &mut List<Line>, front: u64, slot: u32, register: u8) -> Result<(), NoMemory>
    requires { front < 2 ^ 8 }
    ensures { OnOk result (lines.new ≡ lines.old ++ (reach (slot_at front slot) ++ line.Plain (instr.S Sd (base (slot_at front slot)) register (rest (slot_at front slot))) ∷ [])) }
{
    let at = put_reach(lines, 8 * (front + slot as u64))?;
    put(lines, store(at.0, register, at.1))
}

/// Brings the return address from the frame into x1, where the frame has it.
#[tactic(auto, using(crate::proofs::Rules::offset_rules))]
fn put_linked(lines: &mut List<Line>, front: u64) -> Result<(), NoMemory>
    ensures { OnOk result (lines.new ≡ lines.old ++ where_some front (line.Plain (instr.L Ld 1 2 (pos 0)) ∷ [])) }
{
    if front > 0 {
        put(lines, load(1, 2, 0))?;
    }
    Ok(())
}

/// Brings x2 to where it was before the frame, where there is one.
#[tactic(auto, using(crate::proofs::Rules::offset_rules))]
fn put_raised(lines: &mut List<Line>, size: u64) -> Result<(), NoMemory>
    requires { size < 2 ^ 40 }
    ensures { OnOk result (lines.new ≡ lines.old ++ where_some size (reach size ++ line.Plain (instr.I Addi 2 (base size) (rest size)) ∷ [])) }
{
    if size > 0 {
        let at = put_reach(lines, size)?;
        put(lines, sum(2, at.0, at.1))?;
    }
    Ok(())
}

/// Gives up the frame. Then comes the last line.
#[tactic(auto, using(crate::proofs::Rules::offset_rules))]
pub fn put_off(lines: &mut List<Line>, front: u64, size: u64, last: Line) -> Result<(), NoMemory>
    requires { size < 2 ^ 40 }
    ensures { OnOk result (lines.new ≡ lines.old ++ off front size (last ∷ [])) }
{
    put_linked(lines, front)?;
    put_raised(lines, size)?;
    put(lines, last)
}

/// Brings the place so far below x2 into x9.
#[tactic(auto, using(crate::proofs::Rules::offset_rules))]
pub fn put_below(lines: &mut List<Line>, size: u64) -> Result<(), NoMemory>
    requires some { 1 ≤ size }
    requires few { size < 2 ^ 40 }
    ensures { OnOk result (lines.new ≡ lines.old ++ below size) }
{
    if size < 2048 {
        put(lines, sum(9, 2, -(size as i32)))
    } else {
        let (high, low) = parts(size);
        put(
            lines,
            Line::Plain(Instr::U {
                op: UOp::Lui,
                rd: 9,
                high,
            }),
        )?;
        put(lines, sum(9, 9, low))?;
        put(
            lines,
            Line::Plain(Instr::R {
                op: ROp::Sub,
                rd: 9,
                rs1: 2,
                rs2: 9,
            }),
        )
    }
}

/// Makes a record in the frame the newest one.
#[tactic(auto, using(crate::proofs::Rules::offset_rules))]
pub fn put_pushed(lines: &mut List<Line>, handler: u32) -> Result<(), NoMemory>
    ensures { OnOk result (lines.new ≡ lines.old ++ pushed handler []) }
{
    put(lines, store(2, 8, 8))?;
    put(lines, Line::Address(9, handler))?;
    put(lines, store(2, 9, 16))?;
    put(lines, sum(8, 2, 8))
}

/// The former record is the newest one again.
pub fn put_restored(lines: &mut List<Line>) -> Result<(), NoMemory>
    ensures { OnOk result (lines.new ≡ lines.old ++ line.Plain (instr.L Ld 8 2 (pos 8)) ∷ []) }
{
    put(lines, load(8, 2, 8))
}

/// A small number in a register.
pub fn put_number(lines: &mut List<Line>, register: u8, number: i32) -> Result<(), NoMemory>
    ensures { OnOk result (lines.new ≡ lines.old ++ line.Plain (instr.I Addi register 0 number) ∷ []) }
{
    put(lines, sum(register, 0, number))
}

/// Makes a frame of this size, where it isn't empty, or goes to the stub where the stack has no room for it.
#[tactic(auto, using(crate::proofs::Rules::offset_rules))]
fn put_lowered(lines: &mut List<Line>, size: u64, stub: u32) -> Result<(), NoMemory>
    requires { size < 2 ^ 40 }
    ensures { OnOk result (lines.new ≡ lines.old ++ where_some size (below size ++ line.Branch Ltu 9 4 stub ∷ line.Plain (instr.I Addi 2 9 (pos 0)) ∷ [])) }
{
    if size > 0 {
        put_below(lines, size)?;
        put(lines, Line::Branch(Cmp::Ltu, 9, 4, stub))?;
        put(lines, sum(2, 9, 0))?;
    }
    Ok(())
}

/// Stores the return address in the frame, where it has a word for it.
#[tactic(auto, using(crate::proofs::Rules::offset_rules))]
fn put_link(lines: &mut List<Line>, front: u64) -> Result<(), NoMemory>
    ensures { OnOk result (lines.new ≡ lines.old ++ where_some front (line.Plain (instr.S Sd 2 1 (pos 0)) ∷ [])) }
{
    if front > 0 {
        put(lines, store(2, 1, 0))?;
    }
    Ok(())
}

/// What stands before a body, for a frame of this size with so many words before its slots.
#[tactic(auto, using(crate::proofs::Rules::offset_rules))]
pub fn put_entry(
    lines: &mut List<Line>,
    function: u32,
    front: u64,
    size: u64,
    stub: u32,
) -> Result<(), NoMemory>
    requires { size < 2 ^ 40 }
    ensures { OnOk result (lines.new ≡ lines.old ++ line.Label function ∷ front_lines front size stub) }
{
    put(lines, Line::Label(function))?;
    put_lowered(lines, size, stub)?;
    put_link(lines, front)
}

/// A small number as an immediate. Exceptions and foreign names are below 1,024, and no greater number comes here.
pub fn immediate(number: u32) -> Result<i32, NoMemory>
    ensures { IfOk result (λ imm. imm ≡ pos number) }
{
    if number < 2048 {
        Ok(number as i32)
    } else {
        Err(NoMemory)
    }
}

/// A call under a handler, up to where the former record is the newest one again.
#[tactic(auto, using(crate::proofs::Rules::offset_rules))]
pub fn put_guard(lines: &mut List<Line>, handler: u32, function: u32) -> Result<(), NoMemory>
    ensures { OnOk result (lines.new ≡ lines.old ++ pushed handler (line.CallTo function ∷ line.Plain (instr.L Ld 8 2 (pos 8)) ∷ [])) }
{
    put_pushed(lines, handler)?;
    put(lines, Line::CallTo(function))?;
    put_restored(lines)
}

/// What stands before a handler's block.
#[tactic(auto, using(crate::proofs::Rules::offset_rules))]
pub fn put_handler(
    lines: &mut List<Line>,
    end: u32,
    handler: u32,
    exception: u32,
    unwind: u32,
) -> Result<(), NoMemory>
    ensures { OnOk result (lines.new ≡ lines.old ++ line.Jump end ∷ line.Label handler ∷ line.Plain (instr.I Addi 9 0 (pos exception)) ∷ line.Branch Ne 1 9 unwind ∷ []) }
{
    let number = immediate(exception)?;
    put(lines, Line::Jump(end))?;
    put(lines, Line::Label(handler))?;
    put_number(lines, 9, number)?;
    put(lines, Line::Branch(Cmp::Ne, 1, 9, unwind))
}

/// An exception, in x1, and on to the newest record.
#[tactic(auto, using(crate::proofs::Rules::offset_rules))]
pub fn put_raise(lines: &mut List<Line>, exception: u32, unwind: u32) -> Result<(), NoMemory>
    ensures { OnOk result (lines.new ≡ lines.old ++ line.Plain (instr.I Addi 1 0 (pos exception)) ∷ line.Jump unwind ∷ []) }
{
    let number = immediate(exception)?;
    put_number(lines, 1, number)?;
    put(lines, Line::Jump(unwind))
}

/// The load of a size that extends with zeros.
fn loading_by(size: Size) -> LOp
    ensures { result ≡ zero_extending size }
{
    match size {
        Size::B1 => LOp::Lbu,
        Size::B2 => LOp::Lhu,
        Size::B4 => LOp::Lwu,
        Size::B8 => LOp::Ld,
    }
}

/// The store of a size.
fn storing_by(size: Size) -> SOp
    ensures { result ≡ storing size }
{
    match size {
        Size::B1 => SOp::Sb,
        Size::B2 => SOp::Sh,
        Size::B4 => SOp::Sw,
        Size::B8 => SOp::Sd,
    }
}

/// A load from the shared window.
pub fn shared_load(size: Size, rd: u8, rs1: u8, imm: i32) -> Line
    ensures { result ≡ line.Plain (load_of size rd rs1 imm) }
{
    Line::Plain(Instr::L {
        op: loading_by(size),
        rd,
        rs1,
        imm,
    })
}

/// A store to the shared window.
pub fn shared_store(size: Size, rs1: u8, rs2: u8, imm: i32) -> Line
    ensures { result ≡ line.Plain (store_of size rs1 rs2 imm) }
{
    Line::Plain(Instr::S {
        op: storing_by(size),
        rs1,
        rs2,
        imm,
    })
}

/// A call of a foreign function, by its number.
#[tactic(auto, using(crate::proofs::Rules::offset_rules))]
pub fn put_foreign(lines: &mut List<Line>, name: u32) -> Result<(), NoMemory>
    ensures { OnOk result (lines.new ≡ lines.old ++ line.Plain (instr.I Addi 14 0 (pos name)) ∷ line.Plain (instr.I Addi 17 0 (pos 1)) ∷ line.Plain instr.Ecall ∷ []) }
{
    let number = immediate(name)?;
    put_number(lines, 14, number)?;
    put_number(lines, 17, 1)?;
    put(lines, Line::Plain(Instr::Ecall))
}
