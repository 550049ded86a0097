//! Fixed rows of lines outside of functions.

ghost use Rattle.std.specs.Prelude.{◌≡◌, ◌++◌, [], ◌∷◌, pos, negsuc, OnOk};
ghost use Rattle.lab_flatten.specs.Flatten.{start_lines, stub_lines, unwind_lines};
ghost use Rattle.lab_lang.specs.declared.syntax.Line.TheVariants as line;
ghost use Rattle.riscv_isa.specs.declared.instr.Instr.TheVariants as instr;
ghost use Rattle.pan_base.specs.declared.operators.Cmp.TheVariants.{Eq};
ghost use Rattle.pan_base.specs.declared.operators.LOp.TheVariants.{Ld};
ghost use Rattle.pan_base.specs.declared.operators.IOp.TheVariants.{Addi};

use crate::rows::{load, put, sum};
use lab_lang::Line;
use pan_base::{Cmp, List, NoMemory};
use riscv_isa::Instr;

/// What stands first.
#[tactic(auto, using(crate::proofs::Rules::offset_rules))]
pub fn put_start(lines: &mut List<Line>, main: u32) -> Result<(), NoMemory>
    ensures { OnOk result (lines.new ≡ lines.old ++ start_lines main) }
{
    put(lines, Line::CallTo(main))?;
    put(lines, sum(11, 10, 0))?;
    put(lines, sum(10, 0, 0))?;
    put(lines, sum(17, 0, 0))?;
    put(lines, Line::Plain(Instr::Ecall))
}

/// The end for want of stack.
#[tactic(auto, using(crate::proofs::Rules::offset_rules))]
pub fn put_stub(lines: &mut List<Line>, stub: u32) -> Result<(), NoMemory>
    ensures { OnOk result (lines.new ≡ lines.old ++ stub_lines stub) }
{
    put(lines, Line::Label(stub))?;
    put(lines, sum(17, 0, 0))?;
    put(lines, sum(10, 0, 2))?;
    put(lines, Line::Plain(Instr::Ecall))
}

/// The way to the newest record.
#[tactic(auto, using(crate::proofs::Rules::offset_rules))]
fn put_way(lines: &mut List<Line>, unwind: u32, uncaught: u32) -> Result<(), NoMemory>
    ensures { OnOk result (lines.new ≡ lines.old ++ line.Label unwind ∷ line.Branch Eq 8 0 uncaught ∷ line.Plain (instr.L Ld 9 8 (pos 8)) ∷ line.Plain (instr.I Addi 2 8 (negsuc 7)) ∷ line.Plain (instr.L Ld 8 8 (pos 0)) ∷ line.JumpReg 9 ∷ []) }
{
    put(lines, Line::Label(unwind))?;
    put(lines, Line::Branch(Cmp::Eq, 8, 0, uncaught))?;
    put(lines, load(9, 8, 8))?;
    put(lines, sum(2, 8, -8))?;
    put(lines, load(8, 8, 0))?;
    put(lines, Line::JumpReg(9))
}

/// The end where there is no record.
#[tactic(auto, using(crate::proofs::Rules::offset_rules))]
fn put_uncaught(lines: &mut List<Line>, uncaught: u32) -> Result<(), NoMemory>
    ensures { OnOk result (lines.new ≡ lines.old ++ line.Label uncaught ∷ line.Plain (instr.I Addi 17 0 (pos 0)) ∷ line.Plain (instr.I Addi 10 0 (pos 1)) ∷ line.Plain (instr.I Addi 11 1 (pos 0)) ∷ line.Plain instr.Ecall ∷ []) }
{
    put(lines, Line::Label(uncaught))?;
    put(lines, sum(17, 0, 0))?;
    put(lines, sum(10, 0, 1))?;
    put(lines, sum(11, 1, 0))?;
    put(lines, Line::Plain(Instr::Ecall))
}

/// The way to the newest record, and the end where there is none.
#[tactic(auto, using(crate::proofs::Rules::offset_rules))]
pub fn put_unwind(lines: &mut List<Line>, unwind: u32, uncaught: u32) -> Result<(), NoMemory>
    ensures { OnOk result (lines.new ≡ lines.old ++ unwind_lines unwind uncaught) }
{
    put_way(lines, unwind, uncaught)?;
    put_uncaught(lines, uncaught)
}
