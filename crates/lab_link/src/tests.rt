//! Branches and jumps at the edges of their reach, and where the bytes of a far branch lead.

ghost use Rattle.std.specs.Prelude.{◌≡◌, ◌≤◌, IfOk};
ghost use Rattle.std.specs.List.{All};
ghost use Rattle.lab_lang.specs.Layout.{longest};
ghost use Rattle.lab_lang.specs.Needs.{code};
ghost use Rattle.lab_lang.specs.WellFormed.{IsLine};

use crate::growing::grow;
use crate::linking::link;
use lab_lang::{LabFun, LabProg, Line};
use pan_base::{Blob, Cmp, IOp, List, NoMemory, single};
use pan_stage::Program;
use riscv_isa::Instr;
use std::alloc::Global;
use std::test::Fail;

/// `addi x15, x15, 1`
const STEP: Instr = Instr::I {
    op: IOp::Addi,
    rd: 15,
    rs1: 15,
    imm: 1,
};

/// A branch to the end over 2,000 lines.
fn far_branch(alloc: Global) -> Result<List<Line>, NoMemory>
    ensures each { IfOk result (λ lines. All (IsLine 1) lines) }
    ensures long { IfOk result (λ lines. code lines ≡ 8016) }
{
    let mut lines = List::new(alloc);
    lines.push(Line::Branch(Cmp::Eq, 0, 0, 0))?;
    for _ in 0..2000_usize {
        lines.push(Line::Plain(STEP))?;
    }
    lines.push(Line::Label(0))?;
    lines.push(Line::Plain(Instr::Ecall))?;
    Ok(lines)
}

/// These lines, with one label and one function, whose cost allows 8,192 bytes of code.
fn program(alloc: Global, lines: List<Line>) -> Result<LabProg, NoMemory>
    requires each { All (IsLine 1) lines }
    requires long { code lines ≡ 8016 }
{
    let name = Blob::from_slice(alloc, b"main")?;
    let functions = single(alloc, LabFun { name, cost: 128 })?;
    let program = Program {
        functions,
        main: 0,
        exceptions: List::new(alloc),
        names: List::new(alloc),
        globals: List::new(alloc),
    };
    Ok(LabProg {
        program,
        lines,
        labels: 1,
    })
}

/// BNE over two words; AUIPC x9 with 0x2000; JALR x0, x9, -184: from 4 on that is 4 + 8192 - 184 = 8012, behind 3 + 2,000 words.
const FIRST: [u8; 12] = [
    0x63, 0x16, 0x00, 0x00, 0x97, 0x24, 0x00, 0x00, 0x67, 0x80, 0x84, 0xf4,
];

/// ECALL.
const END: [u8; 4] = [0x73, 0x00, 0x00, 0x00];

#[test]
fn links_a_far_branch(rt: HostRuntime) -> Result<(), Fail> {
    let alloc = rt.alloc();
    let lines = far_branch(alloc)?;
    let prog = program(alloc, lines)?;
    let code = link(alloc, &prog)?;
    let bytes = code.bytes.as_slice();
    assert!(rt; bytes.len() == 8016);
    assert_eq!(rt; &bytes[..12], FIRST.as_slice());
    assert_eq!(rt; &bytes[8012..], END.as_slice());
    let layout = code.layout.as_slice();
    assert!(rt; layout.len() == 2003);
    assert_eq!(rt; layout[0], (0, 3));
    assert_eq!(rt; layout[2001], (8012, 0));
    assert_eq!(rt; layout[2002], (8012, 1));
    Ok(())
}

/// A line and a label, the label behind it or before it.
fn ends(line: Line, forwards: bool) -> (Line, Line)
    requires line { IsLine 1 line }
    requires most { longest line ≤ 3 }
    ensures first { IsLine 1 result.0 }
    ensures last { IsLine 1 result.1 }
    ensures first_most { longest result.0 ≤ 3 }
    ensures last_most { longest result.1 ≤ 3 }
{
    if forwards {
        (line, Line::Label(0))
    } else {
        (Line::Label(0), line)
    }
}

/// So many steps between a line and its label.
fn steps_between(
    alloc: Global,
    line: Line,
    forwards: bool,
    steps: usize,
) -> Result<List<Line>, NoMemory>
    requires line { IsLine 1 line }
    requires most { longest line ≤ 3 }
    requires few { steps ≤ 300000 }
    ensures each { IfOk result (λ lines. All (IsLine 1) lines) }
    ensures most { IfOk result (λ lines. code lines ≤ 268439552) }
{
    let ends = ends(line, forwards);
    let mut lines = List::new(alloc);
    lines.push(ends.0)?;
    for _ in 0..steps {
        lines.push(Line::Plain(STEP))?;
    }
    lines.push(ends.1)?;
    Ok(lines)
}

/// How many instructions the line has with so many steps to its label, or none where the layout has no such line.
fn count_of(alloc: Global, line: Line, forwards: bool, steps: usize) -> Result<Option<u32>, Fail>
    requires line { IsLine 1 line }
    requires most { longest line ≤ 3 }
    requires few { steps ≤ 300000 }
{
    let lines = steps_between(alloc, line, forwards, steps)?;
    let grown = grow(alloc, lines.as_slice(), 1)?;
    let at = if forwards { 0 } else { steps + 1 };
    match grown.layout.as_slice().get(at) {
        Some(laid) => Ok(Some(laid.1)),
        None => Ok(None),
    }
}

/// On, the label is 4 bytes and 4 for each step away; back, it is 4 for each step. A branch reaches 4,092 on and 4,096 back; a
/// jump and a call 1,048,572 and 1,048,576.
#[test]
fn grows_at_the_edges(rt: HostRuntime) -> Result<(), Fail> {
    let alloc = rt.alloc();
    let branch = Line::Branch(Cmp::Ltu, 15, 16, 0);
    assert_eq!(rt; count_of(alloc, branch, true, 1022)?, Some(1));
    assert_eq!(rt; count_of(alloc, branch, true, 1023)?, Some(3));
    assert_eq!(rt; count_of(alloc, branch, false, 1024)?, Some(1));
    assert_eq!(rt; count_of(alloc, branch, false, 1025)?, Some(3));
    assert_eq!(rt; count_of(alloc, Line::Jump(0), true, 262142)?, Some(1));
    assert_eq!(rt; count_of(alloc, Line::Jump(0), true, 262143)?, Some(2));
    assert_eq!(rt; count_of(alloc, Line::Jump(0), false, 262144)?, Some(1));
    assert_eq!(rt; count_of(alloc, Line::Jump(0), false, 262145)?, Some(2));
    assert_eq!(rt; count_of(alloc, Line::CallTo(0), true, 262143)?, Some(2));
    assert_eq!(rt; count_of(alloc, Line::CallTo(0), false, 262144)?, Some(1));
    Ok(())
}
