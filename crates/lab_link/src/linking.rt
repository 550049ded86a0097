//! From a program of lines to its code.

ghost use Rattle.std.specs.Prelude.{IfOk};
ghost use Rattle.lab_link.specs.Linked.{IsLinked};

use crate::emit::emit;
use crate::growing::grow;
use lab_lang::LabProg;
use pan_base::{Blob, NoMemory};
use riscv_isa::{Code, spell};
use std::alloc::Global;

/// The code of a program of lines, and where each line stands in it. A branch, a jump and a call are one instruction where
/// that reaches the label; else a branch is three, and a jump and a call are two. `NoMemory` is the one error.
pub fn link(alloc: Global, prog: &LabProg) -> Result<Code, NoMemory>
    ensures { IfOk result (λ code. IsLinked prog.now.program prog.now.lines code.layout code.bytes) }
{
    let lines = prog.lines.as_slice();
    let grown = grow(alloc, lines, prog.labels)?;
    let instrs = emit(
        alloc,
        lines,
        grown.layout.as_slice(),
        grown.table.as_slice(),
    )?;
    let bytes = spell(alloc, instrs.as_slice())?;
    Ok(Code {
        bytes: Blob::from_vec(bytes),
        layout: grown.layout,
    })
}
