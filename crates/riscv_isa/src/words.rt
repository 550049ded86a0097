//! From instructions to the bytes of their words.

ghost use Rattle.std.specs.Prelude.{IfOk};
ghost use Rattle.std.specs.List.{All};
ghost use Rattle.riscv_isa.specs.Table.{InRange};
ghost use Rattle.riscv_isa.specs.Held.{Spells};

use crate::encoding::encode;
use crate::instr::Instr;
use pan_base::NoMemory;
use std::alloc::Global;

/// The words of the instructions, the low byte of each first.
pub fn spell(alloc: Global, instrs: &[Instr]) -> Result<Vec<u8>, NoMemory>
    requires { All InRange instrs.now }
    ensures { IfOk result (λ bytes. Spells bytes.items instrs.now) }
{
    let mut bytes = Vec::new(alloc);
    for instr in instrs {
        bytes.extend_from_slice(&encode(*instr).to_le_bytes())?;
    }
    Ok(bytes)
}
