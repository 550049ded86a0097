//! Jumps and branches (RISC-V unprivileged ISA, section 2.5).

ghost use Rattle.std.specs.Prelude.{◌≡◌, ◌+◌, ◌<◌, ◌^◌};
ghost use Rattle.riscv_machine.specs.View.{IsUnrefused, IsKeptAtEnd};

use crate::machine::{Machine, MachineEnd, Phase};
use crate::results::plus;
use pan_base::Cmp;
use riscv_isa::Instr;

impl Machine {
    ghost use Rattle.riscv_isa.specs.Step.{jump, linked, act};
    ghost use Rattle.riscv_isa.specs.declared.instr.Instr.TheVariants as instr;
    ghost use Rattle.riscv_machine.specs.Machine.{state_of, config_of, HasSize};
    ghost use Rattle.riscv_machine.specs.declared.machine.Phase.TheVariants.{Running};

    /// Goes to an address. One that is no multiple of 4 is a fault.
    fn jump(&mut self, target: u64)
        requires { self.old.phase ≡ Running }
        ensures config { config_of self.new ≡ jump target (state_of self.old) }
        ensures size { HasSize self.old self.new }
        ensures unrefused { IsUnrefused self.new.phase }
        ensures kept { IsKeptAtEnd self.new.phase (state_of self.old) (state_of self.new) }
    {
        if target % 4 == 0 {
            self.pc = target;
        } else {
            self.phase = Phase::Ended(MachineEnd::Fault);
        }
    }

    /// Goes to an address, with that of the next instruction in a register. A fault writes no register.
    pub(crate) fn jump_and_link(&mut self, rd: u8, target: u64)
        requires rd { rd < 32 }
        requires pc { self.old.pc + 4 < 2 ^ 64 }
        requires phase { self.old.phase ≡ Running }
        ensures config { config_of self.new ≡ jump target (linked rd (state_of self.old)) }
        ensures size { HasSize self.old self.new }
        ensures unrefused { IsUnrefused self.new.phase }
        ensures kept { IsKeptAtEnd self.new.phase (state_of self.old) (state_of self.new) }
    {
        let next = self.pc + 4;
        self.jump(target);
        if let Phase::Running = self.phase {
            self.set_register(rd, next);
        }
    }

    /// JALR: to the sum of a register and an immediate, with bit 0 cleared.
    pub(crate) fn jump_to_register(&mut self, rd: u8, rs1: u8, imm: i32)
        requires rd { rd < 32 }
        requires rs1 { rs1 < 32 }
        requires pc { self.old.pc + 4 < 2 ^ 64 }
        requires phase { self.old.phase ≡ Running }
        ensures config { config_of self.new ≡ act (instr.Jalr rd rs1 imm) (state_of self.old) }
        ensures size { HasSize self.old self.new }
        ensures unrefused { IsUnrefused self.new.phase }
        ensures kept { IsKeptAtEnd self.new.phase (state_of self.old) (state_of self.new) }
    {
        let target = plus(self.register(rs1), imm) / 2 * 2;
        self.jump_and_link(rd, target);
    }

    /// Branches by an immediate where a comparison holds, or else goes to the next instruction.
    pub(crate) fn branch(&mut self, op: Cmp, rs1: u8, rs2: u8, imm: i32)
        requires rs1 { rs1 < 32 }
        requires rs2 { rs2 < 32 }
        requires pc { self.old.pc + 4 < 2 ^ 64 }
        requires phase { self.old.phase ≡ Running }
        ensures config { config_of self.new ≡ act (instr.B op rs1 rs2 imm) (state_of self.old) }
        ensures size { HasSize self.old self.new }
        ensures unrefused { IsUnrefused self.new.phase }
        ensures kept { IsKeptAtEnd self.new.phase (state_of self.old) (state_of self.new) }
    {
        if op.holds(self.register(rs1), self.register(rs2)) {
            self.jump(plus(self.pc, imm));
        } else {
            self.pc += 4;
        }
    }
}
