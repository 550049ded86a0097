//! One step.

ghost use Rattle.std.specs.Prelude.{◌≡◌, ◌+◌, ◌<◌, ◌^◌, IfSome};
ghost use Rattle.riscv_isa.specs.Table.{InRange};
ghost use Rattle.riscv_machine.specs.View.{IsUnrefused, IsKeptAtEnd};

use crate::machine::{Machine, MachineEnd, Phase};
use crate::memory::read_word;
use crate::results::{i_result, plus, r_result, sh_result, stores, u_result};
use riscv_isa::{Instr, decode};

impl Machine {
    ghost use Rattle.riscv_isa.specs.Step.{fetched, decoded_some, act, step};
    ghost use Rattle.riscv_machine.specs.Machine.{state_of, config_of, HasSize};
    ghost use Rattle.riscv_machine.specs.declared.machine.Phase.TheVariants.{Running};

    /// The word at the program counter, where it lies in the code.
    fn fetch(&self) -> Option<u32>
        ensures word { result ≡ fetched (state_of self.now) }
        ensures pc { IfSome result (λ _. self.now.pc + 4 < 2 ^ 64) }
    {
        let code = self.image.code();
        let begin = 0x1_0000_0000;
        let count = code.len() as u64;
        if self.pc >= begin && count >= 4 && self.pc - begin <= count - 4 {
            Some(read_word(code, (self.pc - begin) as usize))
        } else {
            None
        }
    }

    /// The instruction at the program counter, where it lies in the code and its word stands for one.
    fn next_instruction(&self) -> Option<Instr>
        ensures value { result ≡ decoded_some (fetched (state_of self.now)) }
        ensures range { IfSome result InRange }
        ensures pc { IfSome result (λ _. self.now.pc + 4 < 2 ^ 64) }
    {
        match self.fetch() {
            Some(word) => decode(word),
            None => None,
        }
    }

    /// Does an instruction.
    fn act(&mut self, instr: Instr)
        requires range { InRange instr }
        requires pc { self.old.pc + 4 < 2 ^ 64 }
        requires phase { self.old.phase ≡ Running }
        ensures config { config_of self.new ≡ act instr (state_of self.old) }
        ensures size { HasSize self.old self.new }
        ensures unrefused { IsUnrefused self.new.phase }
        ensures kept { IsKeptAtEnd self.new.phase (state_of self.old) (state_of self.new) }
    {
        match instr {
            Instr::R { op, rd, rs1, rs2 } => {
                self.finish(rd, r_result(op, self.register(rs1), self.register(rs2)));
            }
            Instr::I { op, rd, rs1, imm } => self.finish(rd, i_result(op, self.register(rs1), imm)),
            Instr::Sh {
                op,
                rd,
                rs1,
                amount,
            } => self.finish(rd, sh_result(op, self.register(rs1), amount)),
            Instr::U { op, rd, high } => self.finish(rd, u_result(op, self.pc, high)),
            Instr::L { op, rd, rs1, imm } => self.load(op, rd, plus(self.register(rs1), imm)),
            Instr::S { op, rs1, rs2, imm } => {
                self.store(
                    stores(op),
                    plus(self.register(rs1), imm),
                    self.register(rs2),
                );
            }
            Instr::B { op, rs1, rs2, imm } => self.branch(op, rs1, rs2, imm),
            Instr::Jal { rd, imm } => self.jump_and_link(rd, plus(self.pc, imm)),
            Instr::Jalr { rd, rs1, imm } => self.jump_to_register(rd, rs1, imm),
            Instr::Fence { .. } => self.pc += 4,
            Instr::Ecall => self.call_environment(),
            Instr::Ebreak => self.phase = Phase::Ended(MachineEnd::Fault),
        }
    }

    /// Takes one step.
    #[tactic(auto, unfolding(riscv_isa::specs::Step::step))]
    pub(crate) fn step(&mut self)
        requires { self.old.phase ≡ Running }
        ensures config { config_of self.new ≡ step (state_of self.old) }
        ensures size { HasSize self.old self.new }
        ensures unrefused { IsUnrefused self.new.phase }
        ensures kept { IsKeptAtEnd self.new.phase (state_of self.old) (state_of self.new) }
    {
        match self.next_instruction() {
            Some(instr) => self.act(instr),
            None => self.phase = Phase::Ended(MachineEnd::Fault),
        }
    }
}
