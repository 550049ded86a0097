//! A machine, its start and its registers.

ghost use Rattle.std.specs.Prelude.{◌≡◌, ◌+◌, ◌≤◌, ◌<◌, ◌^◌, ℕ, List, length, IsTrue, IfOk};
ghost use Rattle.pan_base.specs.Events.{Replied};
ghost use Rattle.pan_base.specs.Lawful.{IsLawfulMemory, IsLawfulStack};
ghost use Rattle.riscv_isa.specs.Image.{are_foreign_names};
ghost use Rattle.riscv_isa.specs.Machine.{booted, machine};
ghost use Rattle.riscv_machine.specs.View.{is_lawful};

use crate::memory::DataMemory;
use image_file::Image;
use pan_base::NoMemory;
use riscv_isa::Pending;
use std::alloc::Global;

/// How a machine ends of itself.
#[derive(Clone, Copy, Debug, PartialEq, Eq)]
pub enum MachineEnd {
    /// The program returned this word.
    Exit(u64),
    /// The exception of this number left the program.
    Uncaught(u64),
    /// The stack was too small.
    Stack,
    /// An instruction that can't be done.
    Fault,
}

/// What a machine does.
#[derive(Clone, Copy, Debug, PartialEq, Eq)]
pub enum Phase {
    /// It runs.
    Running,
    /// It waits for a reply.
    Waiting(Pending),
    /// It was stopped by a reply that didn't fit what it asked.
    Refused(Pending),
    /// It ended.
    Ended(MachineEnd),
}

/// A machine with its image: RV64I with MUL and MULHU on a flat memory that is made once, at the start.
#[derive(Drop)]
pub struct Machine {
    pub(crate) registers: [u64; 32],
    pub(crate) pc: u64,
    pub(crate) image: Image,
    pub(crate) memory: DataMemory,
    pub(crate) phase: Phase,
    ghost code_fits: { length image.code ≤ 268439552 },
    ghost names_fit: { length image.names ≤ 1024 },
    ghost named: { IsTrue (are_foreign_names image.names) },
    ghost lawful: { IsTrue (is_lawful phase (length image.names) (length memory.local)) },
}

impl Machine {
    ghost use Rattle.riscv_isa.specs.Step.{Runs, reg, with_reg, next};
    ghost use Rattle.riscv_machine.specs.Machine.{state_of, config_of, meaning_of, HasSize};

    /// A machine at its start: x2 is the end of the stack, x3 the begin of the block and x4 that of the stack, local
    /// memory is a copy of `memory`, and the stack has `stack` bytes.
    pub fn boot(alloc: Global, image: Image, memory: &[u8], stack: u64) -> Result<Machine, NoMemory>
        requires memory { IsLawfulMemory memory.now }
        requires stack { IsLawfulStack stack }
        ensures config { IfOk result (λ m.
            config_of m ≡ Runs (booted image memory.now stack)) }
        ensures go { IfOk result (λ m. (replies : List Replied) (k : ℕ) →
            (meaning_of m).go replies k ≡ machine image memory.now stack replies k) }
    {
        // the image's lawfulness comes with its code
        let _code = image.code();
        let mut registers = [0; 32];
        registers[2] = 0x2000_0000 + stack;
        registers[3] = 0x0800_0000;
        registers[4] = 0x2000_0000;
        Ok(Machine {
            registers,
            pc: 0x1_0000_0000,
            image,
            memory: DataMemory::new(alloc, memory, stack)?,
            phase: Phase::Running,
        })
    }

    /// The value of a register, 0 for register 0.
    #[tactic(auto, unfolding(riscv_isa::specs::Step::reg))]
    pub fn register(&self, i: u8) -> u64
        requires { i < 32 }
        ensures { result ≡ reg (state_of self.now) i }
    {
        if i == 0 {
            0
        } else {
            self.registers[i as usize]
        }
    }

    /// The address of the instruction that is next.
    pub fn pc(&self) -> u64
        ensures { result ≡ (state_of self.now).pc }
    {
        self.pc
    }

    /// Writes a register. A write to register 0 is dropped.
    pub(crate) fn set_register(&mut self, rd: u8, value: u64)
        requires { rd < 32 }
        ensures state { state_of self.new ≡ with_reg (state_of self.old) rd value }
        ensures pc { self.new.pc ≡ self.old.pc }
        ensures phase { self.new.phase ≡ self.old.phase }
        ensures size { HasSize self.old self.new }
    {
        if rd != 0 {
            self.registers[rd as usize] = value;
        }
    }

    /// Writes a register, and goes to the next instruction.
    pub(crate) fn finish(&mut self, rd: u8, value: u64)
        requires rd { rd < 32 }
        requires pc { self.old.pc + 4 < 2 ^ 64 }
        ensures state { state_of self.new ≡ next (with_reg (state_of self.old) rd value) }
        ensures phase { self.new.phase ≡ self.old.phase }
        ensures size { HasSize self.old self.new }
    {
        self.set_register(rd, value);
        self.pc += 4;
    }
}
