//! Calls of the environment (RISC-V unprivileged ISA, section 2.8): an end that the program asks for, and calls of
//! foreign functions.

ghost use Rattle.std.specs.Prelude.{◌≡◌, ◌+◌, ◌<◌, ◌^◌, MatchOption, IsTrue, length, true, false};
ghost use Rattle.riscv_isa.specs.Regions.{is_in};
ghost use Rattle.riscv_isa.specs.Step.{ended, buffer};
ghost use Rattle.riscv_isa.specs.declared.place.Region.TheVariants.{Local};
ghost use Rattle.riscv_machine.specs.View.{IsUnrefused, IsKeptAtEnd, ending_of, is_inside};

use crate::machine::{Machine, MachineEnd, Phase};
use riscv_isa::{Buffer, Pending};

/// The end that a program asks for by its kind and a value.
fn end_of(kind: u64, value: u64) -> MachineEnd
    ensures { ending_of result ≡ ended kind value }
{
    match kind {
        0 => MachineEnd::Exit(value),
        1 => MachineEnd::Uncaught(value),
        2 => MachineEnd::Stack,
        _ => MachineEnd::Fault,
    }
}

impl Machine {
    ghost use Rattle.riscv_isa.specs.Step.{reg, foreign, ecall};
    ghost use Rattle.riscv_machine.specs.Machine.{state_of, config_of, HasSize};
    ghost use Rattle.riscv_machine.specs.declared.machine.Phase.TheVariants.{Running};

    /// The part of local memory of so many bytes from an address on, where all of it lies there.
    fn buffer(&self, addr: u64, count: u64) -> Option<Buffer>
        ensures { MatchOption result (is_in Local self.now.memory addr count ≡ false) (λ b.
            (is_in Local self.now.memory addr count ≡ true)
            × (b ≡ buffer addr count)
            × IsTrue (is_inside b (length self.now.memory.local))) }
    {
        if self.memory.is_local(addr, count) {
            Some(Buffer {
                at: addr - 0x1000_0000,
                count,
            })
        } else {
            None
        }
    }

    /// Asks a foreign function: the number in x14, on the buffers of x10 and x11 and of x12 and x13.
    fn call_foreign(&mut self)
        requires pc { self.old.pc + 4 < 2 ^ 64 }
        requires phase { self.old.phase ≡ Running }
        ensures config { config_of self.new ≡ foreign (state_of self.old) }
        ensures size { HasSize self.old self.new }
        ensures unrefused { IsUnrefused self.new.phase }
        ensures kept { IsKeptAtEnd self.new.phase (state_of self.old) (state_of self.new) }
    {
        let number = self.register(14);
        let conf = self.buffer(self.register(10), self.register(11));
        let array = self.buffer(self.register(12), self.register(13));
        match (conf, array) {
            (Some(conf), Some(array)) if number < self.image.name_count() as u64 => {
                let number = number as u32;
                self.phase = Phase::Waiting(Pending::Foreign {
                    number,
                    conf,
                    array,
                });
                self.pc += 4;
            }
            _ => self.phase = Phase::Ended(MachineEnd::Fault),
        }
    }

    /// ECALL: an end, or a call of a foreign function, by x17.
    pub(crate) fn call_environment(&mut self)
        requires pc { self.old.pc + 4 < 2 ^ 64 }
        requires phase { self.old.phase ≡ Running }
        ensures config { config_of self.new ≡ ecall (reg (state_of self.old) 17) (state_of self.old) }
        ensures size { HasSize self.old self.new }
        ensures unrefused { IsUnrefused self.new.phase }
        ensures kept { IsKeptAtEnd self.new.phase (state_of self.old) (state_of self.new) }
    {
        match self.register(17) {
            0 => self.phase = Phase::Ended(end_of(self.register(10), self.register(11))),
            1 => self.call_foreign(),
            _ => self.phase = Phase::Ended(MachineEnd::Fault),
        }
    }
}
