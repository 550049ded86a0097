//! Loads and stores (RISC-V unprivileged ISA, section 2.6).

ghost use Rattle.std.specs.Prelude.{◌≡◌, ◌+◌, ◌<◌, ◌^◌};
ghost use Rattle.pan_base.specs.Events.{byte_count};
ghost use Rattle.riscv_isa.specs.Regions.{place_of};
ghost use Rattle.pan_base.specs.Results.{loads};
ghost use Rattle.riscv_machine.specs.View.{IsUnrefused, IsKeptAtEnd};

use crate::machine::{Machine, MachineEnd, Phase};
use crate::results::{l_result, loads};
use pan_base::{LOp, Size};
use riscv_isa::{Pending, Place};

impl Machine {
    ghost use Rattle.riscv_isa.specs.Step.{load, store};
    ghost use Rattle.riscv_machine.specs.Machine.{state_of, config_of, HasSize};
    ghost use Rattle.riscv_machine.specs.declared.machine.Phase.TheVariants.{Running};

    /// Reads into a register, or asks for what the shared window holds.
    pub(crate) fn load(&mut self, op: LOp, rd: u8, addr: u64)
        requires rd { rd < 32 }
        requires pc { self.old.pc + 4 < 2 ^ 64 }
        requires phase { self.old.phase ≡ Running }
        ensures config { config_of self.new ≡
            load (place_of self.old.memory addr (byte_count (loads op))) op rd addr (state_of self.old) }
        ensures size { HasSize self.old self.new }
        ensures unrefused { IsUnrefused self.new.phase }
        ensures kept { IsKeptAtEnd self.new.phase (state_of self.old) (state_of self.new) }
    {
        let size = loads(op);
        match self.memory.find_place(addr, size) {
            Place::In(region, at) => {
                let n = self.memory.read(region, at, size);
                self.finish(rd, l_result(op, n));
            }
            Place::Window => {
                self.phase = Phase::Waiting(Pending::Load { op, rd, addr });
                self.pc += 4;
            }
            Place::Nowhere => self.phase = Phase::Ended(MachineEnd::Fault),
        }
    }

    /// Writes a value's low bytes, or asks that they go to the shared window.
    pub(crate) fn store(&mut self, size: Size, addr: u64, value: u64)
        requires pc { self.old.pc + 4 < 2 ^ 64 }
        requires phase { self.old.phase ≡ Running }
        ensures config { config_of self.new ≡
            store (place_of self.old.memory addr (byte_count size)) size addr value (state_of self.old) }
        ensures size { HasSize self.old self.new }
        ensures unrefused { IsUnrefused self.new.phase }
        ensures kept { IsKeptAtEnd self.new.phase (state_of self.old) (state_of self.new) }
    {
        match self.memory.find_place(addr, size) {
            Place::In(region, at) => {
                self.memory.write(region, at, size, value);
                self.pc += 4;
            }
            Place::Window => {
                let value = size.cut(value);
                self.phase = Phase::Waiting(Pending::Store { size, addr, value });
                self.pc += 4;
            }
            Place::Nowhere => self.phase = Phase::Ended(MachineEnd::Fault),
        }
    }
}
