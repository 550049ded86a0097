//! The machine as what runs and asks.

ghost use Rattle.std.specs.Prelude.{◌≡◌, ◌+◌, ◌≤◌, ◌<◌, ◌↔◌, length, IsTrue, IfOk};
ghost use Rattle.pan_base.specs.Events.{asked, replied, end_of, Fits};
ghost use Rattle.pan_port.specs.Asker.{AfterAdvance};
ghost use Rattle.pan_port.specs.Buffers.{BuffersFit};
ghost use Rattle.riscv_isa.specs.Step.{request_of, resumed};
ghost use Rattle.riscv_machine.specs.View.{ending_of};
ghost use Rattle.riscv_machine.specs.Taking.{PausedAt};
ghost use Rattle.riscv_isa.specs.declared.pending.Pending.TheVariants as pending_of;

use crate::machine::{Machine, MachineEnd, Phase};
use crate::results::{l_result, loads};
use pan_base::{End, NoMemory, Reply, Request, fits};
use pan_port::{Advance, Asker, Pause};
use riscv_isa::{Buffer, Pending};

impl MachineEnd {
    /// The end as it is told.
    fn told(self) -> End
        ensures { result ≡ end_of (ending_of self) }
    {
        match self {
            MachineEnd::Exit(value) => End::Exit(value),
            MachineEnd::Uncaught(number) => End::Uncaught(number),
            MachineEnd::Stack => End::Stack,
            MachineEnd::Fault => End::Fault,
        }
    }
}

impl Machine {
    ghost use Rattle.riscv_isa.specs.Step.{Runs};
    ghost use Rattle.riscv_machine.specs.Machine.{state_of, config_of, HasSize, Ran, StandsAtEnd};
    ghost use Rattle.riscv_machine.specs.Taking.{config_after};
    ghost use Rattle.riscv_machine.specs.declared.machine.Phase.TheVariants.{Waiting};

    /// Takes steps while it runs and some of the budget are left. How many it took.
    fn run(&mut self, budget: u64) -> u64
        ensures ran { Ran self.old self.new budget result }
        ensures end { StandsAtEnd self.old self.new result }
    {
        let mut used = 0;
        'steps: while used < budget {
            let Phase::Running = self.phase else {
                return used;
            };
            self.step();
            used += 1;
        }
        used
    }

    /// Why it pauses here.
    fn pause(&self) -> Pause
        ensures { PausedAt self.now.phase result }
    {
        match self.phase {
            Phase::Running => Pause::Spent,
            Phase::Waiting(_) => Pause::Asks,
            Phase::Refused(_) => Pause::Ended(End::Stopped),
            Phase::Ended(end) => Pause::Ended(end.told()),
        }
    }

    /// A call of a foreign function as it is asked.
    fn foreign_request(&self, number: u32, conf: Buffer, array: Buffer) -> Request<'_>
        requires number { number < length self.now.image.names }
        requires conf { conf.at + conf.count ≤ length self.now.memory.local }
        requires array { array.at + array.count ≤ length self.now.memory.local }
        ensures asks { asked result ≡ request_of (pending_of.Foreign number conf array) (state_of self.now) }
        ensures buffers { BuffersFit result (length self.now.memory.local) }
    {
        Request::Foreign {
            number,
            name: self.image.name(number as usize),
            conf: self.memory.part(conf),
            array: self.memory.part(array),
        }
    }

    /// What is pending, as it is asked.
    fn pending_request(&self, pending: Pending) -> Request<'_>
        requires { self.now.phase ≡ Waiting pending }
        ensures asks { asked result ≡ request_of pending (state_of self.now) }
        ensures buffers { BuffersFit result (length self.now.memory.local) }
    {
        match pending {
            Pending::Load { op, addr, .. } => Request::Load {
                size: loads(op),
                addr,
            },
            Pending::Store { size, addr, value } => Request::Store { size, addr, value },
            Pending::Foreign {
                number,
                conf,
                array,
            } => self.foreign_request(number, conf, array),
        }
    }

    /// Whether a reply fits what is pending.
    fn is_answered(&self, pending: Pending, reply: &Reply<'_>) -> bool
        requires { self.now.phase ≡ Waiting pending }
        ensures { IsTrue result ↔ Fits (request_of pending (state_of self.now)) (replied reply.now) }
    {
        fits(&self.pending_request(pending), reply)
    }

    /// Goes on with a reply that fits.
    fn resume(&mut self, pending: Pending, reply: Reply<'_>)
        requires phase { self.old.phase ≡ Waiting pending }
        requires fits { Fits (request_of pending (state_of self.old)) (replied reply) }
        ensures config { config_of self.new ≡ Runs (resumed pending (state_of self.old) (replied reply.entry)) }
        ensures size { HasSize self.old self.new }
    {
        match (pending, reply) {
            (Pending::Load { op, rd, .. }, Reply::Value(n)) => {
                self.set_register(rd, l_result(op, n));
            }
            (Pending::Foreign { array, .. }, Reply::Bytes(bytes)) => {
                self.memory.replace(array.at, bytes);
            }
            // a store is done
            _ => {}
        }
        self.phase = Phase::Running;
    }

    /// Takes a reply to what is pending, and is stopped by one that doesn't fit.
    fn take(&mut self, pending: Pending, reply: Reply<'_>)
        requires { self.old.phase ≡ Waiting pending }
        ensures config { config_of self.new ≡ config_after pending (state_of self.old) (replied reply.entry) }
        ensures size { HasSize self.old self.new }
    {
        if self.is_answered(pending, &reply) {
            self.resume(pending, reply);
        } else {
            self.phase = Phase::Refused(pending);
        }
    }
}

impl Asker for Machine {
    ghost use Rattle.riscv_machine.specs.Machine.{meaning_of, StandsAtEnd};

    ghost meaning = { meaning_of };

    fn advance(&mut self, budget: u64) -> Result<Advance, NoMemory>
        ensures advances { AfterAdvance (meaning_of self.old) (meaning_of self.new) budget result }

        // The registers, the program counter and data memory of a machine that has ended are those with which it came to its last
        // instruction: one that can't be done writes nothing.
        ensures end { IfOk result (λ advance. StandsAtEnd self.old self.new advance.used) }
    {
        let used = self.run(budget);
        let pause = self.pause();
        Ok(Advance { used, pause })
    }

    fn request(&self) -> Option<Request<'_>> {
        match self.phase {
            Phase::Waiting(pending) => Some(self.pending_request(pending)),
            _ => None,
        }
    }

    fn answer(&mut self, reply: Reply<'_>) {
        if let Phase::Waiting(pending) = self.phase {
            self.take(pending, reply);
        }
    }

    fn local_size(&self) -> usize {
        self.memory.local().len()
    }
}
