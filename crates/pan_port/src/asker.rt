//! What runs and asks.

ghost use Rattle.std.specs.Prelude.{◌≡◌, ℕ, IfSome, IsSome};
ghost use Rattle.std.specs.Option.{option_map};
ghost use Rattle.pan_base.specs.Events.{asked, replied};
ghost use Rattle.pan_port.specs.Asker.{Meaning, AfterAdvance, Answers};
ghost use Rattle.pan_port.specs.Buffers.{BuffersFit};

use pan_base::{End, NoMemory, Reply, Request};

/// Why an advance paused.
#[derive(Clone, Copy, Debug, PartialEq, Eq)]
pub enum Pause {
    /// The budget is used.
    Spent,
    /// It asks.
    Asks,
    /// It has ended, neither by asking nor by want of steps.
    Ended(End),
}

/// What an advance did: how much of the budget it used, in steps or units of fuel, and why it paused.
#[derive(Clone, Copy, Debug, PartialEq, Eq)]
pub struct Advance {
    pub used: u64,
    pub pause: Pause,
}

/// Runs, and pauses at requests. The runner of sources and the machine are askers.
pub trait Asker {
    /// All that it means, by `specs/Asker.antt`.
    ghost meaning: { Self → Meaning };

    /// Goes on until the budget is used, it asks or it ends. One that asks or has ended stays as it is. `NoMemory` comes
    /// only from one that isn't frugal, and then always.
    fn advance(&mut self, budget: u64) -> Result<Advance, NoMemory>
        ensures { AfterAdvance (meaning self.old) (meaning self.new) budget result };

    /// What it asks, where it asks. No buffer is longer than `local_size`, and the name of a foreign call has no line feed.
    fn request(&self) -> Option<Request<'_>>
        ensures asks { option_map asked result ≡ (meaning self.now).pending }
        ensures buffers { IfSome result (λ q. BuffersFit q (meaning self.now).size) };

    /// Answers what it asks. A reply that doesn't fit ends it as stopped.
    fn answer(&mut self, reply: Reply<'_>)
        requires { IsSome (meaning self.old).pending }
        ensures { Answers (meaning self.old) (meaning self.new) (replied reply.entry) };

    /// The number of bytes of local memory.
    fn local_size(&self) -> usize
        ensures { result ≡ (meaning self.now).size };
}
