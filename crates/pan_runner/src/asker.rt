//! The runner as what runs and asks.

ghost use Rattle.std.specs.Prelude.{◌≡◌, ◌↔◌, length, IsTrue};
ghost use Rattle.pan_base.specs.Events.{asked, replied, end_of, Fits};
ghost use Rattle.pan_port.specs.Buffers.{BuffersFit};

use crate::phase::{Ending, Phase};
use crate::questions::Question;
use crate::runner::Runner;
use crate::value::Value;
use crate::variables::assign;
use pan_base::{End, NoMemory, Reply, Request, fits};
use pan_port::{Advance, Asker, Pause};

impl Ending {
    ghost use Rattle.pan_runner.specs.View.{ending_of};

    /// The end as it is told.
    fn told(self) -> End
        ensures { result ≡ end_of (ending_of self) }
    {
        match self {
            Ending::Exit(word) => End::Exit(word),
            Ending::Uncaught(exception) => End::Uncaught(exception as u64),
            Ending::Fails => End::Fails,
        }
    }
}

impl<'a> Runner<'a> {
    ghost use Rattle.pan_runner.specs.Machine.{Next, Leave, Runs, request_of, variables_after, memory_after, replied_config};
    ghost use Rattle.pan_runner.specs.View.{pending_of, PausedAt};
    ghost use Rattle.pan_runner.specs.declared.phase.Phase.TheVariants as phase;
    ghost use Rattle.pan_runner.specs.Runner.{config_of, variables_of, frames_of, Keeps};

    /// Why it pauses here.
    fn pause(&self) -> Pause
        ensures { PausedAt self.now.phase result }
    {
        match &self.phase {
            Phase::Asks(_) => Pause::Asks,
            Phase::Refused(_) => Pause::Ended(End::Stopped),
            Phase::Ended(ending) => Pause::Ended(ending.told()),
            _ => Pause::Spent,
        }
    }

    /// What is asked, as the outside sees it.
    fn open_request(&self, question: Question<'a>) -> Request<'_>
        requires { self.now.phase ≡ phase.Asks question }
        ensures asks { asked result ≡ request_of (pending_of question.entry self.now.memory) }
        ensures buffers { BuffersFit result (length self.now.memory) }
    {
        match question {
            Question::Load { size, addr, .. } => Request::Load { size, addr },
            Question::Store { size, addr, value } => Request::Store { size, addr, value },
            Question::Foreign {
                number,
                name,
                conf,
                array,
            } => Request::Foreign {
                number,
                name,
                conf: self.memory.part(conf),
                array: self.memory.part(array),
            },
        }
    }

    /// Whether a reply fits what is asked.
    fn is_answered(&self, question: Question<'a>, reply: &Reply<'_>) -> bool
        requires { self.now.phase ≡ phase.Asks question }
        ensures { IsTrue result ↔ Fits (request_of (pending_of question.entry self.now.memory)) (replied reply.now) }
    {
        fits(&self.open_request(question), reply)
    }

    /// Goes on with a reply that fits.
    fn resume(&mut self, question: Question<'a>, reply: Reply<'_>)
        requires phase { self.old.phase ≡ phase.Asks question }
        requires fits { Fits (request_of (pending_of question self.old.memory)) (replied reply) }
        ensures config { config_of self.new ≡ Runs (Leave (Next (variables_after (pending_of question.entry self.old.memory) (replied reply.entry) (variables_of self.old)))) (frames_of self.old) (memory_after (pending_of question.entry self.old.memory) (replied reply.entry) self.old.memory) }
        ensures keeps { Keeps self.old self.new }
    {
        self.phase = Phase::Next;
        match (question, reply) {
            (Question::Load { place, .. }, Reply::Value(n)) => {
                assign(&mut self.variables, place, Value::Word(n));
            }
            (Question::Foreign { array, .. }, Reply::Bytes(bytes)) => {
                self.memory.replace(array.at, bytes);
            }
            // a store is done, and no other reply fits
            _ => {}
        }
    }

    /// Takes a reply to what is asked, and is stopped by one that doesn't fit.
    fn take(&mut self, question: Question<'a>, reply: Reply<'_>)
        requires { self.old.phase ≡ phase.Asks question }
        ensures config { config_of self.new ≡ replied_config (pending_of question.entry self.old.memory) (variables_of self.old) (frames_of self.old) self.old.memory (replied reply.entry) }
        ensures keeps { Keeps self.old self.new }
    {
        if self.is_answered(question, &reply) {
            self.resume(question, reply);
        } else {
            self.phase = Phase::Refused(question);
        }
    }
}

impl Asker for Runner<'_> {
    ghost use Rattle.pan_runner.specs.Runner.{meaning_of};

    ghost meaning = { meaning_of };

    fn advance(&mut self, budget: u64) -> Result<Advance, NoMemory> {
        if self.starved {
            return Err(NoMemory);
        }
        match self.run(budget) {
            Ok(used) => {
                let pause = self.pause();
                Ok(Advance { used, pause })
            }
            Err(NoMemory) => {
                self.starved = true;
                Err(NoMemory)
            }
        }
    }

    fn request(&self) -> Option<Request<'_>> {
        match self.phase {
            Phase::Asks(question) => Some(self.open_request(question)),
            _ => None,
        }
    }

    fn answer(&mut self, reply: Reply<'_>) {
        if let Phase::Asks(question) = self.phase {
            self.take(question, reply);
        }
    }

    fn local_size(&self) -> usize {
        self.memory.as_slice().len()
    }
}
