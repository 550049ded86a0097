//! A runner of a program: it goes on over a stack of what waits, until it has no fuel, asks, or is over.

ghost use Rattle.std.specs.Prelude.{◌≡◌, ◌∷◌, [], ℕ, List, length, IsTrue, IfOk, IfSome, IfNone, MatchOption};
ghost use Rattle.source_resolver.specs.Slots.{Variables};
ghost use Rattle.pan_runner.specs.Machine.{or_fails, Runs, Enter};
ghost use Rattle.pan_runner.specs.View.{is_sound, config_in};
ghost use Rattle.pan_runner.specs.Halting.{Gives, Comes};

use crate::evaluating::{evaluate, evaluate_all, evaluate_word};
use crate::halt::Halt;
use crate::local_memory::LocalMemory;
use crate::phase::{Ending, Phase};
use crate::value::Value;
use crate::waiting::Waiting;
use pan_base::{List, NoMemory};
use pan_shapes::Checked;
use source_resolver::{Block, Expr, Program, resolve};
use std::alloc::Global;
use std::mem;

/// What `main` does first, by its number.
fn first_phase<'a>(alloc: Global, main: Option<usize>) -> Phase<'a>
    ensures begins { (u : Variables) (m : List ℕ) → config_in result u [] m ≡ or_fails main (λ f. Runs (Enter f []) [] m) }
    ensures sound { (size : ℕ) → IsTrue (is_sound result size) }
{
    match main {
        Some(f) => Phase::Enter(f, List::new(alloc)),
        None => Phase::Ended(Ending::Fails),
    }
}

/// Runs a program.
#[derive(Drop)]
pub struct Runner<'a> {
    pub(crate) alloc: Global,
    pub(crate) checked: &'a Checked,
    pub(crate) program: Program,
    pub(crate) phase: Phase<'a>,
    pub(crate) variables: List<Value>,
    pub(crate) frames: List<Waiting>,
    pub(crate) memory: LocalMemory,
    pub(crate) starved: bool,
    ghost sound: { IsTrue (is_sound phase (length memory)) },
}

impl<'a> Runner<'a> {
    ghost use Rattle.pan_tree.specs.Shapes.{zero_of};
    ghost use Rattle.pan_runner.specs.Told.{told, all_told};
    ghost use Rattle.source_resolver.specs.Slots.{value, word, values};
    ghost use Rattle.pan_runner.specs.Machine as machine;
    ghost use Rattle.pan_runner.specs.View.{frame_of, stepped, is_running, is_spending, fed};
    ghost use Rattle.pan_runner.specs.declared.phase.Phase.TheVariants as phase;
    ghost use Rattle.pan_runner.specs.declared.phase.Ending.TheVariants as ending;
    ghost use Rattle.pan_runner.specs.Runner.{config_of, variables_of, frames_of, names_of, meaning_of, Keeps, KeepsAll, Settled, Went};
    ghost use Rattle.pan_base.specs.Events.{Replied};
    ghost use Rattle.pan_tree.specs.Meaning.{source};
    ghost use Rattle.std.specs.Prelude.{None, false};

    /// A runner of a checked program, on a copy of this local memory.
    pub fn new(alloc: Global, checked: &'a Checked, memory: &[u8]) -> Result<Runner<'a>, NoMemory>
        ensures go { IfOk result (λ r. (replies : List Replied) (k : ℕ) → (meaning_of r).go replies k ≡ (source checked.now memory.now replies k).behaviour) }
        ensures runs { IfOk result (λ r. ((meaning_of r).ended ≡ None) × ((meaning_of r).pending ≡ None)) }
        ensures size { IfOk result (λ r. (meaning_of r).size ≡ length memory.now) }
        ensures fed { IfOk result (λ r. (meaning_of r).starved ≡ false) }
    {
        let program = resolve(alloc, checked)?;
        let memory = LocalMemory::new(alloc, memory)?;
        let phase = first_phase(alloc, program.main);
        Ok(Runner {
            alloc,
            checked,
            program,
            phase,
            variables: List::new(alloc),
            frames: List::new(alloc),
            memory,
            starved: false,
        })
    }

    /// What an expression gives here.
    pub(crate) fn value_of(&self, expr: &Expr) -> Result<Value, Halt>
        ensures { Gives told result (value expr.now (variables_of self.now) self.now.memory) }
    {
        evaluate(
            self.alloc,
            expr,
            self.variables.as_slice(),
            self.memory.as_slice(),
        )
    }

    /// The word that an expression gives here.
    pub(crate) fn word_of(&self, expr: &Expr) -> Result<u64, Halt>
        ensures { Gives (λ n. n) result (word expr.now (variables_of self.now) self.now.memory) }
    {
        evaluate_word(
            self.alloc,
            expr,
            self.variables.as_slice(),
            self.memory.as_slice(),
        )
    }

    /// What expressions give here.
    pub(crate) fn values_of(&self, exprs: &[Expr]) -> Result<List<Value>, Halt>
        ensures { Gives all_told result (values exprs.now (variables_of self.now) self.now.memory) }
    {
        evaluate_all(
            self.alloc,
            exprs,
            self.variables.as_slice(),
            self.memory.as_slice(),
        )
    }

    /// Puts a frame on the stack.
    pub(crate) fn push(&mut self, frame: Waiting) -> Result<(), NoMemory>
        ensures frames { IfOk result (λ _. frames_of self.new ≡ frame_of frame ∷ frames_of self.old) }
        ensures keeps { KeepsAll self.old self.new }
    {
        self.frames.push(frame)?;
        Ok(())
    }

    /// Takes the frame on top.
    pub(crate) fn pop(&mut self) -> Option<Waiting>
        ensures frames { MatchOption result (frames_of self.old ≡ []) (λ k. frames_of self.old ≡ frame_of k ∷ frames_of self.new) }
        ensures empty { IfNone result (frames_of self.new ≡ []) }
        ensures keeps { KeepsAll self.old self.new }
    {
        self.frames.pop()
    }

    /// Puts a block on the stack, with all variables kept when it is left.
    pub(crate) fn open(&mut self, block: &Block) -> Result<(), NoMemory>
        ensures frames { IfOk result (λ _. frames_of self.new ≡ machine.Block (length (variables_of self.old)) block.now ∷ frames_of self.old) }
        ensures keeps { KeepsAll self.old self.new }
    {
        let block = block.share()?;
        let keep = self.variables.len();
        self.push(Waiting::Block {
            block,
            next: 0,
            keep,
        })?;
        Ok(())
    }

    /// Does what the phase says, where it runs. Kept apart from the steps of most statements, whose frame is small without it.
    #[inline(never)]
    fn follow_phase(&mut self) -> Result<(), Halt>
        ensures config { Comes result (config_of self.new) (stepped (names_of self.old) self.old.program (config_of self.old)) }
        ensures keeps { Keeps self.old self.new }
    {
        match mem::replace(&mut self.phase, Phase::Next) {
            Phase::Enter(function, args) => self.enter(function, args),
            Phase::Next => self.next(),
            Phase::Break => self.break_loop(),
            Phase::Continue => self.continue_loop(),
            Phase::Return(value) => self.give_back(value),
            Phase::Raise(exception, value) => self.raise(exception, value),
            Phase::Become(function, args) => self.replace(function, args),
            other => {
                self.phase = other;
                Ok(())
            }
        }
    }

    /// Takes a step, where it runs.
    fn take_step(&mut self) -> Result<(), Halt>
        ensures config { Comes result (config_of self.new) (stepped (names_of self.old) self.old.program (config_of self.old)) }
        ensures keeps { Keeps self.old self.new }
    {
        // the phase of most steps, from which nothing is to be taken
        if let Phase::Next = self.phase {
            self.next()
        } else {
            self.follow_phase()
        }
    }

    /// One step, where it runs. A step that fails ends the run.
    pub(crate) fn step(&mut self) -> Result<(), NoMemory>
        ensures config { IfOk result (λ _. config_of self.new ≡ stepped (names_of self.old) self.old.program (config_of self.old)) }
        ensures keeps { Keeps self.old self.new }
    {
        match self.take_step() {
            Ok(()) => Ok(()),
            Err(Halt::Fails) => {
                self.phase = Phase::Ended(Ending::Fails);
                Ok(())
            }
            Err(Halt::NoMemory) => Err(NoMemory),
        }
    }

    /// Whether it runs.
    pub(crate) fn is_running(&self) -> bool
        ensures { result ≡ is_running (config_of self.now) }
    {
        match &self.phase {
            Phase::Call(_, _) => false,
            Phase::TailCall(_, _) => false,
            Phase::Turn => false,
            Phase::Asks(_) => false,
            Phase::Refused(_) => false,
            Phase::Ended(_) => false,
            _ => true,
        }
    }

    /// Whether it waits for a unit of fuel.
    pub(crate) fn is_spending(&self) -> bool
        ensures { result ≡ is_spending (config_of self.now) }
    {
        match &self.phase {
            Phase::Call(_, _) => true,
            Phase::TailCall(_, _) => true,
            Phase::Turn => true,
            _ => false,
        }
    }

    /// Goes on with a unit of fuel.
    pub(crate) fn feed(&mut self)
        ensures config { config_of self.new ≡ fed (config_of self.old) }
        ensures keeps { Keeps self.old self.new }
    {
        self.phase = match mem::replace(&mut self.phase, Phase::Next) {
            Phase::Call(function, args) => Phase::Enter(function, args),
            Phase::TailCall(function, args) => Phase::Become(function, args),
            Phase::Turn => Phase::Next,
            other => other,
        };
    }

    /// Takes steps while it runs, which cost no fuel.
    pub(crate) fn settle(&mut self) -> Result<(), NoMemory>
        ensures settled { IfOk result (λ _. Settled self.old self.new) }
        ensures keeps { Keeps self.old self.new }
    {
        'steps: while self.is_running() {
            self.step()?;
        }
        Ok(())
    }

    /// Goes on until so many units are used, or until it asks or is over. How many it used.
    pub(crate) fn run(&mut self, budget: u64) -> Result<u64, NoMemory>
        ensures went { IfOk result (λ used. Went self.old self.new budget used) }
        ensures keeps { Keeps self.old self.new }
    {
        let mut used = 0;
        self.settle()?;
        'units: while used < budget {
            if !self.is_spending() {
                return Ok(used);
            }
            self.feed();
            self.settle()?;
            used += 1;
        }
        Ok(used)
    }
}
