//! How statements and functions are left and entered.

ghost use Rattle.std.specs.Prelude.{◌≡◌, slice_get, drop, nat_eq, false};
ghost use Rattle.std.specs.Option.{option_map_or};
ghost use Rattle.pan_runner.specs.Halting.{Comes};

use crate::halt::Halt;
use crate::phase::{Ending, Phase};
use crate::runner::Runner;
use crate::value::Value;
use crate::values::as_word;
use crate::variables::{give, give_nothing, keep_first};
use crate::waiting::Waiting;
use pan_base::List;
use source_resolver::{Block, Handler};

/// Whether a handler catches an exception.
fn catches(handler: &Handler, exception: usize) -> bool
    ensures { result ≡ option_map_or (nat_eq exception) handler.now.exception false }
{
    match handler.exception {
        Some(caught) => exception == caught,
        None => false,
    }
}

impl Ending {
    ghost use Rattle.pan_control.specs.Runs.{exit_of};
    ghost use Rattle.pan_tree.specs.Value.{word_of};
    ghost use Rattle.pan_runner.specs.Told.{told};
    ghost use Rattle.pan_runner.specs.View.{ending_of};

    /// The end of a program whose main returned this value.
    fn of(value: &Value) -> Ending
        ensures { ending_of result ≡ exit_of (word_of (told value.now)) }
    {
        match as_word(value) {
            Some(word) => Ending::Exit(word),
            None => Ending::Fails,
        }
    }
}

impl<'a> Runner<'a> {
    ghost use Rattle.pan_runner.specs.Told.{told, all_told};
    ghost use Rattle.pan_runner.specs.Machine.{enter, catch, leave_frame};
    ghost use Rattle.pan_runner.specs.Machine as machine;
    ghost use Rattle.pan_runner.specs.View.{statement_at};
    ghost use Rattle.pan_runner.specs.declared.phase.Phase.TheVariants as phase;
    ghost use Rattle.pan_runner.specs.Runner.{config_of, variables_of, frames_of, names_of, begins, leaves, Keeps};

    /// Enters a function.
    pub(crate) fn enter(&mut self, function: usize, args: List<Value>) -> Result<(), Halt>
        requires { self.old.phase ≡ phase.Next }
        ensures config { Comes result (config_of self.new) (enter (slice_get self.old.program.functions function) (all_told args) (frames_of self.old) self.old.memory) }
        ensures keeps { Keeps self.old self.new }
    {
        let function = self.program.functions.get(function).ok_or(Halt::Fails)?;
        if args.len() != function.params {
            return Err(Halt::Fails);
        }
        let block = function.body.share()?;
        self.push(Waiting::Block {
            block,
            next: 0,
            keep: 0,
        })?;
        self.variables = args;
        Ok(())
    }

    /// Goes on in a block.
    fn go_on(&mut self, block: &Block, next: usize, keep: usize) -> Result<(), Halt>
        requires { self.old.phase ≡ phase.Next }
        ensures config { Comes result (config_of self.new) (leave_frame (names_of self.old) (machine.Next (variables_of self.old)) (machine.Block keep (drop next block.now)) (frames_of self.old) self.old.memory) }
        ensures keeps { Keeps self.old self.new }
    {
        let statements = block.get().as_slice();
        if next >= statements.len() {
            keep_first(&mut self.variables, keep);
            return Ok(());
        }
        let rest = block.share()?;
        self.push(Waiting::Block {
            block: rest,
            next: next + 1,
            keep,
        })?;
        self.begin(&statements[next], block, next)
    }

    /// Begins a loop again, the statement at an index of a block.
    fn go_round(&mut self, block: &Block, at: usize) -> Result<(), Halt>
        requires { self.old.phase ≡ phase.Next }
        ensures config { Comes result (config_of self.new) (begins self.old (statement_at block.now at)) }
        ensures keeps { Keeps self.old self.new }
    {
        let Some(statement) = block.get().get(at) else {
            return Ok(());
        };
        self.begin(statement, block, at)
    }

    /// A statement has ended normally.
    pub(crate) fn next(&mut self) -> Result<(), Halt>
        requires { self.old.phase ≡ phase.Next }
        ensures config { Comes result (config_of self.new) (leaves self.old (machine.Next (variables_of self.old))) }
        ensures keeps { Keeps self.old self.new }
    {
        match self.pop() {
            None => Err(Halt::Fails),
            Some(Waiting::Block { block, next, keep }) => { self.go_on(&block, next, keep) }
            Some(Waiting::Loop { block, at }) => self.go_round(&block, at),
            Some(Waiting::Called { .. }) => Err(Halt::Fails),
        }
    }

    /// A loop is left.
    pub(crate) fn break_loop(&mut self) -> Result<(), Halt>
        requires { self.old.phase ≡ phase.Next }
        ensures config { Comes result (config_of self.new) (leaves self.old (machine.Breaks (variables_of self.old))) }
        ensures keeps { Keeps self.old self.new }
    {
        match self.pop() {
            None => Err(Halt::Fails),
            Some(Waiting::Block { keep, .. }) => {
                keep_first(&mut self.variables, keep);
                self.phase = Phase::Break;
                Ok(())
            }
            Some(Waiting::Loop { .. }) => Ok(()),
            Some(Waiting::Called { .. }) => Err(Halt::Fails),
        }
    }

    /// A loop goes on with its next turn.
    pub(crate) fn continue_loop(&mut self) -> Result<(), Halt>
        requires { self.old.phase ≡ phase.Next }
        ensures config { Comes result (config_of self.new) (leaves self.old (machine.Continues (variables_of self.old))) }
        ensures keeps { Keeps self.old self.new }
    {
        match self.pop() {
            None => Err(Halt::Fails),
            Some(Waiting::Block { keep, .. }) => {
                keep_first(&mut self.variables, keep);
                self.phase = Phase::Continue;
                Ok(())
            }
            Some(Waiting::Loop { block, at }) => self.go_round(&block, at),
            Some(Waiting::Called { .. }) => Err(Halt::Fails),
        }
    }

    /// A function returns a value.
    pub(crate) fn give_back(&mut self, value: Value) -> Result<(), Halt>
        requires { self.old.phase ≡ phase.Next }
        ensures config { Comes result (config_of self.new) (leaves self.old (machine.Returns (told value))) }
        ensures keeps { Keeps self.old self.new }
    {
        match self.pop() {
            None => {
                self.phase = Phase::Ended(Ending::of(&value));
                Ok(())
            }
            Some(Waiting::Block { .. }) => {
                self.phase = Phase::Return(value);
                Ok(())
            }
            Some(Waiting::Loop { .. }) => {
                self.phase = Phase::Return(value);
                Ok(())
            }
            Some(
                Waiting::Called {
                    target,
                    variables,
                    ..
                },
            ) => {
                self.variables = variables;
                give(&mut self.variables, &target, value)?;
                Ok(())
            }
        }
    }

    /// An exception comes to a call, whose caller has its variables again.
    fn catch(
        &mut self,
        handler: Option<Handler>,
        exception: usize,
        value: Value,
    ) -> Result<(), Halt>
        requires { self.old.phase ≡ phase.Next }
        ensures config { Comes result (config_of self.new) (catch handler (variables_of self.old) exception (told value) (frames_of self.old) self.old.memory) }
        ensures keeps { Keeps self.old self.new }
    {
        let Some(handler) = handler else {
            self.phase = Phase::Raise(exception, value);
            return Ok(());
        };
        if !catches(&handler, exception) {
            self.phase = Phase::Raise(exception, value);
            return Ok(());
        }
        self.open(&handler.body)?;
        self.variables.push(value)?;
        Ok(())
    }

    /// An exception leaves a statement.
    pub(crate) fn raise(&mut self, exception: usize, value: Value) -> Result<(), Halt>
        requires { self.old.phase ≡ phase.Next }
        ensures config { Comes result (config_of self.new) (leaves self.old (machine.Raises exception (told value))) }
        ensures keeps { Keeps self.old self.new }
    {
        match self.pop() {
            None => {
                self.phase = Phase::Ended(Ending::Uncaught(exception));
                Ok(())
            }
            Some(Waiting::Block { .. }) => {
                self.phase = Phase::Raise(exception, value);
                Ok(())
            }
            Some(Waiting::Loop { .. }) => {
                self.phase = Phase::Raise(exception, value);
                Ok(())
            }
            Some(
                Waiting::Called {
                    target,
                    handler,
                    variables,
                },
            ) => {
                self.variables = variables;
                give_nothing(self.alloc, &mut self.variables, &target)?;
                self.catch(handler, exception, value)
            }
        }
    }

    /// A function takes the place of the running one.
    pub(crate) fn replace(&mut self, function: usize, args: List<Value>) -> Result<(), Halt>
        requires { self.old.phase ≡ phase.Next }
        ensures config { Comes result (config_of self.new) (leaves self.old (machine.Becomes function (all_told args))) }
        ensures keeps { Keeps self.old self.new }
    {
        match self.pop() {
            None => {
                self.phase = Phase::Enter(function, args);
                Ok(())
            }
            Some(Waiting::Block { .. }) => {
                self.phase = Phase::Become(function, args);
                Ok(())
            }
            Some(Waiting::Loop { .. }) => {
                self.phase = Phase::Become(function, args);
                Ok(())
            }
            Some(
                Waiting::Called {
                    target,
                    handler,
                    variables,
                },
            ) => {
                self.push(Waiting::Called {
                    target,
                    handler,
                    variables,
                })?;
                self.phase = Phase::Enter(function, args);
                Ok(())
            }
        }
    }
}
