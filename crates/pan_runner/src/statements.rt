//! The first step of each kind of statement.

ghost use Rattle.std.specs.Prelude.{◌≡◌, Some, slice_get};
ghost use Rattle.pan_runner.specs.Halting.{Comes};

use crate::halt::Halt;
use crate::phase::Phase;
use crate::questions::{Question, is_shared};
use crate::runner::Runner;
use crate::variables::assign;
use crate::waiting::{Waiting, copy_target, share_handler};
use pan_base::{List, Size};
use source_resolver::{Block, Call, Expr, Stmt};
use std::mem;

impl<'a> Runner<'a> {
    ghost use Rattle.pan_runner.specs.Machine.{ask_foreign};
    ghost use Rattle.pan_runner.specs.declared.phase.Phase.TheVariants as phase;
    ghost use Rattle.pan_runner.specs.Runner.{config_of, variables_of, frames_of, names_of, begins, Keeps};
    ghost use Rattle.source_resolver.specs.declared.resolved.Stmt.TheVariants as stmt;

    /// Begins the statement at an index of a block.
    #[tactic(auto, using(crate::proofs::Equations::begin_rules))]
    pub(crate) fn begin(&mut self, statement: &Stmt, block: &Block, at: usize) -> Result<(), Halt>
        requires phase { self.old.phase ≡ phase.Next }
        requires place { slice_get block.now at ≡ Some statement.now }
        ensures config { Comes result (config_of self.new) (begins self.old statement.now) }
        ensures keeps { Keeps self.old self.new }
    {
        match statement {
            Stmt::Skip => Ok(()),
            Stmt::Declare(e) => self.declare(e),
            Stmt::Assign(place, e) => self.assign(*place, e),
            Stmt::StoreWords(a, e) => self.store_words(a, e),
            Stmt::StoreByte(a, e) => self.store_byte(a, e),
            Stmt::If(e, first, second) => self.choose(e, first, second),
            Stmt::While(e, body) => self.turn(e, body, block, at),
            Stmt::Break => {
                self.phase = Phase::Break;
                Ok(())
            }
            Stmt::Continue => {
                self.phase = Phase::Continue;
                Ok(())
            }
            Stmt::Call(call) => self.call(call),
            Stmt::Return(e) => self.give(e),
            Stmt::TailCall(function, args) => self.tail_call(*function, args),
            Stmt::Raise(exception, e) => self.throw(*exception, e),
            Stmt::SharedLoad(size, place, a) => self.ask_load(*size, *place, a),
            Stmt::SharedStore(size, a, e) => self.ask_store(*size, a, e),
            Stmt::Foreign(name, conf, conf_len, array, array_len) => {
                self.ask_foreign(*name, conf, conf_len, array, array_len)
            }
        }
    }

    /// Declares a variable.
    fn declare(&mut self, e: &Expr) -> Result<(), Halt>
        requires { self.old.phase ≡ phase.Next }
        ensures config { Comes result (config_of self.new) (begins self.old (stmt.Declare e.now)) }
        ensures keeps { Keeps self.old self.new }
    {
        let value = self.value_of(e)?;
        self.variables.push(value)?;
        Ok(())
    }

    /// Gives a variable a value.
    fn assign(&mut self, place: Option<usize>, e: &Expr) -> Result<(), Halt>
        requires { self.old.phase ≡ phase.Next }
        ensures config { Comes result (config_of self.new) (begins self.old (stmt.Assign place e.now)) }
        ensures keeps { Keeps self.old self.new }
    {
        let value = self.value_of(e)?;
        assign(&mut self.variables, place, value);
        Ok(())
    }

    /// Stores the words of a value.
    fn store_words(&mut self, a: &Expr, e: &Expr) -> Result<(), Halt>
        requires { self.old.phase ≡ phase.Next }
        ensures config { Comes result (config_of self.new) (begins self.old (stmt.StoreWords a.now e.now)) }
        ensures keeps { Keeps self.old self.new }
    {
        let addr = self.word_of(a)?;
        let value = self.value_of(e)?;
        if !self.memory.store_words(addr, &value) {
            return Err(Halt::Fails);
        }
        Ok(())
    }

    /// Stores the low byte of a word.
    fn store_byte(&mut self, a: &Expr, e: &Expr) -> Result<(), Halt>
        requires { self.old.phase ≡ phase.Next }
        ensures config { Comes result (config_of self.new) (begins self.old (stmt.StoreByte a.now e.now)) }
        ensures keeps { Keeps self.old self.new }
    {
        let addr = self.word_of(a)?;
        let word = self.word_of(e)?;
        if !self.memory.store_byte(addr, word) {
            return Err(Halt::Fails);
        }
        Ok(())
    }

    /// Begins one of two blocks.
    fn choose(&mut self, e: &Expr, first: &Block, second: &Block) -> Result<(), Halt>
        requires { self.old.phase ≡ phase.Next }
        ensures config { Comes result (config_of self.new) (begins self.old (stmt.If e.now first.now second.now)) }
        ensures keeps { Keeps self.old self.new }
    {
        let word = self.word_of(e)?;
        if word != 0 {
            self.open(first)?;
            Ok(())
        } else {
            self.open(second)?;
            Ok(())
        }
    }

    /// Tests a loop, the statement at an index of a block.
    fn turn(&mut self, e: &Expr, body: &Block, block: &Block, at: usize) -> Result<(), Halt>
        requires phase { self.old.phase ≡ phase.Next }
        requires place { slice_get block.now at ≡ Some (stmt.While e.now body.now) }
        ensures config { Comes result (config_of self.new) (begins self.old (stmt.While e.now body.now)) }
        ensures keeps { Keeps self.old self.new }
    {
        let word = self.word_of(e)?;
        if word == 0 {
            return Ok(());
        }
        let block = block.share()?;
        self.push(Waiting::Loop { block, at })?;
        self.open(body)?;
        self.phase = Phase::Turn;
        Ok(())
    }

    /// Calls a function.
    fn call(&mut self, call: &Call) -> Result<(), Halt>
        requires { self.old.phase ≡ phase.Next }
        ensures config { Comes result (config_of self.new) (begins self.old (stmt.Call call.now)) }
        ensures keeps { Keeps self.old self.new }
    {
        let function = call.function.ok_or(Halt::Fails)?;
        let args = self.values_of(call.args.as_slice())?;
        let target = copy_target(self.alloc, &call.into)?;
        let handler = share_handler(&call.handler)?;
        let variables = mem::replace(&mut self.variables, List::new(self.alloc));
        self.push(Waiting::Called {
            target,
            handler,
            variables,
        })?;
        self.phase = Phase::Call(function, args);
        Ok(())
    }

    /// Returns a value.
    fn give(&mut self, e: &Expr) -> Result<(), Halt>
        requires { self.old.phase ≡ phase.Next }
        ensures config { Comes result (config_of self.new) (begins self.old (stmt.Return e.now)) }
        ensures keeps { Keeps self.old self.new }
    {
        let value = self.value_of(e)?;
        self.phase = Phase::Return(value);
        Ok(())
    }

    /// Calls a function that takes the place of the running one.
    fn tail_call(&mut self, function: Option<usize>, args: &List<Expr>) -> Result<(), Halt>
        requires { self.old.phase ≡ phase.Next }
        ensures config { Comes result (config_of self.new) (begins self.old (stmt.TailCall function args.now)) }
        ensures keeps { Keeps self.old self.new }
    {
        let function = function.ok_or(Halt::Fails)?;
        let args = self.values_of(args.as_slice())?;
        self.phase = Phase::TailCall(function, args);
        Ok(())
    }

    /// Raises an exception.
    fn throw(&mut self, exception: Option<usize>, e: &Expr) -> Result<(), Halt>
        requires { self.old.phase ≡ phase.Next }
        ensures config { Comes result (config_of self.new) (begins self.old (stmt.Raise exception e.now)) }
        ensures keeps { Keeps self.old self.new }
    {
        let exception = exception.ok_or(Halt::Fails)?;
        let value = self.value_of(e)?;
        self.phase = Phase::Raise(exception, value);
        Ok(())
    }

    /// Asks for a load.
    fn ask_load(&mut self, size: Size, place: Option<usize>, a: &Expr) -> Result<(), Halt>
        requires { self.old.phase ≡ phase.Next }
        ensures config { Comes result (config_of self.new) (begins self.old (stmt.SharedLoad size place a.now)) }
        ensures keeps { Keeps self.old self.new }
    {
        let addr = self.word_of(a)?;
        if !is_shared(size, addr) {
            return Err(Halt::Fails);
        }
        self.phase = Phase::Asks(Question::Load { size, place, addr });
        Ok(())
    }

    /// Asks for a store.
    fn ask_store(&mut self, size: Size, a: &Expr, e: &Expr) -> Result<(), Halt>
        requires { self.old.phase ≡ phase.Next }
        ensures config { Comes result (config_of self.new) (begins self.old (stmt.SharedStore size a.now e.now)) }
        ensures keeps { Keeps self.old self.new }
    {
        let addr = self.word_of(a)?;
        let word = self.word_of(e)?;
        if !is_shared(size, addr) {
            return Err(Halt::Fails);
        }
        let value = size.cut(word);
        self.phase = Phase::Asks(Question::Store { size, addr, value });
        Ok(())
    }

    /// Asks for a foreign call.
    fn ask_foreign(
        &mut self,
        name: Option<usize>,
        conf: &Expr,
        conf_len: &Expr,
        array: &Expr,
        array_len: &Expr,
    ) -> Result<(), Halt>
        requires { self.old.phase ≡ phase.Next }
        ensures config { Comes result (config_of self.new) (begins self.old (stmt.Foreign name conf.now conf_len.now array.now array_len.now)) }
        ensures keeps { Keeps self.old self.new }
    {
        let name = name.ok_or(Halt::Fails)?;
        let conf_at = self.word_of(conf)?;
        let conf_count = self.word_of(conf_len)?;
        let array_at = self.word_of(array)?;
        let array_count = self.word_of(array_len)?;
        self.ask_buffers(name, conf_at, conf_count, array_at, array_count)
    }

    /// Asks for a foreign call on two buffers, each by its address and its length.
    fn ask_buffers(
        &mut self,
        name: usize,
        conf: u64,
        conf_len: u64,
        array: u64,
        array_len: u64,
    ) -> Result<(), Halt>
        requires { self.old.phase ≡ phase.Next }
        ensures config { Comes result (config_of self.new) (ask_foreign (names_of self.old) name conf conf_len array array_len (variables_of self.old) (frames_of self.old) self.old.memory) }
        ensures keeps { Keeps self.old self.new }
    {
        if name >= self.checked.name_count() {
            return Err(Halt::Fails);
        }
        let conf = self.memory.buffer(conf, conf_len).ok_or(Halt::Fails)?;
        let array = self.memory.buffer(array, array_len).ok_or(Halt::Fails)?;
        // a program that keeps every rule has few names
        let _program = self.checked.program();
        self.phase = Phase::Asks(Question::Foreign {
            number: name as u32,
            name: self.checked.name(name),
            conf,
            array,
        });
        Ok(())
    }
}
