//! The walk over the calls, depth first, each function once: on the way down it finds a cycle, or on the way back what each function takes.

ghost use Rattle.std.specs.Prelude.{◌≡◌, ◌<◌, ◌≤◌, drop, length, slice_index_or, IfOk, OnOk, MatchOption};
ghost use Rattle.stack_bound.specs.Nodes.{calls_by, frame_by};
ghost use Rattle.stack_bound.specs.Walks.{AreSound, AreUnseen, GoesOn, IsFound, IsNext, IsWalk, IsWhole, main_of, way};
ghost use Rattle.stack_bound.specs.declared.walk.Mark.TheVariants as mark;

use crate::calls::{Call, Node};
use crate::cycle::from_least;
use crate::types::Bound;
use pan_base::{List, NoMemory};
use std::alloc::Global;

/// What the walk knows of a function.
#[derive(Clone, Copy, Drop)]
pub enum Mark {
    Unseen,
    /// Its calls are being looked at: it is at this place of the way from main.
    Open(usize),
    /// What it takes with all that it calls, in bytes.
    Done(u64),
}

/// A function on the way from main.
#[derive(Clone, Copy, Drop)]
pub struct Visit {
    pub function: u32,
    /// How many of its calls are still to be counted, which are the first ones.
    pub ahead: usize,
    /// What it takes with the other ones, in bytes.
    pub bytes: u64,
}

/// A walk that isn't over: the way from main to a function, each calling the next.
#[derive(Drop)]
pub struct Walk {
    /// Of each function, by its number.
    pub marks: List<Mark>,
    /// The way without its last function.
    pub callers: List<Visit>,
    pub current: Visit,
}

impl Visit {
    /// None of its calls is counted yet.
    fn new(nodes: &[Node], function: u32) -> Visit
        requires { function < length nodes.now }
        ensures { result ≡ record { function = function; ahead = length (calls_by nodes.now function); bytes = frame_by nodes.now function } }
    {
        let node = &nodes[function as usize];
        Visit {
            function,
            ahead: node.calls.len(),
            bytes: node.frame,
        }
    }

    /// The last call that isn't counted.
    fn next_call(&self, nodes: &[Node]) -> Option<Call>
        requires inside { self.now.function < length nodes.now }
        requires ahead { self.now.ahead ≤ length (calls_by nodes.now self.now.function) }
        ensures { MatchOption result (self.now.ahead ≡ 0) (IsNext nodes.now self.now) }
    {
        if self.ahead == 0 {
            return None;
        }
        Some(nodes[self.function as usize].calls.as_slice()[self.ahead - 1])
    }
}

/// So many functions are unseen.
fn unseen(alloc: Global, count: usize) -> Result<List<Mark>, NoMemory>
    ensures length { IfOk result (λ marks. length marks ≡ count) }
    ensures unseen { IfOk result AreUnseen }
{
    let mut marks = List::new(alloc);
    for _ in 0..count {
        marks.push(Mark::Unseen)?;
    }
    Ok(marks)
}

impl Walk {
    /// Main is on the way alone.
    fn new(alloc: Global, nodes: &[Node], main: u32) -> Result<Walk, NoMemory>
        requires main { main < length nodes.now }
        ensures walk { IfOk result (IsWalk nodes.now) }
        ensures main { IfOk result (λ walk. main_of walk ≡ main) }
    {
        let mut marks = unseen(alloc, nodes.len())?;
        marks.set(main as usize, Mark::Open(0));
        Ok(Walk {
            marks,
            callers: List::new(alloc),
            current: Visit::new(nodes, main),
        })
    }

    /// Goes on to a function that the current one calls next, and that wasn't seen.
    fn enter(&mut self, nodes: &[Node], call: Call) -> Result<(), NoMemory>
        requires sound { AreSound nodes.now }
        requires walk { IsWalk nodes.now self.old }
        requires next { IsNext nodes.now self.old.current call }
        requires unseen { slice_index_or self.old.marks call.function mark.Unseen ≡ mark.Unseen }
        ensures { OnOk result (GoesOn nodes.now self.old self.new) }
    {
        self.callers.push(self.current)?;
        self.current = Visit::new(nodes, call.function);
        self.marks
            .set(call.function as usize, Mark::Open(self.callers.len()));
        Ok(())
    }

    /// Counts the current function's next call, whose callee takes so many bytes with all that it calls.
    fn count(&mut self, nodes: &[Node], call: Call, below: u64)
        requires sound { AreSound nodes.now }
        requires walk { IsWalk nodes.now self.old }
        requires next { IsNext nodes.now self.old.current call }
        requires done { slice_index_or self.old.marks call.function mark.Unseen ≡ mark.Done below }
        ensures { GoesOn nodes.now self.old self.new }
    {
        let own = if call.tail {
            0
        } else {
            nodes[self.current.function as usize].frame
        };
        self.current.bytes = self.current.bytes.max(own + below);
        self.current.ahead -= 1;
    }

    /// Goes back to the caller of the current function, whose calls are all counted. The bytes of main where main is done.
    fn leave(&mut self, nodes: &[Node]) -> Option<u64>
        requires walk { IsWalk nodes.now self.old }
        requires counted { self.old.current.ahead ≡ 0 }
        ensures { MatchOption result (GoesOn nodes.now self.old self.new) (IsWhole nodes.now (main_of self.old)) }
    {
        let done = self.current;
        self.marks
            .set(done.function as usize, Mark::Done(done.bytes));
        match self.callers.pop() {
            Some(caller) => {
                self.current = caller;
                None
            }
            None => Some(done.bytes),
        }
    }

    /// The functions of the way from a place on.
    fn functions_from(&self, alloc: Global, place: usize) -> Result<Vec<u32>, NoMemory>
        requires { place ≤ length self.now.callers }
        ensures { IfOk result (λ functions. functions.items ≡ drop place (way self.now)) }
    {
        let mut functions = Vec::new(alloc);
        for visit in &self.callers.as_slice()[place..] {
            functions.push(visit.function)?;
        }
        functions.push(self.current.function)?;
        Ok(functions)
    }

    /// Looks at the current function's next call.
    fn step(&mut self, alloc: Global, nodes: &[Node]) -> Result<Option<Bound>, NoMemory>
        requires sound { AreSound nodes.now }
        requires walk { IsWalk nodes.now self.old }
        ensures { IfOk result (λ found. MatchOption found (GoesOn nodes.now self.old self.new) (IsFound nodes.now (main_of self.old))) }
    {
        let Some(call) = self.current.next_call(nodes) else {
            return Ok(self.leave(nodes).map(Bound::Bytes));
        };
        match self.marks.as_slice()[call.function as usize] {
            Mark::Unseen => self.enter(nodes, call)?,
            Mark::Done(below) => self.count(nodes, call, below),
            Mark::Open(place) => {
                let cycle = self.functions_from(alloc, place)?;
                return Ok(Some(Bound::Cycle(from_least(cycle))));
            }
        }
        Ok(None)
    }
}

/// Walks over all that main calls. `NoMemory` is the one error.
pub fn walk_from(alloc: Global, nodes: &[Node], main: u32) -> Result<Bound, NoMemory>
    requires sound { AreSound nodes.now }
    requires main { main < length nodes.now }
    ensures { IfOk result (IsFound nodes.now main) }
{
    let mut walk = Walk::new(alloc, nodes, main)?;
    'steps: loop {
        if let Some(bound) = walk.step(alloc, nodes)? {
            return Ok(bound);
        }
    }
}
