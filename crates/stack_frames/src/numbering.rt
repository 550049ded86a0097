//! The slots of a function, and their numbers.

ghost use Rattle.std.specs.Prelude.{◌≡◌, ◌^◌, ◌<◌, ◌++◌, ◌∷◌, [], length, map, nat_le, IfOk, OnOk};
ghost use Rattle.std.specs.List.{filter};
ghost use Rattle.std.specs.List.Sorted.{IsStrictlyIncreasing};
ghost use Rattle.pan_flow.specs.Functions.{variables, all_in_turn};
ghost use Rattle.word_lang.specs.Homes.{first_slot};
ghost use Rattle.word_lang.specs.Text.{flow_of, flow_of_function, variables_of, variables_read};
ghost use Rattle.stack_frames.specs.Frames.{AreSlots, handler_variables, number_in};

use pan_base::{Boxed, List, NoMemory};
use pan_stage::Handler;
use std::alloc::Global;
use word_lang::{Stmt, Test, WordFun};

/// The number of the first slot among homes; below stand registers.
pub const FIRST_SLOT: u32 = 32;

/// Puts variables at the end.
fn put_all(homes: &mut List<u32>, more: &[u32]) -> Result<(), NoMemory>
    ensures { OnOk result (homes.new ≡ homes.old ++ more.now) }
{
    for home in more {
        homes.push(*home)?;
    }
    Ok(())
}

/// Puts an operand's variable at the end.
fn put_operand(homes: &mut List<u32>, operand: Option<u32>) -> Result<(), NoMemory>
    ensures { OnOk result (homes.new ≡ homes.old ++ variables_of (operand ∷ [])) }
{
    match operand {
        None => Ok(()),
        Some(home) => put_all(homes, &[home]),
    }
}

/// Puts a test's variables at the end.
#[tactic(auto, using(crate::proofs::Rules::variables_rules))]
fn put_test(homes: &mut List<u32>, test: &Test) -> Result<(), NoMemory>
    ensures { OnOk result (homes.new ≡ homes.old ++ variables_read test.now) }
{
    put_operand(homes, test.left)?;
    put_operand(homes, test.right)
}

/// Puts the variables of a statement at the end, in the order of the text.
#[cycle(variables)]
#[tactic(auto, using(crate::proofs::Rules::variables_rules))]
fn put_variables(homes: &mut List<u32>, stmt: &Stmt) -> Result<(), NoMemory>
    ensures { OnOk result (homes.new ≡ homes.old ++ variables (flow_of stmt.now)) }
{
    match stmt {
        Stmt::Skip | Stmt::Break | Stmt::Continue => Ok(()),
        Stmt::Seq(all) => put_variables_of(homes, all.as_slice()),
        Stmt::Const(to, _) => put_all(homes, &[*to]),
        Stmt::Reg(_, to, first, second) => put_all(homes, &[*first, *second, *to]),
        Stmt::Imm(_, to, from, _) => put_all(homes, &[*from, *to]),
        Stmt::Sh(_, to, from, _) => put_all(homes, &[*from, *to]),
        Stmt::Load(_, to, from, _) => put_all(homes, &[*from, *to]),
        Stmt::Store(_, value, at, _) => put_all(homes, &[*at, *value]),
        Stmt::If(test, first, second) => {
            put_test(homes, test)?;
            put_variables(homes, first.get())?;
            put_variables(homes, second.get())
        }
        Stmt::While { before, test, body } => {
            put_variables_of(homes, before.as_slice())?;
            put_test(homes, test)?;
            put_variables(homes, body.get())
        }
        Stmt::Call {
            results,
            args,
            handler,
            ..
        } => {
            put_all(homes, args.as_slice())?;
            put_all(homes, results.as_slice())?;
            put_handler(homes, handler)
        }
        Stmt::TailCall { args, .. } => put_all(homes, args.as_slice()),
        Stmt::Return(words) => put_all(homes, words.as_slice()),
        Stmt::Raise(_, words) => put_all(homes, words.as_slice()),
        Stmt::SharedLoad(_, to, from, _) => put_all(homes, &[*from, *to]),
        Stmt::SharedStore(_, value, at, _) => put_all(homes, &[*at, *value]),
        Stmt::Foreign(_, conf, conf_len, array, array_len) => {
            put_all(homes, &[*conf, *conf_len, *array, *array_len])
        }
    }
}

/// The same of statements one after another.
#[cycle(variables)]
#[tactic(auto, using(crate::proofs::Rules::variables_rules))]
fn put_variables_of(homes: &mut List<u32>, stmts: &[Stmt]) -> Result<(), NoMemory>
    ensures { OnOk result (homes.new ≡ homes.old ++ variables (all_in_turn (map flow_of stmts.now))) }
{
    for stmt in stmts {
        put_variables(homes, stmt)?;
    }
    Ok(())
}

/// The same of a handler.
#[cycle(variables)]
#[tactic(auto, using(crate::proofs::Rules::variables_rules))]
fn put_handler(
    homes: &mut List<u32>,
    handler: &Option<Handler<Boxed<Stmt>>>,
) -> Result<(), NoMemory>
    ensures { OnOk result (homes.new ≡ homes.old ++ handler_variables handler.now) }
{
    match handler {
        None => Ok(()),
        Some(handler) => {
            put_all(homes, handler.variables.as_slice())?;
            put_variables(homes, handler.body.get())
        }
    }
}

/// The variables of a function, in the order of the text.
#[tactic(auto, using(crate::proofs::Rules::variables_rules))]
fn variables_of_function(alloc: Global, function: &WordFun) -> Result<List<u32>, NoMemory>
    ensures { IfOk result (λ homes. homes ≡ variables (flow_of_function function.now)) }
{
    let mut homes = List::new(alloc);
    put_all(&mut homes, function.params.as_slice())?;
    put_variables(&mut homes, &function.body)?;
    Ok(homes)
}

/// The slots that a function uses, each once, from the lowest to the highest. Their numbers are those below a `u32`'s most.
#[derive(Drop)]
pub struct Slots {
    pub homes: List<u32>,
    ghost rising: { IsStrictlyIncreasing homes },
    ghost few: { length homes < 2 ^ 32 },
}

impl Slots {
    /// The number of a slot: how many there are below it, which is its place among them.
    pub fn number(&self, home: u32) -> u32
        ensures { result ≡ number_in self.now.homes home }
    {
        match self.homes.as_slice().binary_search(&home) {
            Ok(place) | Err(place) => place as u32,
        }
    }
}

/// The homes that are slots, as they occur.
fn only_slots(alloc: Global, homes: &[u32]) -> Result<Vec<u32>, NoMemory>
    ensures { IfOk result (λ slots. slots.items ≡ filter (λ x. nat_le first_slot x) homes.now) }
{
    let mut slots = Vec::new(alloc);
    for home in homes {
        if *home >= FIRST_SLOT {
            slots.push(*home)?;
        }
    }
    Ok(slots)
}

/// The different slots among homes, from the lowest to the highest.
fn slots_among(alloc: Global, homes: &[u32]) -> Result<List<u32>, NoMemory>
    ensures slots { IfOk result (λ slots. AreSlots slots homes.now) }
    ensures rising { IfOk result IsStrictlyIncreasing }
{
    let mut slots = only_slots(alloc, homes)?;
    slots.sort_unstable();
    slots.dedup();
    Ok(List::from_vec(slots))
}

/// The slots of a function.
pub fn slots_of_function(alloc: Global, function: &WordFun) -> Result<Slots, NoMemory>
    ensures { IfOk result (λ slots. AreSlots slots.homes (variables (flow_of_function function.now))) }
{
    let homes = variables_of_function(alloc, function)?;
    let homes = slots_among(alloc, homes.as_slice())?;
    if homes.len() > 4_294_967_295 {
        return Err(NoMemory);
    }
    Ok(Slots { homes })
}
