//! Where the rule stands that answers a request.

ghost use Rattle.std.specs.Prelude.{◌≡◌, [], ◌∷◌, ◌++◌, length, List, OnOk, false};
ghost use Rattle.pan_base.specs.Events.{byte_count};
ghost use Rattle.device_script.specs.declared.rules.Rule.{Rule};
ghost use Rattle.device_script.specs.Index.{IsIndex, at_access, place_where};
ghost use Rattle.device_script.specs.Rules.{answers_load, answers_store, answers_call};
ghost use Rattle.device_script.specs.Script.{is_taken};

use crate::rules::Rule;
use pan_base::{NoMemory, Size};
use std::alloc::Global;
use std::collections::BTreeMap;

/// Where the rules stand that answer loads and stores, by the number of bytes and the address, and foreign calls, by the
/// name.
#[derive(Drop)]
pub struct Index {
    loads: BTreeMap<(u64, u64), usize>,
    stores: BTreeMap<(u64, u64), usize>,
    calls: BTreeMap<Vec<u8>, usize>,
}

/// What the map has for the access.
fn find(map: &BTreeMap<(u64, u64), usize>, size: Size, addr: u64) -> Option<usize>
    ensures { result ≡ at_access map.now (byte_count size) addr }
{
    map.get(&(size.bytes(), addr)).copied()
}

impl Index {
    /// The index of no rules.
    pub fn new(alloc: Global) -> Index
        ensures { IsIndex result [] }
    {
        Index {
            loads: BTreeMap::new(alloc),
            stores: BTreeMap::new(alloc),
            calls: BTreeMap::new(alloc),
        }
    }

    /// The rule that answers loads there.
    pub fn load(&self, size: Size, addr: u64) -> Option<usize>
        ensures { (rules : List Rule) → IsIndex self.now rules → result ≡ place_where (λ r. answers_load r (byte_count size) addr) rules }
    {
        find(&self.loads, size, addr)
    }

    /// The rule that answers stores there.
    pub fn store(&self, size: Size, addr: u64) -> Option<usize>
        ensures { (rules : List Rule) → IsIndex self.now rules → result ≡ place_where (λ r. answers_store r (byte_count size) addr) rules }
    {
        find(&self.stores, size, addr)
    }

    /// The rule that answers foreign calls of the name.
    pub fn call(&self, name: &[u8]) -> Option<usize>
        ensures { (rules : List Rule) → IsIndex self.now rules → result ≡ place_where (λ r. answers_call r name.now) rules }
    {
        self.calls.get(name).copied()
    }

    /// Whether one of the rules answers what this one would.
    pub fn is_taken(&self, rule: &Rule) -> bool
        ensures { (rules : List Rule) → IsIndex self.now rules → result ≡ is_taken rules rule.now }
    {
        match rule {
            Rule::Register { size, addr, .. } => {
                self.load(*size, *addr).is_some() || self.store(*size, *addr).is_some()
            }
            Rule::Queue { size, addr, .. } => self.load(*size, *addr).is_some(),
            Rule::Counter { size, addr, .. } => self.load(*size, *addr).is_some(),
            Rule::Collector { size, addr, .. } => self.store(*size, *addr).is_some(),
            Rule::Foreign { name, .. } => self.call(name.as_slice()).is_some(),
        }
    }

    /// Puts the next rule in, which answers nothing that one of the others does.
    pub fn insert(&mut self, alloc: Global, rule: &Rule, at: usize) -> Result<(), NoMemory>
        ensures { OnOk result ((rules : List Rule) → IsIndex self.old rules → at ≡ length rules
            → is_taken rules rule.now ≡ false → IsIndex self.new (rules ++ rule.now ∷ [])) }
    {
        match rule {
            Rule::Register { size, addr, .. } => {
                self.loads.insert((size.bytes(), *addr), at)?;
                self.stores.insert((size.bytes(), *addr), at)?;
            }
            Rule::Queue { size, addr, .. } => {
                self.loads.insert((size.bytes(), *addr), at)?;
            }
            Rule::Counter { size, addr, .. } => {
                self.loads.insert((size.bytes(), *addr), at)?;
            }
            Rule::Collector { size, addr, .. } => {
                self.stores.insert((size.bytes(), *addr), at)?;
            }
            Rule::Foreign { name, .. } => {
                self.calls
                    .insert(Vec::from_slice(alloc, name.as_slice())?, at)?;
            }
        }
        Ok(())
    }
}
