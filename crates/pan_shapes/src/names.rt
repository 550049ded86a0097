//! Names in the order in which they came.

ghost use Rattle.std.specs.Prelude.{◌≡◌, ◌<◌, [], length, slice_get, Some, position, IfOk, OnOk};
ghost use Rattle.std.specs.List.{list_any};
ghost use Rattle.std.specs.Str.{bytes_eq};
ghost use Rattle.pan_tree.specs.Check.{with_name};

use indexmap::IndexSet;
use pan_base::{Blob, List, NoMemory};
use std::alloc::Global;
use std::marker::Model;

/// Names, each once, in the order in which they came.
#[derive(Drop)]
pub struct Names<'p> {
    set: IndexSet<&'p [u8]>,
}

impl<'p> Model for Names<'p> {
    ghost use Rattle.std.specs.Prelude.{List, ℕ, map};

    ghost Value = { List (List ℕ) };

    ghost view = { λ n. map (λ k. k.now) n.set.keys };
}

impl<'p> Names<'p> {
    /// No names.
    pub fn new(alloc: Global) -> Names<'p>
        ensures { result ≡ [] }
    {
        Names {
            set: IndexSet::new(alloc),
        }
    }

    /// The number of names.
    pub fn len(&self) -> usize
        ensures { result ≡ length self.now }
    {
        self.set.len()
    }

    /// Where the name stands.
    pub fn position(&self, name: &[u8]) -> Option<usize>
        ensures { result ≡ position (λ y. bytes_eq y name.now) self.now }
    {
        self.set.get_index_of(name)
    }

    /// Whether the name is among them.
    pub fn contains(&self, name: &[u8]) -> bool
        ensures { result ≡ list_any (λ y. bytes_eq y name.now) self.now }
    {
        self.set.contains(name)
    }

    /// Adds a name, if it is new.
    pub fn add(&mut self, name: &'p [u8]) -> Result<(), NoMemory>
        ensures { OnOk result (self.new ≡ with_name name.now self.old) }
    {
        self.set.insert(name)?;
        Ok(())
    }

    /// A copy of each.
    pub fn copy(&self, alloc: Global) -> Result<List<Blob>, NoMemory>
        ensures { IfOk result (λ all. all ≡ self.now) }
    {
        let mut all = List::new(alloc);
        for name in self.set.as_slice() {
            all.push(Blob::from_slice(alloc, *name)?)?;
        }
        Ok(all)
    }
}
