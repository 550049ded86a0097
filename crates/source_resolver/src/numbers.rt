//! Names that stand for numbers.

ghost use Rattle.std.specs.Prelude.{◌≡◌, [], ◌∷◌, ◌++◌, length, OnOk, OnErr};
ghost use Rattle.pan_tree.specs.Scopes.{in_scope};

use indexmap::IndexMap;
use pan_base::NoMemory;
use std::alloc::Global;
use std::marker::Model;

/// Names, each with a number. Of those that are alike the first counts.
#[derive(Drop)]
pub struct Numbers<'p> {
    all: Vec<(&'p [u8], usize)>,
    firsts: IndexMap<&'p [u8], usize>,
}

impl<'p> Model for Numbers<'p> {
    ghost use Rattle.std.specs.Prelude.{◌≡◌, ℕ, List};
    ghost use Rattle.pan_tree.specs.Scopes.{in_scope};
    ghost use Rattle.source_resolver.specs.Numbering.{named};

    ghost Value = { List (List ℕ × ℕ) };

    ghost view = { λ n. named n.all.items };

    ghost invariant = { λ n. (q : List ℕ) → in_scope q (named n.firsts.entries) ≡ in_scope q (named n.all.items) };
}

impl<'p> Numbers<'p> {
    /// No names.
    pub fn new(alloc: Global) -> Numbers<'p>
        ensures { result ≡ [] }
    {
        Numbers {
            all: Vec::new(alloc),
            firsts: IndexMap::new(alloc),
        }
    }

    /// How many names there are.
    pub fn len(&self) -> usize
        ensures { result ≡ length self.now }
    {
        self.all.len()
    }

    /// The number of the first of this name.
    pub fn find(&self, name: &[u8]) -> Option<usize>
        ensures { result ≡ in_scope name.now self.now }
    {
        self.firsts.get(name).copied()
    }

    /// Adds a name. Without memory all stays as it was.
    pub fn add(&mut self, name: &'p [u8], number: usize) -> Result<(), NoMemory>
        ensures added { OnOk result (self.new ≡ self.old ++ (name.now, number) ∷ []) }
        ensures kept { OnErr result (self.new ≡ self.old) }
    {
        let is_known = self.find(name).is_some();
        self.all.push((name, number))?;
        if is_known {
            return Ok(());
        }
        match self.firsts.insert(name, number) {
            Ok(_) => Ok(()),
            Err(_) => {
                self.all.pop();
                Err(NoMemory)
            }
        }
    }
}
