//! The variables that can be named at a place of a function, with their places.

ghost use Rattle.std.specs.Prelude.{◌≡◌, [], ◌∷◌, drop, OnOk, OnErr};
ghost use Rattle.pan_tree.specs.Scopes.{innermost};
ghost use Rattle.source_resolver.specs.Resolving.{count, with_variable};

use crate::numbers::Numbers;
use pan_base::NoMemory;
use std::alloc::Global;
use std::marker::Model;

/// The variables of the blocks that are open, the innermost first, each with its place.
#[derive(Drop)]
pub struct Places<'p> {
    alloc: Global,
    // the innermost last
    blocks: Vec<Numbers<'p>>,
    // how many variables they have together
    total: usize,
}

impl<'p> Model for Places<'p> {
    ghost use Rattle.std.specs.Prelude.{◌≡◌, ℕ, List, reverse};
    ghost use Rattle.source_resolver.specs.Resolving.{count};

    ghost Value = { List (List (List ℕ × ℕ)) };

    ghost view = { λ p. reverse p.blocks.items };

    ghost invariant = { λ p. p.total ≡ count (reverse p.blocks.items) };
}

impl<'p> Places<'p> {
    /// No block is open.
    pub fn new(alloc: Global) -> Self
        ensures { result ≡ [] }
    {
        Places {
            alloc,
            blocks: Vec::new(alloc),
            total: 0,
        }
    }

    /// How many variables there are: the place of the next.
    pub fn total(&self) -> usize
        ensures { result ≡ count self.now }
    {
        self.total
    }

    /// Opens a block with no variable yet. Without memory all stays as it was.
    pub fn enter(&mut self) -> Result<(), NoMemory>
        ensures opened { OnOk result (self.new ≡ [] ∷ self.old) }
        ensures kept { OnErr result (self.new ≡ self.old) }
    {
        self.blocks.push(Numbers::new(self.alloc))?;
        Ok(())
    }

    /// Closes the innermost block, whose variables are gone.
    pub fn leave(&mut self)
        ensures { self.new ≡ drop 1 self.old }
    {
        if let Some(block) = self.blocks.pop() {
            self.total -= block.len();
        }
    }

    /// The place of the innermost variable of this name.
    pub fn place(&self, name: &[u8]) -> Option<usize>
        ensures { result ≡ innermost name.now self.now }
    {
        let mut left = self.blocks.len();
        while left > 0 {
            left -= 1;
            if let Some(place) = self.blocks[left].find(name) {
                return Some(place);
            }
        }
        None
    }

    /// Declares a variable in the innermost block, where there is one: it gets the next place. Without memory all stays as it was.
    pub fn declare(&mut self, name: &'p [u8]) -> Result<(), NoMemory>
        ensures declared { OnOk result (self.new ≡ with_variable name.now self.old) }
        ensures kept { OnErr result (self.new ≡ self.old) }
    {
        let Some(next) = self.total.checked_add(1) else {
            return Err(NoMemory);
        };
        if let Some(block) = self.blocks.last_mut() {
            block.add(name, self.total)?;
            self.total = next;
        }
        Ok(())
    }
}
