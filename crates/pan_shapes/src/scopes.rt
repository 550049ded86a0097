//! The variables that can be named at a place, with their shapes.

ghost use Rattle.std.specs.Prelude.{◌≡◌, [], ◌∷◌, ◌++◌, drop, None, false, OnOk, OnErr};
ghost use Rattle.std.specs.Option.{option_copied};
ghost use Rattle.pan_tree.specs.Check as check;

use indexmap::IndexMap;
use pan_base::NoMemory;
use pan_tree::Shape;
use std::alloc::Global;
use std::marker::Model;

/// The variables of a block, in the order of their declarations.
#[derive(Drop)]
struct Block<'p> {
    variables: IndexMap<&'p [u8], Shape>,
}

impl<'p> Model for Block<'p> {
    ghost use Rattle.std.specs.Prelude.{ℕ, List, map};
    ghost use Rattle.pan_tree.specs.declared.shape.Shape.{Shape};

    ghost Value = { List (List ℕ × Shape) };

    ghost use Rattle.pan_tree.specs.contracts.shape.Shape as shape;
    ghost use Rattle.std.specs.Coded.{codes};

    ghost coded = { Prim.hlevel (codes, shape.the_row.coded) };

    ghost view = { λ b. map (λ v. (v.0.now, v.1)) b.variables.entries };
}

impl<'p> Block<'p> {
    /// A block with no variable yet.
    fn new(alloc: Global) -> Self
        ensures { result ≡ [] }
    {
        Block {
            variables: IndexMap::new(alloc),
        }
    }

    /// The shape of the variable, where the block has one of this name.
    fn shape(&self, name: &[u8]) -> Option<&Shape>
        ensures { option_copied result ≡ check.in_scope name.now self.now }
    {
        self.variables.get(name)
    }

    /// Declares a variable. Without memory the block stays as it was.
    fn declare(&mut self, name: &'p [u8], shape: Shape) -> Result<(), NoMemory>
        requires { check.in_scope name.now self.old ≡ None }
        ensures declared { OnOk result (self.new ≡ self.old ++ (name.now, shape) ∷ []) }
        ensures kept { OnErr result (self.new ≡ self.old) }
    {
        self.variables.insert(name, shape)?;
        Ok(())
    }
}

/// The variables of the blocks that are open, the innermost first.
#[derive(Drop)]
pub struct Scopes<'p> {
    alloc: Global,
    // the innermost last
    blocks: Vec<Block<'p>>,
}

impl<'p> Model for Scopes<'p> {
    ghost use Rattle.std.specs.Prelude.{ℕ, List, reverse};
    ghost use Rattle.pan_tree.specs.declared.shape.Shape.{Shape};

    ghost Value = { List (List (List ℕ × Shape)) };

    ghost use Rattle.pan_tree.specs.contracts.shape.Shape as shape;
    ghost use Rattle.std.specs.Coded.{codes};

    ghost coded = { Prim.hlevel (codes, shape.the_row.coded) };

    ghost view = { λ s. reverse s.blocks.items };
}

impl<'p> Scopes<'p> {
    /// No block is open.
    pub fn new(alloc: Global) -> Self
        ensures { result ≡ [] }
    {
        Scopes {
            alloc,
            blocks: Vec::new(alloc),
        }
    }

    /// Opens a block with no variable yet.
    pub fn enter(&mut self) -> Result<(), NoMemory>
        ensures { OnOk result (self.new ≡ [] ∷ self.old) }
    {
        self.blocks.push(Block::new(self.alloc))?;
        Ok(())
    }

    /// Closes the innermost block, whose variables are gone.
    pub fn leave(&mut self)
        ensures { self.new ≡ drop 1 self.old }
    {
        self.blocks.pop();
    }

    /// The shape of the innermost variable of this name.
    pub fn shape(&self, name: &[u8]) -> Option<&Shape>
        ensures { option_copied result ≡ check.shape_of name.now self.now }
    {
        let mut left = self.blocks.len();
        while left > 0 {
            left -= 1;
            if let Some(shape) = self.blocks[left].shape(name) {
                return Some(shape);
            }
        }
        None
    }

    /// Whether the innermost block has a variable of this name.
    pub fn is_declared(&self, name: &[u8]) -> bool
        ensures { result ≡ check.is_declared name.now self.now }
    {
        match self.blocks.last() {
            Some(block) => block.shape(name).is_some(),
            None => false,
        }
    }

    /// Declares a variable in the innermost block, where there is one.
    pub fn declare(&mut self, name: &'p [u8], shape: Shape) -> Result<(), NoMemory>
        requires { check.is_declared name.now self.old ≡ false }
        ensures { OnOk result (self.new ≡ check.declare name.now shape self.old) }
    {
        match self.blocks.last_mut() {
            Some(block) => block.declare(name, shape),
            None => Ok(()),
        }
    }
}
