//! The variables that can be named at a place of a function, with their words.

ghost use Rattle.std.specs.Prelude.{◌≡◌, [], ◌∷◌, drop, OnOk};
ghost use Rattle.std.specs.Option.{option_copied};
ghost use Rattle.pan_tree.specs.Scopes.{innermost, declare};
ghost use Rattle.crep_flatten.specs.Flat as flat;
ghost use Rattle.crep_flatten.specs.Flattened.{new_place};

use crate::shaping::size;
use pan_base::NoMemory;
use pan_tree::Shape;
use source_resolver::Places;
use std::alloc::Global;
use std::marker::Model;

/// Where a variable's words are: the variables of words from one on, as many as its shape has words. In the shape a struct of words
/// is a group.
#[derive(Drop)]
pub struct Place {
    pub first: u32,
    pub shape: Shape,
}

/// The variables of the blocks that are open, the innermost first, each with its place.
#[derive(Drop)]
pub struct Scopes<'p> {
    // each variable with its number
    numbers: Places<'p>,
    // the places of the variables, by their numbers
    places: Vec<Place>,
    // how many words there were when each block was opened, the innermost last
    outside: Vec<u32>,
    // how many words the variables have together
    words: u32,
}

impl<'p> Model for Scopes<'p> {
    ghost use Rattle.crep_flatten.specs.Flat as flat;
    ghost use Rattle.crep_flatten.specs.ScopeTables.{placed, Tabled};

    ghost Value = { flat.Places };

    ghost use Rattle.pan_tree.specs.contracts.shape.Shape as shape;
    ghost use Rattle.std.specs.Coded.{codes};

    ghost coded = { Prim.hlevel (codes, shape.the_row.coded) };

    ghost view = { λ s. placed s.places.items s.numbers };

    ghost invariant = { λ s. Tabled s.numbers s.places.items s.outside.items s.words };
}

impl<'p> Scopes<'p> {
    /// No block is open.
    pub fn new(alloc: Global) -> Self
        ensures { result ≡ [] }
    {
        Scopes {
            numbers: Places::new(alloc),
            places: Vec::new(alloc),
            outside: Vec::new(alloc),
            words: 0,
        }
    }

    /// Opens a block with no variable yet.
    pub fn enter(&mut self) -> Result<(), NoMemory>
        ensures { OnOk result (self.new ≡ [] ∷ self.old) }
    {
        self.outside.push(self.words)?;
        match self.numbers.enter() {
            Ok(()) => Ok(()),
            Err(error) => {
                self.outside.pop();
                Err(error)
            }
        }
    }

    /// Closes the innermost block, whose variables are gone.
    pub fn leave(&mut self)
        ensures { self.new ≡ drop 1 self.old }
    {
        if let Some(words) = self.outside.pop() {
            self.numbers.leave();
            self.places.truncate(self.numbers.total());
            self.words = words;
        }
    }

    /// The place of the innermost variable of this name.
    pub fn place(&self, name: &[u8]) -> Option<&Place>
        ensures { option_copied result ≡ innermost name.now self.now }
    {
        match self.numbers.place(name) {
            Some(number) => self.places.get(number),
            None => None,
        }
    }

    /// How many words the variables have together.
    pub fn count(&self) -> u32
        ensures { result ≡ flat.count self.now }
    {
        self.words
    }

    /// Declares a variable in the innermost block, where there is one: it gets the next words.
    pub fn declare(&mut self, name: &'p [u8], shape: Shape) -> Result<(), NoMemory>
        ensures { OnOk result (self.new ≡ declare name.now (new_place shape self.old) self.old) }
    {
        if self.outside.is_empty() {
            return Ok(());
        }
        let Some(words) = self.words.checked_add(size(&shape)?) else {
            return Err(NoMemory);
        };
        let first = self.words;
        self.places.push(Place { first, shape })?;
        match self.numbers.declare(name) {
            Ok(()) => {
                self.words = words;
                Ok(())
            }
            Err(error) => {
                self.places.pop();
                Err(error)
            }
        }
    }
}
