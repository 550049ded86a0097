//! Lists whose first few items take no heap.

ghost use Rattle.std.specs.Prelude.{◌≡◌, ◌<◌, [], ◌∷◌, ◌++◌, length, IsOk, OnOk};

use pan_base::NoMemory;
use smallvec::{IntoIter, SmallVec};
use std::alloc::Global;
use std::default::MadeWith;
use std::marker::Model;

/// A list that keeps its first four items in itself, and takes heap only where there are more.
#[derive(Drop)]
pub struct Few<T> {
    items: SmallVec<T, 4>,
}

impl<T> Model for Few<T> {
    ghost use Rattle.std.specs.Prelude.{List, ◌≤◌};
    ghost use Rattle.std.specs.Coded.{coded_list};

    ghost Value = { List T };

    ghost coded = { coded_list T.code };

    ghost view = { λ f. f.items.items };

    ghost invariant = { λ f. 4 ≤ f.items.capacity };
}

impl<T: MadeWith<Global> + Drop> Few<T> {
    /// No items.
    pub fn new(alloc: Global) -> Few<T>
        ensures { result ≡ [] }
    {
        Few {
            items: SmallVec::new(alloc),
        }
    }

    /// One item.
    pub fn one(alloc: Global, item: T) -> Few<T>
        ensures { result ≡ item ∷ [] }
    {
        let mut items = SmallVec::new(alloc);
        items.push_reserved(item);
        Few { items }
    }

    /// One more item at the end.
    pub fn push(&mut self, item: T) -> Result<(), NoMemory>
        ensures ok { OnOk result (self.new ≡ self.old ++ item ∷ []) }
        ensures few { length self.old < 4 → IsOk result }
    {
        self.items.push(item)?;
        Ok(())
    }

    /// More items at the end.
    pub fn append(&mut self, more: Few<T>) -> Result<(), NoMemory>
        ensures { OnOk result (self.new ≡ self.old ++ more) }
    {
        let Few { mut items } = more;
        self.items.append(&mut items)?;
        Ok(())
    }
}

impl<T: MadeWith<Global> + Drop> IntoIterator for Few<T> {
    ghost use Rattle.std.specs.Iterator.{YieldsFirst};
    ghost use Rattle.std.specs.Iterator.Runs.{YieldsInOrder};

    type Item = T;

    type IntoIter = IntoIter<T, 4>;

    ghost into_iter_gives = { λ items it. (it ≡ items) × YieldsInOrder (YieldsFirst {A = T} (λ rest. rest)) (λ rest. rest) };

    /// The items, one after another from the first.
    fn into_iter(self) -> IntoIter<T, 4> {
        let Few { items } = self;
        items.into_iter()
    }
}
