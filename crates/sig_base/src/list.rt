//! A `Vec` that contracts see as a plain list.

ghost use Rattle.std.specs.Prelude.{◌≡◌, [], ◌∷◌, ◌++◌, length, IfOk, OnOk, OnErr};

use crate::no_memory::NoMemory;
use std::alloc::Global;
use std::marker::Model;

/// A `Vec` that contracts see as the plain list of its items.
#[derive(Drop)]
pub struct List<T> {
    items: Vec<T>,
}

impl<T> Model for List<T> {
    ghost use Rattle.std.specs.Prelude.{List as Sequence};

    ghost Value = { Sequence T };

    ghost view = { λ l. l.items.items };
}

impl<T> List<T> {
    ghost use Rattle.std.specs.Borrow.{Lends, sem};
    ghost use Rattle.sig_base.specs.contracts.list.List.{the_row};
    ghost use Rattle.sig_base.specs.Rows.{items_row};

    /// A list of no items, which takes no memory.
    pub fn new(alloc: Global) -> List<T>
        ensures { result ≡ [] }
    {
        List {
            items: Vec::new(alloc),
        }
    }

    /// The list of one item, with room for no more.
    pub fn of_one(alloc: Global, item: T) -> Result<List<T>, NoMemory>
    where
        T: Drop,
        ensures { IfOk result (λ list. list ≡ item ∷ []) }
    {
        let mut items = Vec::with_capacity(alloc, 1)?;
        items.push(item)?;
        Ok(List { items })
    }

    /// The list of the items.
    pub fn from_vec(items: Vec<T>) -> List<T>
        ensures { result ≡ items.items }
    {
        List { items }
    }

    /// The items, which leave the list.
    pub fn into_vec(self) -> Vec<T>
        ensures { result.items ≡ self }
    {
        let List { items } = self;
        items
    }

    /// The items in order.
    pub fn as_slice(&self) -> &[T]
        ensures { result.now ≡ self.now }
    {
        self.items.as_slice()
    }

    /// The `Vec` of the items, lent for writing.
    pub fn as_mut_vec(&mut self) -> &mut Vec<T>
        ensures* writes_back { sem 𝓛
            (Lends (the_row T.row) (items_row T.row) self.entry result (λ v. v.items)) }
        ensures shows { result.now.items ≡ self.old }
    {
        &mut self.items
    }

    /// How many items there are.
    pub fn len(&self) -> usize
        ensures { result ≡ length self.now }
    {
        self.items.len()
    }

    /// Adds an item at the end. Where memory is refused the list stays as it was.
    pub fn push(&mut self, item: T) -> Result<(), NoMemory>
    where
        T: Drop,
        ensures ok { OnOk result (self.new ≡ self.old ++ item ∷ []) }
        ensures err { OnErr result (self.new ≡ self.old) }
    {
        self.items.push(item)?;
        Ok(())
    }
}
