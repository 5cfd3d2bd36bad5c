//! Where a node keeps its event, in place, so that events come and go without being moved.

ghost use Rattle.std.specs.Prelude.{◌≡◌, Some, None, IsSome};
ghost use Rattle.std.specs.Option.{option_copied};

use crate::node::Item;
use event_list::Entry;
use std::marker::Model;

/// An event or none. No call sees the remains of an event that has gone.
#[derive(Drop)]
pub struct Slot {
    item: Item,
    is_held: bool,
}

impl Model for Slot {
    ghost use Rattle.std.specs.Prelude.{Option, Some, None, cond};
    ghost use Rattle.event_heap.specs.declared.node.Item.{Item as Event};

    ghost Value = { Option Event };

    ghost view = { λ s. cond s.is_held (Some s.item) None };
}

impl Slot {
    /// A slot that holds an event of this number.
    pub fn holding(number: u64, entry: &Entry) -> Slot
        ensures { result ≡ Some (record { number = number; entry = entry.now }) }
    {
        Slot {
            item: Item {
                number,
                entry: entry.again(),
            },
            is_held: true,
        }
    }

    /// Holds an event of this number in place of what it held.
    pub fn hold(&mut self, number: u64, entry: &Entry)
        ensures { self.new ≡ Some (record { number = number; entry = entry.now }) }
    {
        self.item.number = number;
        self.item.entry.copy_from(entry);
        self.is_held = true;
    }

    /// Holds none.
    pub fn clear(&mut self)
        ensures { self.new ≡ None }
    {
        self.is_held = false;
    }

    /// The event, or `None` where it holds none.
    pub fn get(&self) -> Option<&Item>
        ensures { option_copied result ≡ self.now }
    {
        if self.is_held { Some(&self.item) } else { None }
    }

    /// The event that it holds.
    pub fn held(&self) -> &Item
        requires { IsSome self.now }
        ensures { self.now ≡ Some result.now }
    {
        &self.item
    }
}
