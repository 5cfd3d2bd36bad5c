//! The nodes of all heaps, in one vector.

ghost use Rattle.std.specs.Prelude.{◌≡◌, ◌+◌, Some};
ghost use Rattle.event_heap.specs.declared.node.Item.{Item as Event};
ghost use Rattle.event_list.specs.FirstOfEntry.{first_of};
ghost use Rattle.event_heap.specs.Inner.Tree.{key_of, precedes};
ghost use Rattle.event_heap.specs.Inner.NodeTrees.{item_at};
ghost use Rattle.event_heap.specs.Inner.Seated.{CanCompare};

use crate::slot::Slot;
use event_list::{Entry, First, Key};
use sig_base::Steps;
use std::sync::ledger::Ledger;

/// An event with its number in the order of scheduling.
#[derive(Drop)]
pub struct Item {
    pub number: u64,
    pub entry: Entry,
}

/// A node of a heap: the places of its left and right nodes, its rank, which is one above that of the right node, the rank
/// of the left node, and its event. A free node has no event, and the next free node on its left.
#[derive(Drop)]
pub struct Node {
    pub left: Option<usize>,
    pub right: Option<usize>,
    pub rank: u32,
    pub left_rank: u32,
    pub item: Slot,
}

impl Item {
    /// The time, priority and vertex of the event.
    pub fn first_shown(&self) -> First
        ensures { result ≡ first_of self.now.entry }
    {
        First {
            time: self.entry.time,
            priority: self.entry.priority,
            vertex: self.entry.vertex,
        }
    }

    /// By what the event is ordered.
    pub fn key(&self) -> Key
        ensures { result ≡ key_of self.now }
    {
        Key::new(self.entry.time, self.entry.priority, self.number)
    }
}

/// Whether the event of the first node comes before that of the second.
pub fn comes_first<L: Ledger>(nodes: &[Node], i: usize, j: usize, steps: &mut Steps<L>) -> bool
    requires { CanCompare nodes.now i j }
    ensures before { (x y : Event) → item_at nodes.now i ≡ Some x → item_at nodes.now j ≡ Some y
        → result ≡ precedes x y }
    ensures ticks { steps.new ≡ steps.old + 1 }
{
    let one = nodes[i].item.held();
    let other = nodes[j].item.held();
    one.key().before(&other.key(), steps)
}
