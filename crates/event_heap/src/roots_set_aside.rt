//! Roots that are taken off a heap in order, set aside, and merged back.

ghost use Rattle.std.specs.Prelude.{◌≡◌, ℕ, ◌<◌, ◌^◌, List, length, slice_set, Some, None, IsSome};
ghost use Rattle.model_core.specs.Run.Pending.{same_values};
ghost use Rattle.event_heap.specs.declared.node.Item.{Item as Event};
ghost use Rattle.event_heap.specs.Inner.Tree.{Tree};
ghost use Rattle.event_heap.specs.Inner.NodeTrees.{node_at, item_at};
ghost use Rattle.event_heap.specs.Inner.Forest.{IsHeapOf};
ghost use Rattle.event_heap.specs.Inner.Aside.{CanMergeBack, IsSearched, IsWhole};

use crate::detach::{detach_root, left_of};
use crate::merge::merge;
use crate::node::Node;
use event_list::carried_values::same;
use sig_base::{Carried, Steps};
use std::sync::ledger::Ledger;

/// The result of a search: the node that was found, the root of the rest of the heap, and the last of the roots that
/// were set aside.
#[derive(Drop)]
pub struct Split {
    pub found: Option<usize>,
    pub rest: Option<usize>,
    pub kept: Option<usize>,
}

/// Whether the event of a node carries exactly these values.
fn carries(nodes: &[Node], place: usize, values: &Carried) -> bool
    requires there { place < length nodes.now }
    requires event { IsSome (item_at nodes.now place) }
    ensures { (x : Event) → item_at nodes.now place ≡ Some x
        → result ≡ same_values x.entry.values values.now.items }
{
    let item = nodes[place].item.held();
    same(&item.entry.values, values)
}

/// Puts a node ahead of those that are kept aside.
fn set_aside(nodes: &mut [Node], place: usize, kept: Option<usize>)
    requires { place < length nodes.old }
    ensures { nodes.new
        ≡ slice_set nodes.old place (record (node_at nodes.old place) { left = kept }) }
{
    nodes[place].left = kept;
}

/// Makes a node a heap of its own.
fn make_lone(nodes: &mut [Node], place: usize)
    requires { place < length nodes.old }
    ensures { nodes.new
        ≡ slice_set nodes.old place
        (record (node_at nodes.old place) { left = None; right = None; rank = 1; left_rank = 0 }) }
{
    let node = &mut nodes[place];
    node.left = None;
    node.right = None;
    node.rank = 1;
    node.left_rank = 0;
}

/// Takes the roots off a heap in order, until one carries the values or none is left. Those before it are set aside.
pub fn search<L: Ledger>(
    nodes: &mut [Node],
    root: Option<usize>,
    values: &Carried,
    steps: &mut Steps<L>,
) -> Split
    requires heap { (v : ℕ) × (t : Tree) × IsHeapOf nodes.old v t root }
    requires small { length nodes.old < 2 ^ 64 }
    ensures { (v : ℕ) (t : Tree) → IsHeapOf nodes.old v t root
        → IsSearched (λ e. same_values e.values values.now.items) v nodes.old nodes.new t
        result.found result.rest result.kept }
{
    let mut heap = root;
    let mut kept = None;
    while let Some(top) = heap {
        heap = detach_root(nodes, top, steps);
        if carries(nodes, top, values) {
            return Split {
                found: Some(top),
                rest: heap,
                kept,
            };
        }
        set_aside(nodes, top, kept);
        kept = Some(top);
    }
    Split {
        found: None,
        rest: None,
        kept,
    }
}

/// Merges the nodes that were set aside back into their heap, and answers its root.
pub fn merge_back<L: Ledger>(
    nodes: &mut [Node],
    heap: Option<usize>,
    kept: Option<usize>,
    steps: &mut Steps<L>,
) -> Option<usize>
    requires split { (whole : ℕ → ℕ) × (s : Tree) × (aside : List ℕ)
        × CanMergeBack nodes.old whole s aside heap kept }
    requires small { length nodes.old < 2 ^ 64 }
    ensures { (whole : ℕ → ℕ) (s : Tree) (aside : List ℕ)
        → CanMergeBack nodes.old whole s aside heap kept
        → (t : Tree) × IsWhole nodes.old nodes.new whole t result }
{
    let mut root = heap;
    let mut next = kept;
    while let Some(place) = next {
        next = left_of(nodes, place);
        make_lone(nodes, place);
        root = merge(nodes, root, Some(place), steps);
    }
    root
}
