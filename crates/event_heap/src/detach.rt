//! Nodes that are taken out of a heap.

ghost use Rattle.std.specs.Prelude.{◌≡◌, ℕ, ◌<◌, ◌^◌, length, Some};
ghost use Rattle.model_core.specs.Run.Pending.{is_of};
ghost use Rattle.event_heap.specs.Inner.Tree.{Tree};
ghost use Rattle.event_heap.specs.Inner.Listed.{events_of};
ghost use Rattle.event_heap.specs.Inner.NodeTrees.{node_at};
ghost use Rattle.event_heap.specs.Inner.Forest.{IsHeapOf};
ghost use Rattle.event_heap.specs.Inner.Detached.{Detaches};
ghost use Rattle.event_heap.specs.Inner.Held.{IsQuickFor};

use crate::merge::{merge, right_of};
use crate::node::Node;
use sig_base::Steps;
use std::sync::ledger::Ledger;

/// The node on the left of a node.
pub fn left_of(nodes: &[Node], node: usize) -> Option<usize>
    requires { node < length nodes.now }
    ensures { result ≡ (node_at nodes.now node).left }
{
    nodes[node].left
}

/// Takes the root out of a heap, and answers the root of the rest, which is its left and right heaps merged.
pub fn detach_root<L: Ledger>(
    nodes: &mut [Node],
    root: usize,
    steps: &mut Steps<L>,
) -> Option<usize>
    requires heap { (v : ℕ) × (t : Tree) × IsHeapOf nodes.old v t (Some root) }
    requires small { length nodes.old < 2 ^ 64 }
    ensures detaches { (v : ℕ) (t : Tree) → IsHeapOf nodes.old v t (Some root)
        → Detaches (is_of v) nodes.old nodes.new t root result }
    ensures ticks { IsQuickFor (events_of nodes.old) steps.old steps.new }
{
    let left = left_of(nodes, root);
    let right = right_of(nodes, root);
    merge(nodes, left, right, steps)
}
