//! Two heaps merged into one.

ghost use Rattle.std.specs.Prelude.{◌≡◌, ◌+◌, ◌<◌, ◌≤◌, ◌^◌, length, slice_set, Some};
ghost use Rattle.event_heap.specs.Inner.Tree.{Tree, leftist_rank, heap_over, merged_heap};
ghost use Rattle.event_heap.specs.Inner.NodeTrees.{node_at, TreesApart, IsRebuilt};
ghost use Rattle.event_heap.specs.Inner.Seated.{hung, seated};

use crate::node::{Node, comes_first};
use sig_base::Steps;
use std::sync::ledger::Ledger;

/// Puts a heap on the right of a node, in place of the one that was there. The ranks stay as they are.
fn hang(nodes: &mut [Node], top: usize, below: usize)
    requires { top < length nodes.old }
    ensures { nodes.new ≡ slice_set nodes.old top (hung (node_at nodes.old top) below) }
{
    nodes[top].right = Some(below);
}

/// Sets the rank of a node whose right heap has this one, and answers it. Of its two heaps that of lesser rank comes to its
/// right.
fn seat(nodes: &mut [Node], top: usize, rank_below: u32) -> u32
    requires there { top < length nodes.old }
    requires fits { rank_below + 1 < 2 ^ 32 }
    ensures nodes { nodes.new
        ≡ slice_set nodes.old top (seated (node_at nodes.old top) rank_below) }
    ensures rank { result ≡ (seated (node_at nodes.old top) rank_below).rank }
{
    let node = &mut nodes[top];
    if node.left_rank < rank_below {
        let left = node.left;
        node.left = node.right;
        node.right = left;
        node.rank = node.left_rank + 1;
        node.left_rank = rank_below;
    } else {
        node.rank = rank_below + 1;
    }
    node.rank
}

/// The rank of a node.
fn rank_of(nodes: &[Node], node: usize) -> u32
    requires { node < length nodes.now }
    ensures { result ≡ (node_at nodes.now node).rank }
{
    nodes[node].rank
}

/// The node on the right of a node.
pub fn right_of(nodes: &[Node], node: usize) -> Option<usize>
    requires { node < length nodes.now }
    ensures { result ≡ (node_at nodes.now node).right }
{
    nodes[node].right
}

/// Merges a heap into the one on the right of a root that comes before its own root, and answers the rank that the root above
/// has then. It goes down the nodes on the right of each other, and sets the ranks on its way back.
fn merge_below<L: Ledger>(nodes: &mut [Node], top: usize, other: usize, steps: &mut Steps<L>) -> u32
    requires { (s t : Tree) × TreesApart nodes.old s t (Some top) (Some other) }
    ensures merged { (s t : Tree) → TreesApart nodes.old s t (Some top) (Some other)
        → IsRebuilt nodes.old nodes.new (heap_over s t) (Some top) }
    ensures rank { result ≡ (node_at nodes.new top).rank }
    ensures ticks { (s t : Tree) → TreesApart nodes.old s t (Some top) (Some other)
        → steps.new + 1 ≤ steps.old + (leftist_rank s + leftist_rank t) }
{
    let Some(right) = right_of(nodes, top) else {
        hang(nodes, top, other);
        let rank = rank_of(nodes, other);
        return seat(nodes, top, rank);
    };
    if comes_first(nodes, other, right, steps) {
        hang(nodes, top, other);
        let rank = merge_below(nodes, other, right, steps);
        seat(nodes, top, rank)
    } else {
        let rank = merge_below(nodes, right, other, steps);
        seat(nodes, top, rank)
    }
}

/// Merges the heaps below two roots, and answers the root of the one that they are then. Not inlined, so that what merges
/// nothing has no part in it.
#[inline(never)]
fn merge_roots<L: Ledger>(nodes: &mut [Node], i: usize, j: usize, steps: &mut Steps<L>) -> usize
    requires { (s t : Tree) × TreesApart nodes.old s t (Some i) (Some j) }
    ensures merged { (s t : Tree) → TreesApart nodes.old s t (Some i) (Some j)
        → IsRebuilt nodes.old nodes.new (merged_heap s t) (Some result) }
    ensures ticks { (s t : Tree) → TreesApart nodes.old s t (Some i) (Some j)
        → steps.new ≤ steps.old + (leftist_rank s + leftist_rank t) }
{
    if comes_first(nodes, j, i, steps) {
        merge_below(nodes, j, i, steps);
        j
    } else {
        merge_below(nodes, i, j, steps);
        i
    }
}

/// Merges two heaps, of which each may be empty, and answers the root of the one that they are then.
pub fn merge<L: Ledger>(
    nodes: &mut [Node],
    a: Option<usize>,
    b: Option<usize>,
    steps: &mut Steps<L>,
) -> Option<usize>
    requires { (s t : Tree) × TreesApart nodes.old s t a b }
    ensures merged { (s t : Tree) → TreesApart nodes.old s t a b
        → IsRebuilt nodes.old nodes.new (merged_heap s t) result }
    ensures ticks { (s t : Tree) → TreesApart nodes.old s t a b
        → steps.new ≤ steps.old + (leftist_rank s + leftist_rank t) }
{
    let Some(i) = a else {
        return b;
    };
    let Some(j) = b else {
        return a;
    };
    Some(merge_roots(nodes, i, j, steps))
}
