//! The free nodes, chained through their left numbers.

ghost use Rattle.std.specs.Prelude.{◌≡◌, ◌<◌, ◌≤◌, ◌++◌, ◌∷◌, [], length, slice_set, Some, None, IfSome, vec_len, vec_capacity};
ghost use Rattle.event_heap.specs.Inner.NodeTrees.{node_at};
ghost use Rattle.event_heap.specs.Inner.Claimed.{IsClaimed, lone_node, freed};

use crate::node::Node;
use crate::slot::Slot;
use event_list::Entry;

/// Makes a node a heap of one event.
fn refill(node: &mut Node, number: u64, entry: &Entry)
    ensures { node.new ≡ lone_node (record { number = number; entry = entry.now }) }
{
    node.left = None;
    node.right = None;
    node.rank = 1;
    node.left_rank = 0;
    node.item.hold(number, entry);
}

/// Adds a new node, a heap of one event, for which there is room. Not inlined, so that a free node is taken without room
/// for a new one on the stack.
#[inline(never)]
fn add_node(nodes: &mut Vec<Node>, number: u64, entry: &Entry)
    requires { vec_len nodes.old < vec_capacity nodes.old }
    ensures nodes { nodes.new.items
        ≡ nodes.old.items ++ lone_node (record { number = number; entry = entry.now }) ∷ [] }
    ensures capacity { vec_capacity nodes.old ≤ vec_capacity nodes.new }
{
    let pushed = nodes.push(Node {
        item: Slot::holding(number, entry),
        left: None,
        right: None,
        rank: 1,
        left_rank: 0,
    });
    let _ = pushed;
}

/// A node for an event, the first free one or else a new one, and answers its place. It takes no memory.
pub fn claim(nodes: &mut Vec<Node>, free: &mut Option<usize>, number: u64, entry: &Entry) -> usize
    requires there { IfSome free.old (λ i. i < vec_len nodes.old) }
    requires room { free.old ≡ None → vec_len nodes.old < vec_capacity nodes.old }
    ensures claimed { IsClaimed nodes.old.items nodes.new.items
        (record { number = number; entry = entry.now }) free.old free.new result }
    ensures capacity { vec_capacity nodes.old ≤ vec_capacity nodes.new }
{
    match *free {
        Some(i) => {
            let node = &mut nodes[i];
            *free = node.left;
            refill(node, number, entry);
            i
        }
        None => {
            let place = nodes.len();
            add_node(nodes, number, entry);
            place
        }
    }
}

/// Gives a node back, which has then no event and is the first of the free ones.
pub fn release(nodes: &mut [Node], free: &mut Option<usize>, place: usize)
    requires { place < length nodes.old }
    ensures free { free.new ≡ Some place }
    ensures nodes { nodes.new
        ≡ slice_set nodes.old place (freed (node_at nodes.old place) free.old) }
{
    let node = &mut nodes[place];
    node.left = *free;
    *free = Some(place);
    node.item.clear();
}
