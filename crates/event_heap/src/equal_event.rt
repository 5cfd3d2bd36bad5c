//! The first event of a vertex that carries given values.

ghost use Rattle.std.specs.Prelude.{◌<◌, ◌^◌, length};
ghost use Rattle.model_core.specs.Run.Pending.{is_event_with};
ghost use Rattle.event_heap.specs.Inner.Listed.{events_of};
ghost use Rattle.event_heap.specs.Inner.Next.{LosesNext};
ghost use Rattle.event_heap.specs.Inner.Forest.{IsSound, OthersStay};

use crate::free_nodes::release;
use crate::node::Node;
use crate::roots_set_aside::{merge_back, search};
use crate::take::root_of;
use sig_base::{Carried, Steps};
use std::sync::ledger::Ledger;

/// Takes the first event of a vertex that carries exactly these values, and answers how many were taken, none or one.
pub fn take_equal<L: Ledger>(
    nodes: &mut [Node],
    roots: &mut [Option<usize>],
    free: &mut Option<usize>,
    vertex: usize,
    values: &Carried,
    steps: &mut Steps<L>,
) -> usize
    requires sound { IsSound nodes.old roots.old free.old }
    requires small { length nodes.old < 2 ^ 64 }
    ensures sound { IsSound nodes.new roots.new free.new }
    ensures next { LosesNext (is_event_with vertex values.now.items) (events_of nodes.old)
        (events_of nodes.new) result }
    ensures others { OthersStay nodes.old roots.old nodes.new roots.new vertex }
{
    let Some(root) = root_of(roots, vertex) else {
        return 0;
    };
    let split = search(nodes, Some(root), values, steps);
    let rest = merge_back(nodes, split.rest, split.kept, steps);
    roots[vertex] = rest;
    match split.found {
        Some(place) => {
            release(nodes, free, place);
            1
        }
        None => 0,
    }
}
