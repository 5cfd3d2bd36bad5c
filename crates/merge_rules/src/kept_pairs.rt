//! What is known of each vertex, as the first of two that may be merged: where its plain urgent edge leads, whether the two
//! fit and by how much their merge makes the text longer; as the second, whether it acts unseen; and how many edges lead to it.

ghost use Rattle.std.specs.Prelude.{◌≡◌, map, OnOk, IfOk};
ghost use Rattle.model_core.specs.Rules.PlacedEdges.{with_place};
ghost use Rattle.model_core.specs.Code.Views.{edge_of, vertex_of};
ghost use Rattle.merge_rules.specs.Inner.PairMoves.{fresh_pair, with_more, with_fewer, edges_added, all_edges_added, edges_taken, answer_forgotten, target_removed, pairs_merged, moved_up};

use crate::first_pair::target_at_once;
use crate::growth::Growth;
use model_core::{Edge, Vertex};
use sig_base::NoMemory;
use std::alloc::Global;

/// Whether a vertex and the target of its plain urgent edge can be merged, as far as it depends on the two.
#[derive(Clone, Copy)]
pub(crate) enum PairAnswer {
    /// They haven't been looked at.
    Unknown,
    /// They can't.
    Refused,
    /// Only the model as a whole may speak against it, whose text becomes so much longer.
    Fits(Growth),
}

/// What is known of one vertex.
#[derive(Clone, Copy)]
pub(crate) struct KeptPair {
    /// Where its plain urgent edge leads, if it has one.
    pub(crate) target: Option<usize>,
    pub(crate) answer: PairAnswer,
    /// Whether it acts unseen once it has its values, if that was asked.
    pub(crate) unseen: Option<bool>,
    /// How many edges lead to the vertex.
    pub(crate) incoming: u64,
}

/// What is known of a vertex that hasn't been looked at.
fn fresh_pair(vertex: &Vertex) -> KeptPair
    ensures { result ≡ fresh_pair (vertex_of vertex.now) }
{
    KeptPair {
        target: target_at_once(vertex),
        answer: PairAnswer::Unknown,
        unseen: None,
        incoming: 0,
    }
}

/// What is known of vertices that haven't been looked at.
pub(crate) fn fresh_pairs(alloc: Global, vertices: &[Vertex]) -> Result<Vec<KeptPair>, NoMemory>
    ensures { IfOk result (λ pairs. pairs.items ≡ map fresh_pair (map vertex_of vertices.now)) }
{
    let mut pairs = Vec::with_capacity(alloc, vertices.len())?;
    for vertex in vertices {
        pairs.push(fresh_pair(vertex))?;
    }
    Ok(pairs)
}

/// Counts one more edge that leads to a vertex.
fn add_edge(pairs: &mut Vec<KeptPair>, target: usize) -> Result<(), NoMemory>
    ensures { OnOk result (pairs.new.items ≡ with_place (with_more 1) target pairs.old.items) }
{
    if target < pairs.len() {
        let pair = pairs[target];
        let Some(incoming) = pair.incoming.checked_add(1) else {
            return Err(NoMemory);
        };
        pairs[target] = KeptPair { incoming, ..pair };
    }
    Ok(())
}

/// Counts these edges too.
pub(crate) fn add_edges(pairs: &mut Vec<KeptPair>, edges: &[Edge]) -> Result<(), NoMemory>
    ensures { OnOk result (pairs.new.items ≡ edges_added (map edge_of edges.now) pairs.old.items) }
{
    for edge in edges {
        add_edge(pairs, edge.target)?;
    }
    Ok(())
}

/// Counts the edges of these vertices too.
pub(crate) fn add_all_edges(pairs: &mut Vec<KeptPair>, vertices: &[Vertex]) -> Result<(), NoMemory>
    ensures { OnOk result
        (pairs.new.items ≡ all_edges_added (map vertex_of vertices.now) pairs.old.items) }
{
    for vertex in vertices {
        add_edges(pairs, vertex.edges.as_slice())?;
    }
    Ok(())
}

/// Counts one edge fewer that leads to a vertex.
pub(crate) fn take_edge(pairs: &mut Vec<KeptPair>, target: usize)
    ensures { pairs.new.items ≡ with_place (with_fewer 1) target pairs.old.items }
{
    if target < pairs.len() {
        let pair = pairs[target];
        pairs[target] = KeptPair {
            incoming: pair.incoming.saturating_sub(1),
            ..pair
        };
    }
}

/// Counts these edges no more.
pub(crate) fn take_edges(pairs: &mut Vec<KeptPair>, edges: &[Edge])
    ensures { pairs.new.items ≡ edges_taken (map edge_of edges.now) pairs.old.items }
{
    for edge in edges {
        take_edge(pairs, edge.target);
    }
}

/// What is known of a vertex once another one has changed.
fn answer_forgotten(first: usize, pair: KeptPair) -> KeptPair
    ensures { result ≡ answer_forgotten first pair }
{
    match pair.target {
        Some(target) if target == first => KeptPair {
            answer: PairAnswer::Unknown,
            ..pair
        },
        _ => pair,
    }
}

/// What leads at once to this vertex, which has changed, is looked at again.
fn forget_answers(pairs: &mut Vec<KeptPair>, first: usize)
    ensures { pairs.new.items ≡ map (answer_forgotten first) pairs.old.items }
{
    for pair in pairs.iter_mut() {
        *pair = answer_forgotten(first, *pair);
    }
}

/// Makes the plain urgent edge of a vertex lead nowhere, since it is gone, and the vertex does something else.
fn remove_target(pairs: &mut Vec<KeptPair>, first: usize)
    ensures { pairs.new.items ≡ with_place target_removed first pairs.old.items }
{
    if first < pairs.len() {
        pairs[first] = KeptPair {
            target: None,
            answer: PairAnswer::Refused,
            unseen: None,
            incoming: pairs[first].incoming,
        };
    }
}

/// What is known once the vertex at the first place does what that at the second, which has these edges, does.
pub(crate) fn take_over_pairs(
    pairs: &mut Vec<KeptPair>,
    first: usize,
    second: usize,
    edges: &[Edge],
) -> Result<(), NoMemory>
    ensures { OnOk result
        (pairs.new.items ≡ pairs_merged first second (map edge_of edges.now) pairs.old.items) }
{
    add_edges(pairs, edges)?;
    take_edge(pairs, second);
    forget_answers(pairs, first);
    remove_target(pairs, first);
    Ok(())
}

/// What is known of a vertex once another one is gone.
fn moved_up(gone: usize, pair: KeptPair) -> KeptPair
    ensures { result ≡ moved_up gone pair }
{
    match pair.target {
        Some(target) if gone < target => KeptPair {
            target: Some(target - 1),
            ..pair
        },
        _ => pair,
    }
}

/// Gives targets their new places where a vertex is gone.
pub(crate) fn move_up(pairs: &mut Vec<KeptPair>, gone: usize)
    ensures { pairs.new.items ≡ map (moved_up gone) pairs.old.items }
{
    for pair in pairs.iter_mut() {
        *pair = moved_up(gone, *pair);
    }
}
