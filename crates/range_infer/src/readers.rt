//! For each variable the parts of a model that read it, by which variables take something.

ghost use Rattle.std.specs.Prelude.{◌≡◌, OnOk, IfOk, [], length, slice_index_or};
ghost use Rattle.model_core.specs.Rules.PlacedEdges.{with_place};
ghost use Rattle.range_infer.specs.Inner.Readers.{HasReaders, is_same_part, ends_with_part, with_part, put_variables, put_values, put_changes, put_edge, put_edges, put_vertex, put_each, no_readers, readers_in};

use crate::part_reads::{EdgeReads, ValueReads, VertexReads};
use sig_base::{List, NoMemory};
use std::alloc::Global;

/// The place of an edge or of a change among those of its vertex, and the place of that vertex.
#[derive(Clone, Copy)]
pub(crate) struct PartPlace {
    pub(crate) vertex: usize,
    pub(crate) is_edge: bool,
    pub(crate) place: usize,
}

fn is_same_part(a: PartPlace, b: PartPlace) -> bool
    ensures { result ≡ is_same_part a b }
{
    let same_kind = if a.is_edge { b.is_edge } else { !b.is_edge };
    a.vertex == b.vertex && a.place == b.place && same_kind
}

/// Whether a part is the last of these.
fn ends_with_part(parts: &[PartPlace], part: PartPlace) -> bool
    ensures { result ≡ ends_with_part parts.now part }
{
    match parts.last() {
        Some(last) => is_same_part(*last, part),
        None => false,
    }
}

/// Adds a part, unless it is the last one.
fn add_part_once(parts: &mut List<PartPlace>, part: PartPlace) -> Result<(), NoMemory>
    ensures { OnOk result (parts.new ≡ with_part part parts.old) }
{
    if ends_with_part(parts.as_slice(), part) {
        Ok(())
    } else {
        parts.push(part)
    }
}

/// So many lists without a part.
fn no_readers(alloc: Global, count: usize) -> Result<Vec<List<PartPlace>>, NoMemory>
    ensures { IfOk result (λ readers. readers.items ≡ no_readers count) }
{
    let mut readers = Vec::new(alloc);
    for _place in 0..count {
        readers.push(List::new(alloc))?;
    }
    Ok(readers)
}

/// Puts a part into the list of a variable, if there is one.
fn put_variable(
    readers: &mut Vec<List<PartPlace>>,
    var: usize,
    part: PartPlace,
) -> Result<(), NoMemory>
    ensures { OnOk result (readers.new.items ≡ with_place (with_part part) var readers.old.items) }
{
    match readers.get_mut(var) {
        Some(parts) => add_part_once(parts, part),
        None => Ok(()),
    }
}

/// Puts a part into the lists of these variables.
fn put_variables(
    readers: &mut Vec<List<PartPlace>>,
    vars: &[usize],
    part: PartPlace,
) -> Result<(), NoMemory>
    ensures { OnOk result (readers.new.items ≡ put_variables part readers.old.items vars.now) }
{
    for var in vars {
        put_variable(readers, *var, part)?;
    }
    Ok(())
}

fn put_values(
    readers: &mut Vec<List<PartPlace>>,
    values: &[ValueReads],
    part: PartPlace,
) -> Result<(), NoMemory>
    ensures { OnOk result (readers.new.items ≡ put_values part readers.old.items values.now) }
{
    for value in values {
        put_variables(readers, value.vars.as_slice(), part)?;
    }
    Ok(())
}

fn put_edge(
    readers: &mut Vec<List<PartPlace>>,
    reads: &EdgeReads,
    part: PartPlace,
) -> Result<(), NoMemory>
    ensures { OnOk result (readers.new.items ≡ put_edge part readers.old.items reads.now) }
{
    put_variables(readers, reads.condition.as_slice(), part)?;
    put_values(readers, reads.values.as_slice(), part)
}

/// Puts the changes of the vertex at this place into the lists of the variables that they read.
fn put_changes(
    readers: &mut Vec<List<PartPlace>>,
    vertex: usize,
    sets: &[List<ValueReads>],
) -> Result<(), NoMemory>
    ensures { OnOk result (readers.new.items ≡ put_changes vertex readers.old.items sets.now) }
{
    for (place, reads) in sets.iter().enumerate() {
        let part = PartPlace {
            vertex,
            is_edge: false,
            place,
        };
        put_values(readers, reads.as_slice(), part)?;
    }
    Ok(())
}

/// Puts the edges of the vertex at this place into the lists of the variables that they read.
fn put_edges(
    readers: &mut Vec<List<PartPlace>>,
    vertex: usize,
    carried: &[EdgeReads],
) -> Result<(), NoMemory>
    ensures { OnOk result (readers.new.items ≡ put_edges vertex readers.old.items carried.now) }
{
    for (place, reads) in carried.iter().enumerate() {
        let part = PartPlace {
            vertex,
            is_edge: true,
            place,
        };
        put_edge(readers, reads, part)?;
    }
    Ok(())
}

fn put_vertex(
    readers: &mut Vec<List<PartPlace>>,
    vertex: usize,
    reads: &VertexReads,
) -> Result<(), NoMemory>
    ensures { OnOk result (readers.new.items ≡ put_vertex vertex readers.old.items reads.now) }
{
    put_changes(readers, vertex, reads.sets.as_slice())?;
    put_edges(readers, vertex, reads.carried.as_slice())
}

fn put_vertices(readers: &mut Vec<List<PartPlace>>, reads: &[VertexReads]) -> Result<(), NoMemory>
    ensures { OnOk result (readers.new.items ≡ put_each put_vertex 0 readers.old.items reads.now) }
{
    for (vertex, parts) in reads.iter().enumerate() {
        put_vertex(readers, vertex, parts)?;
    }
    Ok(())
}

/// The parts that read each of so many variables, where the parts of each vertex read this.
pub(crate) fn all_readers(
    alloc: Global,
    count: usize,
    reads: &[VertexReads],
) -> Result<List<List<PartPlace>>, NoMemory>
    ensures { IfOk result (λ readers. readers ≡ readers_in count reads.now) }
{
    let mut readers = no_readers(alloc, count)?;
    put_vertices(&mut readers, reads)?;
    Ok(List::from_vec(readers))
}

/// The parts that read this variable.
fn readers_of(readers: &[List<PartPlace>], var: usize) -> &[PartPlace]
    ensures { result.now ≡ slice_index_or readers.now var [] }
{
    match readers.get(var) {
        Some(parts) => parts.as_slice(),
        None => &[],
    }
}

/// Whether the lists of the variables that moved are gone through sooner than so many parts, which are all. One list alone is.
/// Several may have an eighth of all parts together, since a part in several lists is gone through once for each.
pub(crate) fn are_few(moved: &[bool], readers: &[List<PartPlace>], parts: usize) -> bool {
    let mut lists: usize = 0;
    let mut count: usize = 0;
    for var in 0..moved.len() {
        if moved[var] {
            lists = lists.saturating_add(1);
            count = count.saturating_add(readers_of(readers, var).len());
        }
    }
    lists <= 1 || count <= parts / 8
}

/// The parts that read a variable that moved. One that reads two of them is there twice.
pub(crate) fn readers_of_moved(
    alloc: Global,
    moved: &[bool],
    readers: &[List<PartPlace>],
) -> Result<Vec<PartPlace>, NoMemory>
    ensures { IfOk result
        (λ parts. HasReaders moved.now readers.now (length moved.now) parts.items) }
{
    let mut parts = Vec::new(alloc);
    for var in 0..moved.len() {
        if moved[var] {
            parts.extend_from_slice(readers_of(readers, var))?;
        }
    }
    Ok(parts)
}
