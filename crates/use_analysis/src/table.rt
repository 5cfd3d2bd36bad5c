//! The table of uses: for each variable the vertices that read it, those that write it, and whether it is watched.

ghost use Rattle.std.specs.Prelude.{◌≡◌, map, OnOk, IfOk};
ghost use Rattle.model_core.specs.Rules.PlacedEdges.{with_place};
ghost use Rattle.model_core.specs.EventGraph.{watched_variables};
ghost use Rattle.model_core.specs.Code.Views.{graph_of, vertex_of, watched_of};
ghost use Rattle.use_analysis.specs.UseRows.{uses_row, use_table};
ghost use Rattle.use_analysis.specs.Inner.Noting.{ends_with, once, noted, noted_all, noted_vertex, noted_vertices, no_uses, rows_unused};

use crate::collecting::{add_vertex_reads, add_vertex_writes};
use model_core::{Model, Vertex, Watch};
use sig_base::{List, NoMemory};
use std::alloc::Global;

/// A row for each variable, in the order of declaration.
#[derive(Drop)]
pub struct UseTable {
    pub rows: List<UseRow>,
}

/// Who uses one variable: vertices by their places from 0, in the order of the text.
#[derive(Drop)]
pub struct UseRow {
    pub readers: List<usize>,
    pub writers: List<usize>,
    pub watched: bool,
}

/// One use of a variable: the vertex at a place reads or writes it, or it is watched.
#[derive(Clone, Copy)]
enum Use {
    Read { by: usize },
    Written { by: usize },
    Watched,
}

/// Whether a place is the last of these.
fn ends_with(places: &[usize], place: usize) -> bool
    ensures { result ≡ ends_with places.now place }
{
    match places.last() {
        Some(last) => *last == place,
        None => false,
    }
}

/// Adds a place, unless it is the last one.
fn add_once(places: &mut List<usize>, place: usize) -> Result<(), NoMemory>
    ensures { OnOk result (places.new ≡ once places.old place) }
{
    if ends_with(places.as_slice(), place) {
        Ok(())
    } else {
        places.push(place)
    }
}

impl UseRow {
    /// A row with no use.
    fn new(alloc: Global) -> UseRow
        ensures { uses_row result ≡ no_uses }
    {
        UseRow {
            readers: List::new(alloc),
            writers: List::new(alloc),
            watched: false,
        }
    }

    /// Notes one use.
    fn note(&mut self, used: Use) -> Result<(), NoMemory>
        ensures { OnOk result (uses_row self.new ≡ noted used (uses_row self.old)) }
    {
        match used {
            Use::Read { by } => add_once(&mut self.readers, by),
            Use::Written { by } => add_once(&mut self.writers, by),
            Use::Watched => {
                self.watched = true;
                Ok(())
            }
        }
    }
}

/// So many rows with no use.
fn rows_unused(alloc: Global, count: usize) -> Result<Vec<UseRow>, NoMemory>
    ensures { IfOk result (λ rows. map uses_row rows.items ≡ rows_unused count) }
{
    let mut rows = Vec::new(alloc);
    for _place in 0..count {
        rows.push(UseRow::new(alloc))?;
    }
    Ok(rows)
}

/// Notes one use of the variable at this place, if there is one.
fn note_at(rows: &mut Vec<UseRow>, var: usize, used: Use) -> Result<(), NoMemory>
    ensures { OnOk result
        (map uses_row rows.new.items ≡ with_place (noted used) var (map uses_row rows.old.items)) }
{
    match rows.get_mut(var) {
        Some(row) => row.note(used),
        None => Ok(()),
    }
}

/// Notes this use of each of these variables.
fn note_all(rows: &mut Vec<UseRow>, vars: &[usize], used: Use) -> Result<(), NoMemory>
    ensures { OnOk result
        (map uses_row rows.new.items ≡ noted_all used vars.now (map uses_row rows.old.items)) }
{
    for var in vars {
        note_at(rows, *var, used)?;
    }
    Ok(())
}

/// Notes which variables are watched.
fn note_watched(rows: &mut Vec<UseRow>, watch: &[Watch]) -> Result<(), NoMemory>
    ensures { OnOk result
        (map uses_row rows.new.items
        ≡ noted_all Use.Watched (watched_variables (map watched_of watch.now))
        (map uses_row rows.old.items)) }
{
    for watched in watch {
        if let Watch::Variable { var } = *watched {
            note_at(rows, var, Use::Watched)?;
        }
    }
    Ok(())
}

/// Notes the uses by the vertex at this place.
fn note_vertex(
    alloc: Global,
    rows: &mut Vec<UseRow>,
    place: usize,
    vertex: &Vertex,
) -> Result<(), NoMemory>
    ensures { OnOk result
        (map uses_row rows.new.items
        ≡ noted_vertex place (vertex_of vertex.now) (map uses_row rows.old.items)) }
{
    let mut reads = Vec::new(alloc);
    add_vertex_reads(&mut reads, vertex)?;
    note_all(rows, reads.as_slice(), Use::Read { by: place })?;
    let mut writes = Vec::new(alloc);
    add_vertex_writes(&mut writes, vertex)?;
    note_all(rows, writes.as_slice(), Use::Written { by: place })
}

/// Notes the uses by these vertices, of which the first is at place 0.
fn note_vertices(alloc: Global, rows: &mut Vec<UseRow>, vertices: &[Vertex]) -> Result<(), NoMemory>
    ensures { OnOk result
        (map uses_row rows.new.items
        ≡ noted_vertices 0 (map vertex_of vertices.now) (map uses_row rows.old.items)) }
{
    for (place, vertex) in vertices.iter().enumerate() {
        note_vertex(alloc, rows, place, vertex)?;
    }
    Ok(())
}

/// For each variable the vertices one of whose changes or edges reads it, the vertices that write it as a parameter or by
/// a change, and whether it is watched.
pub fn use_table(alloc: Global, model: &Model) -> Result<UseTable, NoMemory>
    ensures { IfOk result (λ table. map uses_row table.rows ≡ use_table (graph_of model.now)) }
{
    let mut rows = rows_unused(alloc, model.vars.len())?;
    note_watched(&mut rows, model.watch.as_slice())?;
    note_vertices(alloc, &mut rows, model.vertices.as_slice())?;
    Ok(UseTable {
        rows: List::from_vec(rows),
    })
}
