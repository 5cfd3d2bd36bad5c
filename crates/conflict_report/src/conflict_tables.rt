//! The vertices of a model by all that they touch, and from these, for one vertex, those for which each reason of a conflict
//! holds. The tables are made once for all pairs.

ghost use Rattle.std.specs.Prelude.{◌≡◌, ℕ, ◌<◌, ◌||◌, length, IfOk, OnOk};
ghost use Rattle.model_core.specs.Run.Step.{vertex_at};
ghost use Rattle.model_core.specs.Code.Views.{graph_of};
ghost use Rattle.conflict_report.specs.Inner.NumberHolders.{has_vertex, hold_common};
ghost use Rattle.conflict_report.specs.Inner.TouchedLists.{nothing_touched, after_vertex};
ghost use Rattle.conflict_report.specs.Inner.ReasonsFound.{NotedAt, NotedBefore, ArePartners, reasons_with};

use crate::holders::Holders;
use crate::priorities::holders_of_priorities;
use crate::touched_numbers::TouchedNumbers;
use crate::vertex_set::VertexSet;
use model_core::{Model, Reasons};
use sig_base::NoMemory;
use std::alloc::Global;

/// The vertices by their priorities, by the variables that they write and that they read or write, by the streams from
/// which they draw, by the vertices that they name, each itself too, and by those whose events they cancel.
#[derive(Drop)]
pub(crate) struct ConflictTables {
    by_priority: Holders,
    by_written: Holders,
    by_used: Holders,
    by_stream: Holders,
    by_named: Holders,
    by_cancelled: Holders,
}

/// The vertices for which each reason of a conflict with one vertex holds, and those that meet it.
#[derive(Drop)]
pub(crate) struct Partners {
    meet: VertexSet,
    variables: VertexSet,
    streams: VertexSet,
    cancels: VertexSet,
}

/// The vertices that hold, by the second, a number that this one holds by the first.
fn common(
    alloc: Global,
    first: &Holders,
    second: &Holders,
    vertex: usize,
) -> Result<VertexSet, NoMemory>
    ensures { IfOk result
        (λ found. (j : ℕ) → has_vertex found j ≡ hold_common first.now second.now vertex j) }
{
    let mut found = VertexSet::new(alloc);
    first.add_common(second, vertex, &mut found)?;
    Ok(found)
}

/// Those, and the vertices that hold by the first a number that this one holds by the second.
fn common_either_way(
    alloc: Global,
    first: &Holders,
    second: &Holders,
    vertex: usize,
) -> Result<VertexSet, NoMemory>
    ensures { IfOk result
        (λ found. (j : ℕ)
        → has_vertex found j
        ≡ (hold_common first.now second.now vertex j
        || hold_common second.now first.now vertex j)) }
{
    let mut found = common(alloc, first, second, vertex)?;
    second.add_common(first, vertex, &mut found)?;
    Ok(found)
}

impl ConflictTables {
    /// Notes what the vertex at this place touches.
    fn note(
        &mut self,
        alloc: Global,
        touched: &TouchedNumbers,
        place: usize,
    ) -> Result<(), NoMemory>
        ensures { OnOk result (NotedAt place touched.now self.old self.new) }
    {
        self.by_written
            .put_all(alloc, touched.writes.as_slice(), place)?;
        self.by_used
            .put_all(alloc, touched.reads.as_slice(), place)?;
        self.by_used
            .put_all(alloc, touched.writes.as_slice(), place)?;
        self.by_stream
            .put_all(alloc, touched.streams.as_slice(), place)?;
        self.by_named
            .put_all(alloc, touched.names.as_slice(), place)?;
        self.by_cancelled
            .put_all(alloc, touched.cancels.as_slice(), place)
    }

    /// Notes what the vertex of the model at this place touches.
    fn note_vertex(&mut self, alloc: Global, model: &Model, place: usize) -> Result<(), NoMemory>
        requires exists { place < length (graph_of model.now).vertices }
        ensures { OnOk result
            (NotedAt place
            (after_vertex place
            (vertex_at (graph_of model.now) place) nothing_touched) self.old self.new) }
    {
        let mut touched = TouchedNumbers::new(alloc);
        touched.add_vertex(place, &model.vertices.as_slice()[place])?;
        self.note(alloc, &touched, place)
    }

    /// Notes what the vertices of the model touch.
    fn note_vertices(&mut self, alloc: Global, model: &Model) -> Result<(), NoMemory>
        requires none { NotedBefore (graph_of model.now) 0 self.old }
        ensures { OnOk result
            (NotedBefore (graph_of model.now) (length (graph_of model.now).vertices) self.new) }
    {
        for place in 0..model.vertices.len() {
            self.note_vertex(alloc, model, place)?;
        }
        Ok(())
    }

    /// The tables of a model.
    pub(crate) fn of(alloc: Global, model: &Model) -> Result<ConflictTables, NoMemory>
        ensures { IfOk result
            (NotedBefore (graph_of model.now) (length (graph_of model.now).vertices)) }
    {
        let mut tables = ConflictTables {
            by_priority: holders_of_priorities(alloc, model)?,
            by_written: Holders::new(alloc),
            by_used: Holders::new(alloc),
            by_stream: Holders::new(alloc),
            by_named: Holders::new(alloc),
            by_cancelled: Holders::new(alloc),
        };
        tables.note_vertices(alloc, model)?;
        Ok(tables)
    }

    /// The vertices for which each reason of a conflict with this one holds.
    pub(crate) fn partners(&self, alloc: Global, vertex: usize) -> Result<Partners, NoMemory>
        ensures { IfOk result (ArePartners self.now vertex) }
    {
        Ok(Partners {
            meet: common(alloc, &self.by_priority, &self.by_priority, vertex)?,
            variables: common_either_way(alloc, &self.by_written, &self.by_used, vertex)?,
            streams: common(alloc, &self.by_stream, &self.by_stream, vertex)?,
            cancels: common_either_way(alloc, &self.by_cancelled, &self.by_named, vertex)?,
        })
    }
}

impl Partners {
    /// The reasons for a conflict with the vertex, and whether they meet.
    pub(crate) fn reasons(&self, vertex: usize) -> Reasons
        ensures { result ≡ reasons_with self.now vertex }
    {
        Reasons {
            meet: self.meet.has(vertex),
            variables: self.variables.has(vertex),
            streams: self.streams.has(vertex),
            cancels: self.cancels.has(vertex),
        }
    }
}
