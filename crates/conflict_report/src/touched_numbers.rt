//! What a vertex touches: the variables that it reads and those that it writes, the streams from which it draws, and the
//! vertices that it names and those whose events it cancels.

ghost use Rattle.std.specs.Prelude.{◌≡◌, ◌++◌, map, OnOk};
ghost use Rattle.model_core.specs.Rules.Uses.{delay_streams};
ghost use Rattle.model_core.specs.Code.Views.{change_of, edge_delay_of, edge_of, vertex_of};
ghost use Rattle.conflict_report.specs.Inner.TouchedLists.{nothing_touched, after_change, after_changes, after_form, after_edge, after_edges, after_vertex};

use model_core::{Change, Delay, Edge, EdgeForm, Vertex};
use sig_base::NoMemory;
use std::alloc::Global;
use std::marker::Model;
use use_analysis::{add_vertex_reads, add_vertex_writes};

/// Lists of what a vertex touches, in the vertex's own order. Contracts see the lists.
#[derive(Drop)]
pub(crate) struct TouchedNumbers {
    pub(crate) reads: Vec<usize>,
    pub(crate) writes: Vec<usize>,
    pub(crate) streams: Vec<usize>,
    pub(crate) names: Vec<usize>,
    pub(crate) cancels: Vec<usize>,
}

impl Model for TouchedNumbers {
    ghost use Rattle.conflict_report.specs.Inner.TouchedLists.{TouchedLists};

    ghost Value = { TouchedLists };

    ghost view = { λ t. record { reads = t.reads.items; writes = t.writes.items; streams = t.streams.items; names = t.names.items; cancels = t.cancels.items } };
}

/// Adds the stream from which a delay is drawn, if it is.
fn add_delay_stream(streams: &mut Vec<usize>, delay: &Delay) -> Result<(), NoMemory>
    ensures { OnOk result
        (streams.new.items ≡ streams.old.items ++ delay_streams (edge_delay_of delay.now)) }
{
    match delay {
        Delay::Fixed(_) => Ok(()),
        Delay::Drawn { stream, choice: _ } => Ok(streams.push(usize::from(*stream))?),
    }
}

impl TouchedNumbers {
    /// Nothing is touched. It takes no memory.
    pub(crate) fn new(alloc: Global) -> TouchedNumbers
        ensures { result ≡ nothing_touched }
    {
        TouchedNumbers {
            reads: Vec::new(alloc),
            writes: Vec::new(alloc),
            streams: Vec::new(alloc),
            names: Vec::new(alloc),
            cancels: Vec::new(alloc),
        }
    }

    /// Adds the stream from which a change draws, if it does.
    fn add_change(&mut self, change: &Change) -> Result<(), NoMemory>
        ensures { OnOk result (self.new ≡ after_change (change_of change.now) self.old) }
    {
        match change {
            Change::Set {
                targets: _,
                values: _,
            } => Ok(()),
            Change::Draw {
                target: _,
                stream,
                choice: _,
            } => Ok(self.streams.push(usize::from(*stream))?),
        }
    }

    /// Adds the streams from which changes draw.
    fn add_changes(&mut self, changes: &[Change]) -> Result<(), NoMemory>
        ensures { OnOk result (self.new ≡ after_changes (map change_of changes.now) self.old) }
    {
        for change in changes {
            self.add_change(change)?;
        }
        Ok(())
    }

    /// Adds what an edge touches by its form: the stream of a drawn delay, or the vertex whose events it cancels.
    fn add_form(&mut self, edge: &Edge) -> Result<(), NoMemory>
        ensures { OnOk result (self.new ≡ after_form (edge_of edge.now) self.old) }
    {
        match &edge.form {
            EdgeForm::Schedule { delay, priority: _ } => {
                add_delay_stream(&mut self.streams, delay)
            }
            EdgeForm::Urgent => Ok(()),
            EdgeForm::CancelNext | EdgeForm::CancelEqual | EdgeForm::CancelAll => {
                Ok(self.cancels.push(edge.target)?)
            }
        }
    }

    /// Adds what an edge touches but the variables that it reads.
    fn add_edge(&mut self, edge: &Edge) -> Result<(), NoMemory>
        ensures { OnOk result (self.new ≡ after_edge (edge_of edge.now) self.old) }
    {
        self.names.push(edge.target)?;
        self.add_form(edge)
    }

    /// Adds what edges touch but the variables that they read.
    fn add_edges(&mut self, edges: &[Edge]) -> Result<(), NoMemory>
        ensures { OnOk result (self.new ≡ after_edges (map edge_of edges.now) self.old) }
    {
        for edge in edges {
            self.add_edge(edge)?;
        }
        Ok(())
    }

    /// Adds what the vertex at this place touches. It names itself.
    pub(crate) fn add_vertex(&mut self, place: usize, vertex: &Vertex) -> Result<(), NoMemory>
        ensures { OnOk result (self.new ≡ after_vertex place (vertex_of vertex.now) self.old) }
    {
        add_vertex_reads(&mut self.reads, vertex)?;
        add_vertex_writes(&mut self.writes, vertex)?;
        self.names.push(place)?;
        self.add_changes(vertex.changes.as_slice())?;
        self.add_edges(vertex.edges.as_slice())
    }
}
