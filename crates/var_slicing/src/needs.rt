//! What is needed at once, and pairs of variables of which the second is needed where the first is, collected from a model:
//! all but what is needed since something may fault.

ghost use Rattle.std.specs.Prelude.{◌≡◌, ◌++◌, map, OnOk, IfOk};
ghost use Rattle.model_core.specs.EventGraph.{watched_variables};
ghost use Rattle.model_core.specs.Rules.Needed.{compared_parameters, compares_values};
ghost use Rattle.model_core.specs.Code.Views.{graph_of, vertex_of, change_of, edge_of, edge_kind_of, watched_of};
ghost use Rattle.var_slicing.specs.Inner.Needing.{collected_of, nothing, added_each, with_change, with_changes, with_all_changes, edge_pairs, with_value_pairs, with_edge, with_edges, with_all_edges, collected_at_once, with_all_pairs, with_drawn};

use crate::delays::{add_delay_stream, add_drawn_from};
use crate::reads_beside::{add_index_beside, add_targets_beside, add_values_beside};
use crate::streams::StreamDraw;
use model_core::{Change, Edge, EdgeForm, Model, Vertex, Watch};
use sig_base::NoMemory;
use std::alloc::Global;
use use_analysis::{add_deciding_reads, add_places};

/// What is needed at once, pairs of which the second is needed where the first is, the streams of draws, and those of
/// delays, each once.
#[derive(Drop)]
pub(crate) struct Needs {
    pub(crate) first: Vec<usize>,
    pub(crate) pairs: Vec<(usize, usize)>,
    pub(crate) draws: Vec<StreamDraw>,
    delays: Vec<usize>,
}

/// Adds the variables of a watch list.
pub(crate) fn add_watched(out: &mut Vec<usize>, watch: &[Watch]) -> Result<(), NoMemory>
    ensures { OnOk result
        (out.new.items ≡ out.old.items ++ watched_variables (map watched_of watch.now)) }
{
    for watched in watch {
        if let Watch::Variable { var } = *watched {
            out.push(var)?;
        }
    }
    Ok(())
}

/// Whether an edge of this form compares its values with those of a pending event.
fn compares_values(form: &EdgeForm) -> bool
    ensures { result ≡ compares_values (edge_kind_of form.now) }
{
    match form {
        EdgeForm::CancelEqual => true,
        EdgeForm::Schedule {
            delay: _,
            priority: _,
        }
        | EdgeForm::Urgent
        | EdgeForm::CancelNext
        | EdgeForm::CancelAll => false,
    }
}

/// Adds the parameters with which an edge compares its values.
fn add_compared(out: &mut Vec<usize>, model: &Model, edge: &Edge) -> Result<(), NoMemory>
    ensures { OnOk result
        (out.new.items
        ≡ out.old.items ++ compared_parameters (graph_of model.now) (edge_of edge.now)) }
{
    if compares_values(&edge.form) {
        add_places(out, model.parameters_at(edge.target))
    } else {
        Ok(())
    }
}

/// Adds what edges carry beside the parameters of their targets.
fn add_carried(
    pairs: &mut Vec<(usize, usize)>,
    marks: &[bool],
    model: &Model,
    edges: &[Edge],
) -> Result<(), NoMemory>
    ensures { OnOk result
        (pairs.new.items
        ≡ added_each (edge_pairs marks.now (graph_of model.now))
        (map edge_of edges.now) pairs.old.items) }
{
    for edge in edges {
        add_values_beside(
            pairs,
            marks,
            model.parameters_at(edge.target),
            edge.values.as_slice(),
        )?;
    }
    Ok(())
}

/// Adds what the edges of vertices carry beside the parameters of their targets.
fn add_all_carried(
    pairs: &mut Vec<(usize, usize)>,
    marks: &[bool],
    model: &Model,
    vertices: &[Vertex],
) -> Result<(), NoMemory>
    ensures { OnOk result
        (pairs.new.items
        ≡ with_value_pairs marks.now (graph_of model.now)
        (map vertex_of vertices.now) pairs.old.items) }
{
    for vertex in vertices {
        add_carried(pairs, marks, model, vertex.edges.as_slice())?;
    }
    Ok(())
}

impl Needs {
    /// No needs.
    fn begin(alloc: Global) -> Needs
        ensures { collected_of result ≡ nothing }
    {
        Needs {
            first: Vec::new(alloc),
            pairs: Vec::new(alloc),
            draws: Vec::new(alloc),
            delays: Vec::new(alloc),
        }
    }

    /// Adds what an edge compares, and what its condition and its delay read.
    fn add_edge(&mut self, model: &Model, edge: &Edge) -> Result<(), NoMemory>
        ensures { OnOk result
            (collected_of self.new
            ≡ with_edge (graph_of model.now) (edge_of edge.now) (collected_of self.old)) }
    {
        add_compared(&mut self.first, model, edge)?;
        add_deciding_reads(&mut self.first, edge)?;
        add_delay_stream(&mut self.delays, edge)
    }

    /// Adds what edges compare, and what their conditions and delays read.
    fn add_edges(&mut self, model: &Model, edges: &[Edge]) -> Result<(), NoMemory>
        ensures { OnOk result
            (collected_of self.new
            ≡ with_edges (graph_of model.now) (map edge_of edges.now) (collected_of self.old)) }
    {
        for edge in edges {
            self.add_edge(model, edge)?;
        }
        Ok(())
    }

    /// Adds what the edges of vertices compare, and what their conditions and delays read.
    fn add_all_edges(&mut self, model: &Model, vertices: &[Vertex]) -> Result<(), NoMemory>
        ensures { OnOk result
            (collected_of self.new
            ≡ with_all_edges (graph_of model.now) (map vertex_of vertices.now)
            (collected_of self.old)) }
    {
        for vertex in vertices {
            self.add_edges(model, vertex.edges.as_slice())?;
        }
        Ok(())
    }

    /// What is needed at once, but for what is drawn from a stream of a delay.
    pub(crate) fn at_once(alloc: Global, model: &Model) -> Result<Needs, NoMemory>
        ensures { IfOk result (λ n. collected_of n ≡ collected_at_once (graph_of model.now)) }
    {
        let mut needs = Needs::begin(alloc);
        add_watched(&mut needs.first, model.watch.as_slice())?;
        add_places(&mut needs.first, model.parameters_at(0))?;
        needs.add_all_edges(model, model.vertices.as_slice())?;
        Ok(needs)
    }

    /// Adds what the targets of a change need, and from which stream it draws.
    fn add_change(&mut self, marks: &[bool], change: &Change) -> Result<(), NoMemory>
        ensures { OnOk result
            (collected_of self.new
            ≡ with_change marks.now (change_of change.now) (collected_of self.old)) }
    {
        match change {
            Change::Set { targets, values } => add_targets_beside(
                &mut self.pairs,
                marks,
                targets.as_slice(),
                values.as_slice(),
            ),
            Change::Draw {
                target,
                stream,
                choice: _,
            } => {
                add_index_beside(&mut self.pairs, marks, target)?;
                self.draws.push((usize::from(*stream), target.var))?;
                Ok(())
            }
        }
    }

    /// Adds what the targets of changes need, and from which streams they draw.
    fn add_changes(&mut self, marks: &[bool], changes: &[Change]) -> Result<(), NoMemory>
        ensures { OnOk result
            (collected_of self.new
            ≡ with_changes marks.now (map change_of changes.now) (collected_of self.old)) }
    {
        for change in changes {
            self.add_change(marks, change)?;
        }
        Ok(())
    }

    /// Adds what the targets of all changes of vertices need, and from which streams they draw.
    fn add_all_changes(&mut self, marks: &[bool], vertices: &[Vertex]) -> Result<(), NoMemory>
        ensures { OnOk result
            (collected_of self.new
            ≡ with_all_changes marks.now (map vertex_of vertices.now) (collected_of self.old)) }
    {
        for vertex in vertices {
            self.add_changes(marks, vertex.changes.as_slice())?;
        }
        Ok(())
    }

    /// Adds all pairs that lead to variables which aren't marked, and what is drawn from a stream of a delay.
    pub(crate) fn add_parts(&mut self, model: &Model, marks: &[bool]) -> Result<(), NoMemory>
        ensures { OnOk result
            (collected_of self.new
            ≡ with_drawn (with_all_pairs marks.now (graph_of model.now) (collected_of self.old))) }
    {
        self.add_all_changes(marks, model.vertices.as_slice())?;
        add_all_carried(&mut self.pairs, marks, model, model.vertices.as_slice())?;
        add_drawn_from(
            &mut self.first,
            self.delays.as_slice(),
            self.draws.as_slice(),
        )
    }
}
