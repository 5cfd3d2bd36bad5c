//! Vertices: their parameters, changes and edges.

ghost use Rattle.std.specs.Prelude.{◌≡◌, [], IfOk, map};
ghost use Rattle.std.specs.List.{flat_map};
ghost use Rattle.model_core.specs.Code.Views.{change_of, edge_of, vertex_of};
ghost use Rattle.model_core.specs.Code.WrittenViews.{written_name, written_vertex};
ghost use Rattle.model_core.specs.Text.Numbering as numbering;
ghost use Rattle.model_core.specs.Text.Numbering.{each_numbered};
ghost use Rattle.model_core.specs.Static.Meanings.{AsScalar, meaning_of};
ghost use Rattle.model_core.specs.Static.PartFaults.{use_faults, parameter_kind, kinds_taken, parameters_faults, vertex_faults};
ghost use Rattle.static_laws.specs.Checked.{CheckedPart};

use crate::changes::changes;
use crate::declaring::report_long_name;
use crate::edges::{edges, items};
use crate::first_fault::FirstFault;
use crate::names::Names;
use crate::part_places::report_too_many;
use crate::repeats::report_repeats;
use crate::uses::{kind_of_scalar, variable};
use model_core::{Change, Edge, Kind, RawName, RawVertex, Vertex};
use sig_base::{CHANGES_MAX, EDGES_MAX, List, NoMemory, PARAMETERS_MAX};
use std::alloc::Global;

/// The kinds of the parameters of a vertex.
fn kinds_of(alloc: Global, names: &Names, raws: &[RawName]) -> Result<List<Option<Kind>>, NoMemory>
    ensures { IfOk result
        (λ kinds. kinds ≡ map (parameter_kind (meaning_of names.now)) (map written_name raws.now)) }
{
    let mut kinds = Vec::with_capacity(alloc, raws.len())?;
    for raw in raws {
        kinds.push(kind_of_scalar(names, raw))?;
    }
    Ok(List::from_vec(kinds))
}

/// The kinds of the parameters of each vertex.
pub fn parameter_kinds(
    alloc: Global,
    names: &Names,
    raws: &[RawVertex],
) -> Result<List<List<Option<Kind>>>, NoMemory>
    ensures { IfOk result
        (λ taken. taken ≡ map (kinds_taken (meaning_of names.now)) (map written_vertex raws.now)) }
{
    let mut taken = Vec::with_capacity(alloc, raws.len())?;
    for raw in raws {
        taken.push(kinds_of(alloc, names, items(&raw.params))?)?;
    }
    Ok(List::from_vec(taken))
}

/// The numbers of parameters.
fn numbers_of(
    alloc: Global,
    names: &Names,
    raws: &[RawName],
    fault: &mut FirstFault,
) -> Result<List<usize>, NoMemory>
    ensures { IfOk result
        (λ vars. CheckedPart (meaning_of names.now) fault.old fault.new
        (flat_map (use_faults (meaning_of names.now) AsScalar) (map written_name raws.now))
        (λ d. each_numbered (numbering.numbered_parameter d) (map written_name raws.now)) vars) }
{
    let mut vars = Vec::with_capacity(alloc, raws.len())?;
    for raw in raws {
        let var = variable(names, false, raw, fault);
        vars.push(var.part)?;
    }
    Ok(List::from_vec(vars))
}

/// The parameters of a vertex.
pub fn parameters(
    alloc: Global,
    names: &Names,
    raws: &[RawName],
    fault: &mut FirstFault,
) -> Result<List<usize>, NoMemory>
    ensures { IfOk result
        (λ vars. CheckedPart (meaning_of names.now) fault.old fault.new
        (parameters_faults (meaning_of names.now) [] (map written_name raws.now))
        (λ d. each_numbered (numbering.numbered_parameter d) (map written_name raws.now)) vars) }
{
    report_too_many(PARAMETERS_MAX, raws, fault);
    let vars = numbers_of(alloc, names, raws, fault)?;
    report_repeats(alloc, raws, fault)?;
    Ok(vars)
}

/// The parts of a vertex beside its name.
#[derive(Drop)]
struct VertexParts {
    params: List<usize>,
    changes: List<Change>,
    edges: List<Edge>,
}

/// The parameters, changes and edges of a vertex.
fn parts_of(
    alloc: Global,
    names: &Names,
    taken: &[List<Option<Kind>>],
    raw: &RawVertex,
    fault: &mut FirstFault,
) -> Result<VertexParts, NoMemory>
    ensures { IfOk result
        (λ v. CheckedPart (meaning_of names.now) fault.old fault.new
        (vertex_faults (meaning_of names.now) taken.now (written_vertex raw.now))
        (λ d. numbering.vertex d (written_vertex raw.now))
        (record {
          name = raw.now.name.name;
          parameters = v.params;
          changes = map change_of v.changes;
          edges = map edge_of v.edges;
        })) }
{
    report_long_name(&raw.name, fault);
    let params = parameters(alloc, names, items(&raw.params), fault)?;
    report_too_many(CHANGES_MAX, raw.changes.as_slice(), fault);
    let changes = changes(alloc, names, raw.changes.as_slice(), fault)?;
    report_too_many(EDGES_MAX, raw.edges.as_slice(), fault);
    let edges = edges(alloc, names, taken, raw.edges.as_slice(), fault)?;
    Ok(VertexParts {
        params,
        changes,
        edges,
    })
}

/// A vertex, where the vertices take parameters of these kinds.
fn vertex(
    alloc: Global,
    names: &Names,
    taken: &[List<Option<Kind>>],
    raw: RawVertex,
    fault: &mut FirstFault,
) -> Result<Vertex, NoMemory>
    ensures { IfOk result
        (λ v. CheckedPart (meaning_of names.now) fault.old fault.new
        (vertex_faults (meaning_of names.now) taken.now (written_vertex raw))
        (λ d. numbering.vertex d (written_vertex raw)) (vertex_of v)) }
{
    let parts = parts_of(alloc, names, taken, &raw, fault)?;
    Ok(Vertex {
        name: raw.name.name,
        params: parts.params,
        changes: parts.changes,
        edges: parts.edges,
    })
}

/// The vertices. Each raw one is let go before the next is looked at.
pub fn vertices(
    alloc: Global,
    names: &Names,
    taken: &[List<Option<Kind>>],
    raws: List<RawVertex>,
    fault: &mut FirstFault,
) -> Result<List<Vertex>, NoMemory>
    ensures { IfOk result
        (λ vs. CheckedPart (meaning_of names.now) fault.old fault.new
        (flat_map (vertex_faults (meaning_of names.now) taken.now) (map written_vertex raws))
        (λ d. each_numbered (numbering.vertex d) (map written_vertex raws)) (map vertex_of vs)) }
{
    let mut vertices = Vec::with_capacity(alloc, raws.len())?;
    for raw in raws.into_vec() {
        let vertex = vertex(alloc, names, taken, raw, fault)?;
        vertices.push(vertex)?;
    }
    Ok(List::from_vec(vertices))
}
