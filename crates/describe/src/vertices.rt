//! The sentences of events: what each takes, what it changes, and what follows it.

ghost use Rattle.std.specs.Prelude.{◌≡◌, ◌++◌, map, OnOk};
ghost use Rattle.std.specs.List.{flat_map};
ghost use Rattle.model_core.specs.Text.Canonical.{after_commas, variable_name};
ghost use Rattle.model_core.specs.Code.Views.{graph_of, vertex_of};
ghost use Rattle.describe.specs.Description.{parameters_phrase, vertex_sentences};

use crate::changes::put_changes;
use crate::edges::put_edges;
use model_core::{Model, Vertex};
use sig_base::{NoMemory, put_bytes, put_texts};
use std::alloc::Global;

/// Adds the names of variables, each after a comma and a space.
fn put_later_parameters(out: &mut Vec<u8>, model: &Model, params: &[usize]) -> Result<(), NoMemory>
    ensures { OnOk result
        (out.new.items
        ≡ out.old.items ++ after_commas (map (variable_name (graph_of model.now)) params.now)) }
{
    for param in params {
        put_texts(out, &[b", ", model.variable_name(*param)])?;
    }
    Ok(())
}

/// Adds the names of the variables that take the values of an event, or that it takes none.
fn put_parameters(out: &mut Vec<u8>, model: &Model, params: &[usize]) -> Result<(), NoMemory>
    ensures { OnOk result
        (out.new.items
        ≡ out.old.items
        ++ parameters_phrase (map (variable_name (graph_of model.now)) params.now)) }
{
    let [first, rest @ ..] = params else {
        return put_bytes(out, b"no values");
    };
    put_bytes(out, model.variable_name(*first))?;
    put_later_parameters(out, model, rest)
}

/// Adds the sentences of an event.
fn put_vertex(
    alloc: Global,
    out: &mut Vec<u8>,
    model: &Model,
    vertex: &Vertex,
) -> Result<(), NoMemory>
    ensures { OnOk result
        (out.new.items
        ≡ out.old.items ++ vertex_sentences (graph_of model.now) (vertex_of vertex.now)) }
{
    let name = vertex.name.as_slice();
    put_texts(out, &[b"Event ", name, b" takes "])?;
    put_parameters(out, model, vertex.params.as_slice())?;
    put_bytes(out, b".\n")?;
    put_changes(alloc, out, model, name, vertex.changes.as_slice())?;
    put_edges(alloc, out, model, name, vertex.edges.as_slice())
}

/// Adds the sentences of events.
pub(crate) fn put_vertices(
    alloc: Global,
    out: &mut Vec<u8>,
    model: &Model,
    vertices: &[Vertex],
) -> Result<(), NoMemory>
    ensures { OnOk result
        (out.new.items
        ≡ out.old.items
        ++ flat_map (vertex_sentences (graph_of model.now)) (map vertex_of vertices.now)) }
{
    for vertex in vertices {
        put_vertex(alloc, out, model, vertex)?;
    }
    Ok(())
}
