//! The vertices of a made model, three words a vertex.

ghost use Rattle.std.specs.Prelude.{◌≡◌, ◌<◌, ◌≤◌, ◌^◌, pos, [], ◌∷◌, map, IfOk};
ghost use Rattle.std.specs.List.{range_with_len};
ghost use Rattle.model_core.specs.EventGraph.{Add, Number, Scalar, Binary, Set, Draw, Uniform, scalar_location};
ghost use Rattle.model_core.specs.Code.Views.{change_of, location_of, vertex_of};
ghost use Rattle.model_gen.specs.Generated.{generated_changes, vertex_by, generated_vertex};

use crate::edges_by_form::{GAP, edges_by_form};
use crate::made_names::numbered_name;
use crate::picking::{Picks, next_picks};
use model_core::{Change, Choice, Expr, Op, Target, Vertex};
use random_streams::Streams;
use sig_base::{List, NoMemory};
use std::alloc::Global;

/// A variable without an index, as what takes a value.
fn scalar_target(var: usize) -> Target
    ensures { location_of result ≡ scalar_location var }
{
    Target { var, index: None }
}

/// The counter at a place goes up by one.
fn counting(alloc: Global, counter: usize) -> Result<Change, NoMemory>
    ensures { IfOk result
        (λ change. change_of change
        ≡ Set (scalar_location counter ∷ []) (Binary Add (Scalar counter) (Number (pos 1)) ∷ [])) }
{
    let more = Expr::binary(alloc, Op::Add, Expr::Scalar(counter), Expr::Int(1))?;
    let values = List::of_one(alloc, more)?;
    Ok(Change::Set {
        targets: List::of_one(alloc, scalar_target(counter))?,
        values,
    })
}

/// A delay is drawn into GAP.
fn drawing() -> Change
    ensures { change_of result ≡ Draw (scalar_location 8) 54 (Uniform (pos 1) (pos 6)) }
{
    Change::Draw {
        target: scalar_target(GAP),
        stream: 54,
        choice: Choice::Uniform { lo: 1, hi: 6 },
    }
}

/// The changes of a vertex: its counter goes up by one, and where it draws, it draws a delay.
fn vertex_changes(alloc: Global, counter: usize, draws: bool) -> Result<List<Change>, NoMemory>
    ensures { IfOk result (λ changes. map change_of changes ≡ generated_changes counter draws) }
{
    let mut changes = List::of_one(alloc, counting(alloc, counter)?)?;
    if draws {
        changes.push(drawing())?;
    }
    Ok(changes)
}

/// The vertex at a place of so many, as these picks make it.
fn vertex_by(alloc: Global, place: usize, vertices: usize, picks: Picks) -> Result<Vertex, NoMemory>
    requires { place < vertices }
    ensures { IfOk result
        (λ vertex. vertex_of vertex
        ≡ vertex_by vertices place picks.counter picks.form picks.target) }
{
    let name = numbered_name(alloc, b"E", place)?;
    let changes = vertex_changes(alloc, picks.counter, picks.form == 0 || picks.form == 3)?;
    Ok(Vertex {
        name,
        params: List::new(alloc),
        changes,
        edges: edges_by_form(alloc, place, vertices, picks.form, picks.target)?,
    })
}

/// The vertices of a model of so many.
pub(crate) fn vertices_by_words(
    alloc: Global,
    seed: u64,
    vertices: usize,
) -> Result<List<Vertex>, NoMemory>
    requires few_vertices { vertices ≤ 2 ^ 32 }
    ensures { IfOk result
        (λ made. map vertex_of made
        ≡ map (generated_vertex seed vertices) (range_with_len 0 vertices)) }
{
    let mut streams = Streams::begin(seed);
    let mut made = Vec::with_capacity(alloc, vertices)?;
    for place in 0..vertices {
        let picks = next_picks(&mut streams, vertices);
        made.push(vertex_by(alloc, place, vertices, picks)?)?;
    }
    Ok(List::from_vec(made))
}
