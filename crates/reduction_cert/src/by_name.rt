//! The places of what applications name.

ghost use Rattle.std.specs.Prelude.{◌≡◌, IfOk};
ghost use Rattle.model_core.specs.EventGraph.{EventGraph};
ghost use Rattle.model_core.specs.Text.Numbering.{each_numbered};
ghost use Rattle.model_core.specs.Rules.Reduction.{from_zero, edge_named, two_vertices_named};
ghost use Rattle.model_read.specs.NamesPlaced.{listed_place, HasPlaces, names_of_vertices};

use model_read::Places;
use sig_base::{List, Name, NoMemory};
use std::alloc::Global;

/// The place from 0 of what counts from 1.
fn from_zero(number: u64) -> Option<usize>
    ensures { result ≡ from_zero number }
{
    if number == 0 {
        None
    } else {
        Some((number - 1) as usize)
    }
}

/// The places of the vertex of this name and of its edge, which counts from 1.
pub(crate) fn edge_named(vertices: &Places, name: &Name, number: u64) -> Option<(usize, usize)>
    ensures { (g : EventGraph) → HasPlaces (names_of_vertices g.vertices) vertices.now
        → result ≡ edge_named g name.now number }
{
    let vertex = vertices.find(name.as_slice())?;
    let edge = from_zero(number)?;
    Some((vertex, edge))
}

/// The places of the vertices of two names.
pub(crate) fn two_vertices_named(
    vertices: &Places,
    name: &Name,
    other: &Name,
) -> Option<(usize, usize)>
    ensures { (g : EventGraph) → HasPlaces (names_of_vertices g.vertices) vertices.now
        → result ≡ two_vertices_named g name.now other.now }
{
    let first = vertices.find(name.as_slice())?;
    let second = vertices.find(other.as_slice())?;
    Some((first, second))
}

/// The places of all these names, if each has one.
pub(crate) fn all_named(
    alloc: Global,
    places: &Places,
    names: &[Name],
) -> Result<Option<List<usize>>, NoMemory>
    ensures { IfOk result
        (λ found. found ≡ each_numbered (λ name. listed_place name places.now) names.now) }
{
    let mut found = Vec::with_capacity(alloc, names.len())?;
    for name in names {
        let Some(place) = places.find(name.as_slice()) else {
            return Ok(None);
        };
        found.push(place)?;
    }
    Ok(Some(List::from_vec(found)))
}
