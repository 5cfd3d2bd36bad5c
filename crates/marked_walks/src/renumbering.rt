//! Vertices that take new places: the targets of edges and what is watched follow them. All is done in place.

ghost use Rattle.std.specs.Prelude.{◌≡◌, ℕ, map};
ghost use Rattle.model_core.specs.Rules.MarkedPlaces.{rank};
ghost use Rattle.model_core.specs.Rules.Drop.{edge_renumbered, vertex_renumbered, watched_renumbered};
ghost use Rattle.model_core.specs.Code.Views.{vertex_of, edge_of, watched_of};

use crate::staying_places::Staying;
use model_core::{Edge, Vertex, Watch};

/// New places for old ones.
pub trait NewPlaces {
    // The new place of each old one.
    ghost moved: { Self → ℕ → ℕ };

    /// The new place of this one.
    fn place(&self, place: usize) -> usize
        ensures { result ≡ moved self.now place };
}

// Those that stay close up.
impl NewPlaces for Staying {
    ghost moved = { λ s. rank s };

    fn place(&self, place: usize) -> usize
        ensures { result ≡ rank self.now place }
    {
        self.number(place)
    }
}

/// Gives the targets of edges their new places.
fn renumber_edges<N: NewPlaces>(places: &N, edges: &mut Vec<Edge>)
    ensures { map edge_of edges.new.items
        ≡ map (edge_renumbered (N.moved places.now)) (map edge_of edges.old.items) }
{
    for edge in edges.iter_mut() {
        edge.target = places.place(edge.target);
    }
}

/// Gives the targets of all edges of vertices their new places.
pub fn renumber_vertices<N: NewPlaces>(places: &N, vertices: &mut Vec<Vertex>)
    ensures { map vertex_of vertices.new.items
        ≡ map (vertex_renumbered (N.moved places.now)) (map vertex_of vertices.old.items) }
{
    for vertex in vertices.iter_mut() {
        renumber_edges(places, vertex.edges.as_mut_vec());
    }
}

/// A watch item with its vertex at its new place.
fn renumbered<N: NewPlaces>(places: &N, watched: Watch) -> Watch
    ensures { watched_of result ≡ watched_renumbered (N.moved places.now) (watched_of watched) }
{
    match watched {
        Watch::Variable { var } => Watch::Variable { var },
        Watch::Event { vertex } => Watch::Event {
            vertex: places.place(vertex),
        },
    }
}

/// Gives the watched vertices their new places.
pub fn renumber_watch<N: NewPlaces>(places: &N, watch: &mut Vec<Watch>)
    ensures { map watched_of watch.new.items
        ≡ map (watched_renumbered (N.moved places.now)) (map watched_of watch.old.items) }
{
    for watched in watch.iter_mut() {
        *watched = renumbered(places, *watched);
    }
}
