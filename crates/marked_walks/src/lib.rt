//! Places with marks: those that follow from some by a walk, those that aren't marked, and the new numbers of those that
//! stay; items that move up where others go; and vertices that take new places.
#![tactic(auto)]

mod entailing;
mod law;
mod marks;
mod moving_up;
mod place_successors;
mod renumbering;
mod staying_places;

pub use entailing::entailed;
pub use law::marks_are_of_entailed_places;
pub use marks::{is_marked, unmarked};
pub use moving_up::{keep, keep_staying};
pub use place_successors::PlaceSuccessors;
pub use renumbering::{NewPlaces, renumber_vertices, renumber_watch};
pub use staying_places::Staying;
