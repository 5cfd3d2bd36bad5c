//! Which places are marked, and which aren't.

ghost use Rattle.std.specs.Prelude.{◌≡◌, IfOk};
ghost use Rattle.model_core.specs.Rules.MarkedPlaces.{is_marked, unmarked_places};

use sig_base::{List, NoMemory};
use std::alloc::Global;

/// Whether a place is marked. Those beyond the last mark aren't.
pub fn is_marked(marks: &[bool], place: usize) -> bool
    ensures { result ≡ is_marked marks.now place }
{
    match marks.get(place) {
        Some(marked) => *marked,
        None => false,
    }
}

/// The places of the marks that aren't set, from 0, in order.
pub fn unmarked(alloc: Global, marks: &[bool]) -> Result<List<usize>, NoMemory>
    ensures { IfOk result (λ places. places ≡ unmarked_places marks.now) }
{
    let mut places = Vec::new(alloc);
    for place in 0..marks.len() {
        if !is_marked(marks, place) {
            places.push(place)?;
        }
    }
    Ok(List::from_vec(places))
}
