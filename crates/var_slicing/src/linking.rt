//! From pairs of places to a list for each place: the second places of its pairs.

ghost use Rattle.std.specs.Prelude.{◌≡◌, OnOk, IfOk};
ghost use Rattle.model_core.specs.Rules.PlacedEdges.{with_place};
ghost use Rattle.var_slicing.specs.Inner.Linking.{no_lists, with_successor, lists_of_pairs};

use marked_walks::PlaceSuccessors;
use sig_base::{List, NoMemory};
use std::alloc::Global;

/// For each place the second places of its pairs.
#[derive(Drop)]
pub(crate) struct Links {
    lists: Vec<List<usize>>,
}

impl PlaceSuccessors for Links {
    ghost lists = { λ l. l.lists.items };

    fn place_count(&self) -> usize {
        self.lists.len()
    }

    fn successor_count(&self, place: usize) -> usize {
        match self.lists.get(place) {
            Some(places) => places.len(),
            None => 0,
        }
    }

    fn nth_successor(&self, place: usize, nth: usize) -> Option<usize> {
        let places = self.lists.get(place)?;
        let successor = places.as_slice().get(nth)?;
        Some(*successor)
    }
}

/// So many places with an empty list each.
fn no_lists(alloc: Global, count: usize) -> Result<Vec<List<usize>>, NoMemory>
    ensures { IfOk result (λ next. next.items ≡ no_lists count) }
{
    let mut next = Vec::new(alloc);
    for _place in 0..count {
        next.push(List::new(alloc))?;
    }
    Ok(next)
}

/// Adds one more place to the list of a place, if there is such a place.
fn link(next: &mut Vec<List<usize>>, place: usize, successor: usize) -> Result<(), NoMemory>
    ensures { OnOk result
        (next.new.items ≡ with_place (with_successor successor) place next.old.items) }
{
    match next.get_mut(place) {
        Some(places) => places.push(successor),
        None => Ok(()),
    }
}

/// For each of so many places the second places of its pairs.
pub(crate) fn lists_by_place(
    alloc: Global,
    count: usize,
    pairs: &[(usize, usize)],
) -> Result<Links, NoMemory>
    ensures { IfOk result (λ next. next.lists.items ≡ lists_of_pairs pairs.now (no_lists count)) }
{
    let mut lists = no_lists(alloc, count)?;
    for pair in pairs {
        let (place, successor) = *pair;
        link(&mut lists, place, successor)?;
    }
    Ok(Links { lists })
}
