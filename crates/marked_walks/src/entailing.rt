//! Some places, their successors, the successors of these, and so on: a walk that marks each place once.

ghost use Rattle.std.specs.Prelude.{◌≡◌, [], length, replicate, false, OnOk, IfOk};
ghost use Rattle.model_core.specs.Rules.Entailed.{entailed_marks};
ghost use Rattle.mark_laws.specs.PlacePairs.{successors_of, pairs_from};
ghost use Rattle.marked_walks.specs.Inner.Finding.{found_of, find_one, find_all, find_nth, Going};

use crate::place_successors::PlaceSuccessors;
use sig_base::NoMemory;
use std::alloc::Global;

/// Which places are found, and which of these wait until their successors are found too.
#[derive(Drop)]
struct Finder {
    marks: Vec<bool>,
    waiting: Vec<usize>,
}

impl Finder {
    /// A finder over so many places, which has found none.
    fn begin(alloc: Global, count: usize) -> Result<Finder, NoMemory>
        ensures marks { IfOk result (λ f. (found_of f).marks ≡ replicate count false) }
        ensures waiting { IfOk result (λ f. (found_of f).waiting ≡ []) }
    {
        Ok(Finder {
            marks: Vec::from_elem(alloc, false, count)?,
            waiting: Vec::new(alloc),
        })
    }

    /// Marks a place, which then waits, unless it is marked.
    fn find(&mut self, place: usize) -> Result<(), NoMemory>
        ensures { OnOk result (found_of self.new ≡ find_one (found_of self.old) place) }
    {
        if self.marks.get(place) == Some(&false) {
            self.waiting.push(place)?;
            self.marks[place] = true;
        }
        Ok(())
    }

    /// Marks these places.
    fn find_all(&mut self, places: &[usize]) -> Result<(), NoMemory>
        ensures { OnOk result (found_of self.new ≡ find_all (found_of self.old) places.now) }
    {
        for place in places {
            self.find(*place)?;
        }
        Ok(())
    }

    /// Marks one of the successors of this place, if there is such a one.
    fn follow_nth<N: PlaceSuccessors>(
        &mut self,
        next: &N,
        place: usize,
        nth: usize,
    ) -> Result<(), NoMemory>
        ensures { OnOk result
            (found_of self.new
            ≡ find_nth (found_of self.old) (successors_of (N.lists next.now) place) nth) }
    {
        match next.nth_successor(place, nth) {
            Some(found) => self.find(found),
            None => Ok(()),
        }
    }

    /// Marks the successors of this place.
    fn follow_one<N: PlaceSuccessors>(&mut self, next: &N, place: usize) -> Result<(), NoMemory>
        ensures { OnOk result
            (found_of self.new
            ≡ find_all (found_of self.old) (successors_of (N.lists next.now) place)) }
    {
        for nth in 0..next.successor_count(place) {
            self.follow_nth(next, place, nth)?;
        }
        Ok(())
    }

    /// Finds the successors of the places that wait, and of those which these find, until none waits.
    fn follow<N: PlaceSuccessors>(&mut self, first: &[usize], next: &N) -> Result<(), NoMemory>
        requires { Going first.now (N.lists next.now) (found_of self.old) }
        ensures going { OnOk result (Going first.now (N.lists next.now) (found_of self.new)) }
        ensures none_waits { OnOk result ((found_of self.new).waiting ≡ []) }
    {
        while let Some(place) = self.waiting.pop() {
            self.follow_one(next, place)?;
        }
        Ok(())
    }
}

/// For each place whether it is one of the first, or a successor of one that is marked.
pub fn entailed<N: PlaceSuccessors>(
    alloc: Global,
    first: &[usize],
    next: &N,
) -> Result<Vec<bool>, NoMemory>
    ensures { IfOk result
        (λ marks. marks.items
        ≡ entailed_marks (length (N.lists next.now)) first.now (pairs_from 0 (N.lists next.now))) }
{
    let mut finder = Finder::begin(alloc, next.place_count())?;
    finder.find_all(first)?;
    finder.follow(first, next)?;
    Ok(finder.marks)
}
