//! Who holds which number: for each number the set of the vertices that hold it. So those that hold a number in common with
//! a vertex are found by joining sets, and no list is searched.

ghost use Rattle.std.specs.Prelude.{◌≡◌, ℕ, ◌<◌, ◌&&◌, ◌||◌, [], ◌∷◌, length, OnOk};
ghost use Rattle.conflict_report.specs.Inner.NumberHolders.{has_vertex, holds, hold_common, HoldMore, only_at};

use crate::vertex_set::VertexSet;
use sig_base::NoMemory;
use std::alloc::Global;
use std::marker::Model;

/// For each number, as of a variable or a stream, the vertices that hold it. Contracts see the sets, and ask by `holds`.
#[derive(Drop)]
pub(crate) struct Holders {
    sets: Vec<VertexSet>,
}

impl Model for Holders {
    ghost use Rattle.std.specs.Prelude.{ℕ, List};

    ghost Value = { List (List ℕ) };

    ghost view = { λ h. h.sets.items };
}

impl Holders {
    /// No vertex holds a number. It takes no memory.
    pub(crate) fn new(alloc: Global) -> Holders
        ensures { result ≡ [] }
    {
        Holders {
            sets: Vec::new(alloc),
        }
    }

    /// How many numbers have a set.
    fn len(&self) -> usize
        ensures { result ≡ length self.now }
    {
        self.sets.len()
    }

    /// Whether the vertex holds the number.
    fn holds(&self, number: usize, vertex: usize) -> bool
        ensures { result ≡ holds self.now number vertex }
    {
        match self.sets.get(number) {
            Some(set) => set.has(vertex),
            None => false,
        }
    }

    /// Sees that there is a set for the number.
    fn reach(&mut self, alloc: Global, number: usize) -> Result<(), NoMemory>
        ensures same { OnOk result ((k j : ℕ) → holds self.new k j ≡ holds self.old k j) }
        ensures reached { OnOk result (number < length self.new) }
    {
        'sets: while self.sets.len() <= number {
            self.sets.push(VertexSet::new(alloc))?;
        }
        Ok(())
    }

    /// Notes that the vertex holds the number.
    pub(crate) fn put(
        &mut self,
        alloc: Global,
        number: usize,
        vertex: usize,
    ) -> Result<(), NoMemory>
        ensures { OnOk result (HoldMore (only_at vertex (number ∷ [])) self.old self.new) }
    {
        self.reach(alloc, number)?;
        let set = &mut self.sets[number];
        set.put(vertex)
    }

    /// Notes that it holds these numbers.
    pub(crate) fn put_all(
        &mut self,
        alloc: Global,
        numbers: &[usize],
        vertex: usize,
    ) -> Result<(), NoMemory>
        ensures { OnOk result (HoldMore (only_at vertex numbers.now) self.old self.new) }
    {
        for number in numbers {
            self.put(alloc, *number, vertex)?;
        }
        Ok(())
    }

    /// Puts the vertices that hold the number into the set.
    fn add_holders(&self, number: usize, found: &mut VertexSet) -> Result<(), NoMemory>
        ensures { OnOk result
            ((j : ℕ) → has_vertex found.new j
            ≡ (has_vertex found.old j || holds self.now number j)) }
    {
        match self.sets.get(number) {
            Some(set) => found.put_all(set),
            None => Ok(()),
        }
    }

    /// Puts the vertices that hold the number by the others into the set, if this vertex holds it here.
    fn add_if_held(
        &self,
        others: &Holders,
        number: usize,
        vertex: usize,
        found: &mut VertexSet,
    ) -> Result<(), NoMemory>
        ensures { OnOk result
            ((j : ℕ) → has_vertex found.new j
            ≡ (has_vertex found.old j || holds self.now number vertex
            && holds others.now number j)) }
    {
        if self.holds(number, vertex) {
            others.add_holders(number, found)
        } else {
            Ok(())
        }
    }

    /// Puts the vertices into the set that hold, by the others, a number that this vertex holds here.
    pub(crate) fn add_common(
        &self,
        others: &Holders,
        vertex: usize,
        found: &mut VertexSet,
    ) -> Result<(), NoMemory>
        ensures { OnOk result
            ((j : ℕ) → has_vertex found.new j
            ≡ (has_vertex found.old j || hold_common self.now others.now vertex j)) }
    {
        for number in 0..self.len() {
            self.add_if_held(others, number, vertex, found)?;
        }
        Ok(())
    }
}
