//! Sets of vertices as bits: whether one is in a set is seen in one word, and two sets are joined word by word.

ghost use Rattle.std.specs.Prelude.{◌≡◌, ℕ, ◌≤◌, ◌==◌, ◌||◌, [], length, slice_index, bit_or, OnOk};
ghost use Rattle.conflict_report.specs.Inner.NumberHolders.{has_vertex};

use sig_base::NoMemory;
use std::alloc::Global;
use std::marker::Model;

/// Vertices by their places. Contracts see the words, and ask by `has_vertex`.
#[derive(Drop)]
pub(crate) struct VertexSet {
    words: Vec<u64>,
}

impl Model for VertexSet {
    ghost use Rattle.std.specs.Prelude.{ℕ, List};

    ghost Value = { List ℕ };

    ghost view = { λ s. s.words.items };
}

/// Adds to each of the words the bits of the other word at its place.
fn join(words: &mut [u64], others: &[u64])
    requires long { length others.now ≤ length words.old }
    ensures { (i : ℕ)
        → slice_index words.new i ≡ bit_or (slice_index words.old i) (slice_index others.now i) }
{
    for (i, other) in others.iter().enumerate() {
        words[i] |= *other;
    }
}

impl VertexSet {
    /// The set of no vertices, which takes no memory.
    pub(crate) fn new(alloc: Global) -> VertexSet
        ensures { result ≡ [] }
    {
        VertexSet {
            words: Vec::new(alloc),
        }
    }

    /// Whether the vertex at this place is in the set.
    pub(crate) fn has(&self, place: usize) -> bool
        ensures { result ≡ has_vertex self.now place }
    {
        match self.words.get(place / 64) {
            Some(word) => *word & (1 << (place % 64)) != 0,
            None => false,
        }
    }

    /// Sees that there are so many words.
    fn grow(&mut self, count: usize) -> Result<(), NoMemory>
        ensures same { OnOk result ((i : ℕ) → slice_index self.new i ≡ slice_index self.old i) }
        ensures long { OnOk result (count ≤ length self.new) }
    {
        if self.words.len() < count {
            self.words.resize(count, 0)?;
        }
        Ok(())
    }

    /// Puts the vertex at this place into the set.
    pub(crate) fn put(&mut self, place: usize) -> Result<(), NoMemory>
        ensures { OnOk result
            ((j : ℕ) → has_vertex self.new j ≡ (place == j || has_vertex self.old j)) }
    {
        self.grow(place / 64 + 1)?;
        self.words[place / 64] |= 1 << (place % 64);
        Ok(())
    }

    /// Puts the vertices of another set into this one.
    pub(crate) fn put_all(&mut self, others: &VertexSet) -> Result<(), NoMemory>
        ensures { OnOk result
            ((j : ℕ) → has_vertex self.new j ≡ (has_vertex self.old j || has_vertex others.now j)) }
    {
        self.grow(others.words.len())?;
        join(self.words.as_mut_slice(), others.words.as_slice());
        Ok(())
    }
}
