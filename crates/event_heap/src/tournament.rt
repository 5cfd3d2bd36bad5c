//! The tournament tree over the heaps: its winner is the vertex whose first event is due next.

ghost use Rattle.std.specs.Prelude.{◌≡◌, ◌≢◌, ℕ, ◌+◌, ◌≤◌, ◌<◌, ◌^◌, length, slice_set, slice_index_or, replicate, None, IfOk};
ghost use Rattle.event_heap.specs.Inner.Top.{IsTop};

use crate::games::{play, play_alone};
use crate::opening::{keyless, opened};
use event_list::Key;
use sig_base::{NoMemory, Steps};
use std::alloc::Global;
use std::marker::Model;
use std::sync::ledger::Ledger;

/// A tournament over the vertices of a pending list, seen as the list of their next keys, `None` where a vertex has
/// no event.
///
/// Place 1 is the top, and the places 2i and 2i + 1 are below the place i. The last places, as many as there are
/// vertices, hold one vertex each, and every other place holds the winner of the two below.
#[derive(Drop)]
pub struct Tournament {
    keys: Vec<Option<Key>>,
    winners: Vec<usize>,
}

impl Model for Tournament {
    ghost use Rattle.std.specs.Prelude.{List, Option};
    ghost use Rattle.event_list.specs.KeyOrder.{KeyParts};
    ghost use Rattle.event_heap.specs.Inner.Games.{IsPlayed};

    ghost Value = { List (Option KeyParts) };

    ghost view = { λ t. t.keys.items };

    ghost invariant = { λ t. IsPlayed t.keys.items t.winners.items 0 };
}

impl Tournament {
    /// The tournament of so many vertices, none of which has a key. It alone takes memory.
    pub fn begin(alloc: Global, vertices: usize) -> Result<Tournament, NoMemory>
        ensures { IfOk result (λ t. t ≡ replicate vertices None) }
    {
        Ok(Tournament {
            keys: keyless(alloc, vertices)?,
            winners: opened(alloc, vertices)?,
        })
    }

    /// How many vertices there are.
    pub fn vertices(&self) -> usize
        ensures { result ≡ length self.now }
    {
        self.keys.len()
    }

    /// Puts a vertex's next key in place of the one before, and plays its games again.
    #[inline(always)]
    pub fn set<L: Ledger>(&mut self, vertex: usize, key: Option<Key>, steps: &mut Steps<L>)
        requires { vertex < length self.old }
        ensures keys { self.new ≡ slice_set self.old vertex key }
        ensures ticks { (d : ℕ) → length self.old ≤ 2 ^ d → steps.new ≤ steps.old + d }
    {
        self.keys[vertex] = key;
        play(
            self.keys.as_slice(),
            self.winners.as_mut_slice(),
            vertex,
            steps,
        );
    }

    /// Puts a vertex's next key in place of the one before, where no other vertex has a key: it wins all its games.
    pub fn set_alone(&mut self, vertex: usize, key: Option<Key>)
        requires vertex { vertex < length self.old }
        requires alone { (u : ℕ) → u ≢ vertex → slice_index_or self.old u None ≡ None }
        ensures { self.new ≡ slice_set self.old vertex key }
    {
        self.keys[vertex] = key;
        play_alone(self.keys.as_slice(), self.winners.as_mut_slice(), vertex);
    }

    /// Takes a vertex's key away, where no other vertex has one: the winners of the games don't matter then.
    pub fn clear_alone(&mut self, vertex: usize)
        requires vertex { vertex < length self.old }
        requires alone { (u : ℕ) → u ≢ vertex → slice_index_or self.old u None ≡ None }
        ensures { self.new ≡ slice_set self.old vertex None }
    {
        self.keys[vertex] = None;
    }

    /// The vertex whose next key is the least, or `None` where none has a key.
    pub fn top(&self) -> Option<usize>
        ensures { IsTop self.now result }
    {
        if self.keys.is_empty() {
            return None;
        }
        let vertex = self.winners[1];
        match &self.keys[vertex] {
            Some(_) => Some(vertex),
            None => None,
        }
    }
}
