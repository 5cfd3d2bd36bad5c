//! The pending list of a run, kept in heaps and a tournament: its calls are those of the trait `Pending`.

ghost use Rattle.std.specs.Prelude.{◌≡◌, ◌≢◌, ℕ, ◌+◌, ◌*◌, ◌^◌, ◌<◌, ◌≤◌, length, [], ◌∷◌, ◌++◌, Some, None, IsSome, true, false, IfOk, slice_set, slice_index_or};
ghost use Rattle.std.specs.Option.{option_map};
ghost use Rattle.model_core.specs.Run.Pending.{next_entry, without_next, is_of};
ghost use Rattle.event_heap.specs.Inner.Tree.{key_of};
ghost use Rattle.event_heap.specs.Inner.Held.{top_of};
ghost use Rattle.event_heap.specs.Inner.Kept.{IsNextVertex};
ghost use Rattle.event_heap.specs.BinaryLength.{digits};

use crate::heaps::Heaps;
use crate::tournament::Tournament;
use event_list::{Entry, First, Key, Pending};
use sig_base::{Carried, NoMemory, Steps};
use std::alloc::Global;
use std::marker::Model;
use std::sync::ledger::Ledger;

/// The pending events in one heap for each vertex, with a tournament over the first events of all vertices.
#[derive(Drop)]
pub struct HeapPending {
    heaps: Heaps,
    numbered: u64,
    tournament: Tournament,
}

impl Model for HeapPending {
    ghost use Rattle.std.specs.Prelude.{length};
    ghost use Rattle.event_list.specs.Agenda.{Agenda};
    ghost use Rattle.event_heap.specs.Inner.Listed.{entries_of};
    ghost use Rattle.event_heap.specs.Inner.Kept.{IsKept};

    ghost Value = { Agenda };

    ghost view = { λ p. record {
      entries = entries_of p.heaps.events;
      spare = p.heaps.spare;
      numbered = p.numbered;
      vertices = length p.heaps.tops;
    } };

    ghost invariant = { λ p. IsKept p.heaps p.numbered p.tournament };
}

/// Plays the games of a vertex again, with its first event.
fn replay<L: Ledger>(
    heaps: &Heaps,
    tournament: &mut Tournament,
    vertex: usize,
    steps: &mut Steps<L>,
)
    requires games { (u : ℕ) → u ≢ vertex
        → slice_index_or tournament.old u None ≡ option_map key_of (top_of heaps.now u) }
    requires vertices { length tournament.old ≡ length heaps.now.tops }
    ensures games { (u : ℕ)
        → slice_index_or tournament.new u None ≡ option_map key_of (top_of heaps.now u) }
    ensures vertices { length tournament.new ≡ length heaps.now.tops }
    ensures ticks { (d : ℕ) → length heaps.now.tops ≤ 2 ^ d → steps.new ≤ steps.old + d }
{
    if vertex < tournament.vertices() {
        let key = heaps.first_key(vertex);
        tournament.set(vertex, key, steps);
    }
}

/// Does this for a vertex that alone has an event, or had the last one.
fn replay_alone(heaps: &Heaps, tournament: &mut Tournament, vertex: usize)
    requires games { (u : ℕ) → u ≢ vertex
        → slice_index_or tournament.old u None ≡ option_map key_of (top_of heaps.now u) }
    requires alone { (u : ℕ) → u ≢ vertex → slice_index_or tournament.old u None ≡ None }
    requires vertices { length tournament.old ≡ length heaps.now.tops }
    ensures games { (u : ℕ)
        → slice_index_or tournament.new u None ≡ option_map key_of (top_of heaps.now u) }
    ensures vertices { length tournament.new ≡ length heaps.now.tops }
{
    if vertex < tournament.vertices() {
        match heaps.first_key(vertex) {
            Some(key) => tournament.set_alone(vertex, Some(key)),
            None => tournament.clear_alone(vertex),
        }
    }
}

/// The same, by whether another vertex has an event.
#[inline(always)]
fn replay_either_way<L: Ledger>(
    heaps: &Heaps,
    tournament: &mut Tournament,
    vertex: usize,
    is_alone: bool,
    steps: &mut Steps<L>,
)
    requires games { (u : ℕ) → u ≢ vertex
        → slice_index_or tournament.old u None ≡ option_map key_of (top_of heaps.now u) }
    requires alone { is_alone ≡ true → (u : ℕ) → u ≢ vertex
        → slice_index_or tournament.old u None ≡ None }
    requires vertices { length tournament.old ≡ length heaps.now.tops }
    ensures games { (u : ℕ)
        → slice_index_or tournament.new u None ≡ option_map key_of (top_of heaps.now u) }
    ensures vertices { length tournament.new ≡ length heaps.now.tops }
    ensures ticks { (d : ℕ) → length heaps.now.tops ≤ 2 ^ d → steps.new ≤ steps.old + d }
{
    if is_alone {
        replay_alone(heaps, tournament, vertex);
    } else {
        replay(heaps, tournament, vertex, steps);
    }
}

/// Puts the key of an event that is now the first of its vertex, and plays the games of this vertex. Not inlined, so that
/// the code that plays them occurs once.
#[inline(never)]
fn play_first<L: Ledger>(
    tournament: &mut Tournament,
    entry: &Entry,
    number: u64,
    steps: &mut Steps<L>,
)
    requires vertex_exists { entry.now.vertex < length tournament.old }
    ensures keys { tournament.new
        ≡ slice_set tournament.old entry.now.vertex
        (Some (key_of (record { number = number; entry = entry.now }))) }
    ensures ticks { (d : ℕ) → length tournament.old ≤ 2 ^ d → steps.new ≤ steps.old + d }
{
    let key = Key::new(entry.time, entry.priority, number);
    tournament.set(entry.vertex, Some(key), steps);
}

/// Plays the games of a vertex into whose heap an event came, where they may change.
#[inline(always)]
fn replay_added<L: Ledger>(
    heaps: &Heaps,
    tournament: &mut Tournament,
    entry: &Entry,
    number: u64,
    leads: bool,
    is_alone: bool,
    steps: &mut Steps<L>,
)
    requires vertex_exists { entry.now.vertex < length tournament.old }
    requires games { (u : ℕ) → u ≢ entry.now.vertex
        → slice_index_or tournament.old u None ≡ option_map key_of (top_of heaps.now u) }
    requires leads { leads ≡ true
        → top_of heaps.now entry.now.vertex ≡ Some (record { number = number; entry = entry.now }) }
    requires follows { leads ≡ false
        → slice_index_or tournament.old entry.now.vertex None
        ≡ option_map key_of (top_of heaps.now entry.now.vertex) }
    requires alone { is_alone ≡ true → (u : ℕ) → u ≢ entry.now.vertex
        → slice_index_or tournament.old u None ≡ None }
    requires vertices { length tournament.old ≡ length heaps.now.tops }
    ensures games { (u : ℕ)
        → slice_index_or tournament.new u None ≡ option_map key_of (top_of heaps.now u) }
    ensures vertices { length tournament.new ≡ length heaps.now.tops }
    ensures ticks { (d : ℕ) → length heaps.now.tops ≤ 2 ^ d → steps.new ≤ steps.old + d }
{
    if leads {
        if is_alone {
            let key = Key::new(entry.time, entry.priority, number);
            tournament.set_alone(entry.vertex, Some(key));
        } else {
            play_first(tournament, entry, number, steps);
        }
    }
}

/// The vertex of the next event, or `None` where there is no event.
fn next_vertex(heaps: &Heaps, tournament: &Tournament) -> Option<usize>
    requires { (u : ℕ)
        → slice_index_or tournament.now u None ≡ option_map key_of (top_of heaps.now u) }
    ensures { IsNextVertex heaps.now result }
{
    heaps.show_firsts();
    tournament.top()
}

impl HeapPending {
    /// An empty list for a model of so many vertices.
    pub fn begin(alloc: Global, vertices: usize) -> Result<HeapPending, NoMemory>
        ensures entries { IfOk result (λ p. p.entries ≡ []) }
        ensures numbered { IfOk result (λ p. p.numbered ≡ 0) }
        ensures vertices { IfOk result (λ p. p.vertices ≡ vertices) }
    {
        let heaps = Heaps::begin(alloc, vertices)?;
        let tournament = Tournament::begin(alloc, vertices)?;
        Ok(HeapPending {
            heaps,
            numbered: 0,
            tournament,
        })
    }
}

impl Pending for HeapPending {
    ghost entries = { λ p. p.entries };

    ghost spare = { λ p. p.spare };

    ghost numbered = { λ p. p.numbered };

    ghost vertices = { λ p. p.vertices };

    fn vertices(&self) -> usize {
        self.heaps.vertices()
    }

    fn count(&self) -> usize {
        self.heaps.count()
    }

    fn spare(&self) -> usize {
        self.heaps.spare()
    }

    fn numbered(&self) -> u64 {
        self.numbered
    }

    fn reserve(&mut self, more: usize) -> Result<(), NoMemory> {
        self.heaps.reserve(more)
    }

    /// Schedules an event, by few comparisons of keys.
    #[inline(always)]
    fn schedule<L: Ledger>(&mut self, entry: &Entry, steps: &mut Steps<L>)
        requires spare { 0 < self.old.spare }
        requires countable { self.old.numbered < 2 ^ 62 }
        requires vertex_exists { entry.now.vertex < self.old.vertices }
        ensures entries { self.new.entries ≡ self.old.entries ++ entry.now ∷ [] }
        ensures spare { self.old.spare ≤ self.new.spare + 1 }
        ensures room { self.old.spare + length self.old.entries
            ≤ self.new.spare + length self.new.entries }
        ensures numbered { self.new.numbered ≡ self.old.numbered + 1 }
        ensures vertices { self.new.vertices ≡ self.old.vertices }
        ensures ticks { steps.new
            ≤ steps.old + (3 * (digits (length self.old.entries) + 1) + digits self.old.vertices) }
    {
        self.heaps.show_firsts();
        let is_first = self.heaps.count() == 0;
        let number = self.numbered;
        let leads = self.heaps.add(number, entry, steps);
        self.numbered += 1;
        replay_added(
            &self.heaps,
            &mut self.tournament,
            entry,
            number,
            leads,
            is_first,
            steps,
        );
    }

    fn first(&self) -> Option<First> {
        let Some(vertex) = next_vertex(&self.heaps, &self.tournament) else {
            return None;
        };
        match self.heaps.first(vertex) {
            Some(item) => Some(item.first_shown()),
            None => unreachable!(),
        }
    }

    /// Takes the next event off, by few comparisons of keys, or answers `None` where none is pending.
    fn take_first<L: Ledger>(&mut self, steps: &mut Steps<L>) -> Option<Entry>
        ensures gives { result ≡ option_map (λ n. n.entry) (next_entry self.old.entries) }
        ensures entries { self.new.entries ≡ without_next (λ e. true) self.old.entries }
        ensures spare { self.old.spare ≤ self.new.spare }
        ensures room { self.old.spare + length self.old.entries
            ≤ self.new.spare + length self.new.entries }
        ensures numbered { self.new.numbered ≡ self.old.numbered }
        ensures vertices { self.new.vertices ≡ self.old.vertices }
        ensures ticks { steps.new
            ≤ steps.old + (3 * (digits (length self.old.entries) + 1) + digits self.old.vertices) }
    {
        if self.count() == 0 {
            return None;
        }
        let mut entry = Entry::blank();
        self.take_first_into(&mut entry, steps);
        Some(entry)
    }

    /// Takes the next event off, which `entry` becomes, by few comparisons of keys.
    #[inline(always)]
    fn take_first_into<L: Ledger>(&mut self, entry: &mut Entry, steps: &mut Steps<L>)
        requires pending { IsSome (next_entry self.old.entries) }
        ensures gives { Some entry.new ≡ option_map (λ n. n.entry) (next_entry self.old.entries) }
        ensures entries { self.new.entries ≡ without_next (λ e. true) self.old.entries }
        ensures spare { self.old.spare ≤ self.new.spare }
        ensures room { self.old.spare + length self.old.entries
            ≤ self.new.spare + length self.new.entries }
        ensures numbered { self.new.numbered ≡ self.old.numbered }
        ensures vertices { self.new.vertices ≡ self.old.vertices }
        ensures ticks { steps.new
            ≤ steps.old + (3 * (digits (length self.old.entries) + 1) + digits self.old.vertices) }
    {
        let Some(vertex) = next_vertex(&self.heaps, &self.tournament) else {
            unreachable!()
        };
        self.heaps.copy_first(vertex, entry);
        if self.heaps.take(vertex, steps) == 0 {
            unreachable!()
        }
        self.heaps.show_firsts();
        let was_last = self.heaps.count() == 0;
        replay_either_way(&self.heaps, &mut self.tournament, vertex, was_last, steps);
    }

    /// Deletes the next event of a vertex, by few comparisons of keys, and answers how many were deleted.
    fn cancel_next<L: Ledger>(&mut self, vertex: usize, steps: &mut Steps<L>) -> usize
        ensures deleted { result + length self.new.entries ≡ length self.old.entries }
        ensures entries { self.new.entries ≡ without_next (is_of vertex) self.old.entries }
        ensures spare { self.old.spare ≤ self.new.spare }
        ensures room { self.old.spare + length self.old.entries
            ≤ self.new.spare + length self.new.entries }
        ensures numbered { self.new.numbered ≡ self.old.numbered }
        ensures vertices { self.new.vertices ≡ self.old.vertices }
        ensures ticks { steps.new
            ≤ steps.old + (3 * (digits (length self.old.entries) + 1) + digits self.old.vertices) }
    {
        let gone = self.heaps.take(vertex, steps);
        replay(&self.heaps, &mut self.tournament, vertex, steps);
        gone
    }

    fn cancel_equal<L: Ledger>(
        &mut self,
        vertex: usize,
        values: &Carried,
        steps: &mut Steps<L>,
    ) -> usize {
        let gone = self.heaps.take_equal(vertex, values, steps);
        replay(&self.heaps, &mut self.tournament, vertex, steps);
        gone
    }

    fn cancel_all<L: Ledger>(&mut self, vertex: usize, steps: &mut Steps<L>) -> usize {
        let gone = self.heaps.take_all(vertex, steps);
        replay(&self.heaps, &mut self.tournament, vertex, steps);
        gone
    }
}
