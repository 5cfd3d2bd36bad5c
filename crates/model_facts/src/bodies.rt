//! A table of how many bytes the lines of what each vertex does have, kept where they were counted, so that they aren't counted
//! again.

ghost use Rattle.std.specs.Prelude.{◌≡◌, ℕ, ◌==◌, [], None, false, slice_index_or};
ghost use Rattle.std.specs.List.{remove};
ghost use Rattle.model_core.specs.EventGraph.{EventGraph};
ghost use Rattle.model_core.specs.Run.Step.{vertex_at};
ghost use Rattle.model_core.specs.Rules.PlacedEdges.{with_place};
ghost use Rattle.vertex_laws.specs.BodyLines.{body_lines};
ghost use Rattle.model_facts.specs.KnownLengths.{LengthIsRight, BodiesAreRight};

use std::alloc::Global;
use std::marker::Model;

/// The numbers of bytes by the places of the vertices, each 2^64 - 1 where there are more, and None where it isn't known.
/// Contracts see the list of them; of a place after its end nothing is known.
#[derive(Drop)]
pub struct Bodies {
    /// None where no number is to be kept.
    bytes: Option<Vec<Option<u64>>>,
}

impl Model for Bodies {
    ghost use Rattle.std.specs.Prelude.{ℕ, List, Option, []};
    ghost use Rattle.std.specs.Option.{option_map_or};
    ghost use Rattle.std.specs.Global.{Vec};

    ghost Value = { List (Option ℕ) };

    ghost view = { λ b. option_map_or (λ (v : Vec (Option ℕ)). v.items) b.bytes [] };
}

/// Puts another number to a place, if that is there.
fn put_at(numbers: &mut Vec<Option<u64>>, place: usize, number: Option<u64>)
    ensures { numbers.new.items ≡ with_place (λ n. number) place numbers.old.items }
{
    if place < numbers.len() {
        numbers[place] = number;
    }
}

impl Bodies {
    /// None are known, and none will be kept. This takes no memory.
    pub fn nothing() -> Bodies
        ensures { result ≡ [] }
    {
        Bodies { bytes: None }
    }

    /// None are known yet. This takes no memory.
    pub fn begin(alloc: Global) -> Bodies
        ensures { result ≡ [] }
    {
        Bodies {
            bytes: Some(Vec::new(alloc)),
        }
    }

    /// None are known any more.
    pub fn forget(&mut self)
        ensures { self.new ≡ [] }
    {
        if let Some(bytes) = &mut self.bytes {
            bytes.clear();
        }
    }

    /// The number of the vertex at this place, if it is known.
    pub fn get(&self, place: usize) -> Option<u64>
        ensures { result ≡ slice_index_or self.now place None }
    {
        let Some(bytes) = &self.bytes else {
            return None;
        };
        match bytes.get(place) {
            Some(number) => *number,
            None => None,
        }
    }

    /// Makes room for the numbers of so many vertices, unless memory for that is refused: then fewer are kept.
    pub fn make_room(&mut self, count: usize)
        ensures { (k : ℕ) → slice_index_or self.new k None ≡ slice_index_or self.old k None }
    {
        if let Some(bytes) = &mut self.bytes {
            if bytes.len() < count {
                let _ = bytes.resize(count, None);
            }
        }
    }

    /// Keeps another number of the vertex at this place, where there is room for it.
    pub fn put(&mut self, place: usize, number: Option<u64>)
        ensures is { self.new ≡ with_place (λ n. number) place self.old }
        // It is right of a graph in which the other vertices have the lines that they had.
        ensures right { (g h : EventGraph)
            → ((k : ℕ) → (k == place) ≡ false
            → body_lines h (vertex_at h k) ≡ body_lines g (vertex_at g k))
            → LengthIsRight number (body_lines h (vertex_at h place)) → BodiesAreRight g self.old
            → BodiesAreRight h self.new }
    {
        self.write(place, number);
    }

    /// Writes another number to a place, where there is room for it.
    fn write(&mut self, place: usize, number: Option<u64>)
        ensures { self.new ≡ with_place (λ n. number) place self.old }
    {
        if let Some(bytes) = &mut self.bytes {
            put_at(bytes, place, number);
        }
    }

    /// Takes away the number of the vertex at this place, which is gone. Those after it move up.
    pub fn take_away(&mut self, gone: usize)
        ensures { self.new ≡ remove self.old gone }
    {
        if let Some(bytes) = &mut self.bytes {
            if gone < bytes.len() {
                bytes.remove(gone);
            }
        }
    }
}
