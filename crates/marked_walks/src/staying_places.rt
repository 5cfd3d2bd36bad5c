//! Which places stay where others go, and the number that each then has.

ghost use Rattle.std.specs.Prelude.{◌≡◌, IfOk, slice_index_or};
ghost use Rattle.model_core.specs.Rules.MarkedPlaces.{rank, is_marked};

use crate::marks::is_marked;
use sig_base::NoMemory;
use std::alloc::Global;
use std::marker::Model;

/// The places that stay, and their new numbers. Contracts see it as the marks of those that stay.
#[derive(Drop)]
pub struct Staying {
    marks: Vec<bool>,
    numbers: Vec<usize>,
    count: usize,
}

impl Model for Staying {
    ghost use Rattle.std.specs.Prelude.{List, Bool};
    ghost use Rattle.marked_walks.specs.Inner.Numbers.{HasNumbers};

    ghost Value = { List Bool };

    ghost view = { λ s. s.marks.items };

    ghost invariant = { λ s. HasNumbers s.marks.items s.numbers.items s.count };
}

/// The number at a place of a table, or the count for a place beyond its end.
fn number_in(table: &[usize], count: usize, place: usize) -> usize
    ensures { result ≡ slice_index_or table.now place count }
{
    match table.get(place) {
        Some(number) => *number,
        None => count,
    }
}

impl Staying {
    /// The marked places stay.
    pub fn of(alloc: Global, marks: Vec<bool>) -> Result<Staying, NoMemory>
        ensures { IfOk result (λ s. s ≡ marks.items) }
    {
        let mut numbers = Vec::new(alloc);
        let mut count = 0;
        for place in 0..marks.len() {
            numbers.push(count)?;
            if is_marked(marks.as_slice(), place) {
                count += 1;
            }
        }
        Ok(Staying {
            marks,
            numbers,
            count,
        })
    }

    /// Whether a place stays.
    pub fn keeps(&self, place: usize) -> bool
        ensures { result ≡ is_marked self.now place }
    {
        is_marked(self.marks.as_slice(), place)
    }

    /// The number that a place has where only those before it that stay are counted.
    pub fn number(&self, place: usize) -> usize
        ensures { result ≡ rank self.now place }
    {
        number_in(self.numbers.as_slice(), self.count, place)
    }
}
