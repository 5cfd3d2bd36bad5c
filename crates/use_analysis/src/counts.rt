//! How many parts of a model read and set each variable, kept up to date as parts come and go. A part is an edge or a change.
//! Nothing here but the beginning takes memory.

ghost use Rattle.std.specs.Prelude.{◌≡◌, ◌-◌, ◌^◌, ◌<◌, map, length, slice_index, IfOk};
ghost use Rattle.model_core.specs.Rules.MarkedPlaces.{is_among};
ghost use Rattle.model_core.specs.Rules.Uses.{change_reads, change_writes, edge_reads};
ghost use Rattle.model_core.specs.Code.Views.{change_of, edge_of};
ghost use Rattle.use_analysis.specs.UseNumbers.{changed_where, raised_at, lowered_at, no_numbers, CanRaise, CanLower};
ghost use Rattle.use_analysis.specs.Inner.Moving.{shifted, numbers_of, StampedTo, StampedBelow, nothing_stamped, without_stamp};

use crate::moving::{
    Part, Stamped, Way, move_read_by_change, move_read_by_edge, move_set_by_change,
};
use model_core::{Change, Edge, Model};
use sig_base::NoMemory;
use std::alloc::Global;

/// How many edges and changes read each variable, and how many changes set it: each counts once at a variable, however often
/// that occurs in it. Contracts see it as these two lists of numbers.
#[derive(Drop)]
pub struct UseCounts {
    numbers: Numbers,
}

/// A number for each variable, twice, and the stamp of the last part that moved them.
#[derive(Drop)]
struct Numbers {
    readers: Vec<Stamped>,
    setters: Vec<Stamped>,
    last: u64,
}

impl std::marker::Model for UseCounts {
    ghost use Rattle.use_analysis.specs.UseNumbers.{UseNumbers};
    ghost use Rattle.use_analysis.specs.Inner.Moving.{numbers_of, StampedTo};

    ghost Value = { UseNumbers };

    ghost view = { λ c. record { readers = numbers_of c.numbers.readers.items; setters = numbers_of c.numbers.setters.items } };

    ghost invariant = { λ c.
        StampedTo c.numbers.last c.numbers.readers.items
        × StampedTo c.numbers.last c.numbers.setters.items };
}

/// So many numbers, all 0 and with no part's stamp.
fn nothing_stamped(alloc: Global, count: usize) -> Result<Vec<Stamped>, NoMemory>
    ensures { IfOk result (λ numbers. numbers.items ≡ nothing_stamped count) }
{
    let mut numbers = Vec::with_capacity(alloc, count)?;
    for _var in 0..count {
        numbers.push(Stamped {
            number: 0,
            stamp: 0,
        })?;
    }
    Ok(numbers)
}

/// Takes all stamps away.
fn clear_stamps(numbers: &mut Vec<Stamped>)
    ensures { numbers.new.items ≡ map without_stamp numbers.old.items }
{
    for number in numbers.iter_mut() {
        number.stamp = 0;
    }
}

/// Takes all stamps away where no later one is left.
fn ensure_free_stamp(numbers: &mut Numbers)
    requires readers { StampedTo numbers.old.last numbers.old.readers.items }
    requires setters { StampedTo numbers.old.last numbers.old.setters.items }
    ensures left { numbers.new.last < 2 ^ 64 - 1 }
    ensures readers { numbers_of numbers.new.readers.items ≡ numbers_of numbers.old.readers.items }
    ensures setters { numbers_of numbers.new.setters.items ≡ numbers_of numbers.old.setters.items }
    ensures stamped_readers { StampedTo numbers.new.last numbers.new.readers.items }
    ensures stamped_setters { StampedTo numbers.new.last numbers.new.setters.items }
{
    if numbers.last < u64::MAX {
        return;
    }
    clear_stamps(&mut numbers.readers);
    clear_stamps(&mut numbers.setters);
    numbers.last = 0;
}

/// The part that moves numbers now, with a stamp that none of them has.
fn next_part(numbers: &mut Numbers, way: Way) -> Part
    requires readers { StampedTo numbers.old.last numbers.old.readers.items }
    requires setters { StampedTo numbers.old.last numbers.old.setters.items }
    ensures way { result.way ≡ way }
    ensures last { numbers.new.last ≡ result.stamp }
    ensures readers { numbers_of numbers.new.readers.items ≡ numbers_of numbers.old.readers.items }
    ensures setters { numbers_of numbers.new.setters.items ≡ numbers_of numbers.old.setters.items }
    ensures new_to_readers { StampedBelow result.stamp numbers.new.readers.items }
    ensures new_to_setters { StampedBelow result.stamp numbers.new.setters.items }
{
    ensure_free_stamp(numbers);
    numbers.last += 1;
    Part {
        way,
        stamp: numbers.last,
    }
}

/// Moves the number of each variable that the edge reads.
fn move_edge(numbers: &mut Numbers, way: Way, edge: &Edge)
    requires readers { StampedTo numbers.old.last numbers.old.readers.items }
    requires setters { StampedTo numbers.old.last numbers.old.setters.items }
    ensures readers { numbers_of numbers.new.readers.items
        ≡ changed_where (is_among (edge_reads (edge_of edge.now))) (shifted way) 0
        (numbers_of numbers.old.readers.items) }
    ensures setters { numbers_of numbers.new.setters.items ≡ numbers_of numbers.old.setters.items }
    ensures stamped_readers { StampedTo numbers.new.last numbers.new.readers.items }
    ensures stamped_setters { StampedTo numbers.new.last numbers.new.setters.items }
{
    let part = next_part(numbers, way);
    move_read_by_edge(&mut numbers.readers, part, edge);
}

/// Moves the number of each variable that the change reads, and of each that it sets.
fn move_change(numbers: &mut Numbers, way: Way, change: &Change)
    requires readers { StampedTo numbers.old.last numbers.old.readers.items }
    requires setters { StampedTo numbers.old.last numbers.old.setters.items }
    ensures readers { numbers_of numbers.new.readers.items
        ≡ changed_where (is_among (change_reads (change_of change.now))) (shifted way) 0
        (numbers_of numbers.old.readers.items) }
    ensures setters { numbers_of numbers.new.setters.items
        ≡ changed_where (is_among (change_writes (change_of change.now))) (shifted way) 0
        (numbers_of numbers.old.setters.items) }
    ensures stamped_readers { StampedTo numbers.new.last numbers.new.readers.items }
    ensures stamped_setters { StampedTo numbers.new.last numbers.new.setters.items }
{
    let part = next_part(numbers, way);
    move_read_by_change(&mut numbers.readers, part, change);
    move_set_by_change(&mut numbers.setters, part, change);
}

fn number_at(numbers: &[Stamped], var: usize) -> u64
    ensures { result ≡ slice_index (numbers_of numbers.now) var }
{
    if var < numbers.len() {
        numbers[var].number
    } else {
        0
    }
}

impl UseCounts {
    /// No part counts yet.
    pub fn begin(alloc: Global, model: &Model) -> Result<UseCounts, NoMemory>
        ensures { IfOk result (λ counts. counts ≡ no_numbers (length model.now.vars)) }
    {
        let count = model.vars.len();
        let readers = nothing_stamped(alloc, count)?;
        let setters = nothing_stamped(alloc, count)?;
        Ok(UseCounts {
            numbers: Numbers {
                readers,
                setters,
                last: 0,
            },
        })
    }

    /// Counts an edge: each variable that it reads has one reader more.
    pub fn add_edge(&mut self, edge: &Edge)
        requires { CanRaise (edge_reads (edge_of edge.now)) self.old.readers }
        ensures { self.new
            ≡ record self.old {
              readers = raised_at
                  (edge_reads (edge_of edge.now)) self.old.readers;
            } }
    {
        move_edge(&mut self.numbers, Way::Up, edge);
    }

    /// Counts a change: each variable that it reads has one reader more, and each that one of its targets names has one setter
    /// more.
    pub fn add_change(&mut self, change: &Change)
        requires readers { CanRaise (change_reads (change_of change.now)) self.old.readers }
        requires setters { CanRaise (change_writes (change_of change.now)) self.old.setters }
        ensures { self.new ≡ record {
          readers = raised_at (change_reads (change_of change.now)) self.old.readers;
          setters = raised_at (change_writes (change_of change.now)) self.old.setters;
        } }
    {
        move_change(&mut self.numbers, Way::Up, change);
    }

    /// Takes away what counting the edge added.
    pub fn take_edge(&mut self, edge: &Edge)
        requires { CanLower (edge_reads (edge_of edge.now)) self.old.readers }
        ensures { self.new
            ≡ record self.old {
              readers = lowered_at
                  (edge_reads (edge_of edge.now)) self.old.readers;
            } }
    {
        move_edge(&mut self.numbers, Way::Down, edge);
    }

    /// Takes away what counting the change added.
    pub fn take_change(&mut self, change: &Change)
        requires readers { CanLower (change_reads (change_of change.now)) self.old.readers }
        requires setters { CanLower (change_writes (change_of change.now)) self.old.setters }
        ensures { self.new ≡ record {
          readers = lowered_at (change_reads (change_of change.now)) self.old.readers;
          setters = lowered_at (change_writes (change_of change.now)) self.old.setters;
        } }
    {
        move_change(&mut self.numbers, Way::Down, change);
    }

    /// How many parts read the variable, and 0 where the model has none such.
    pub fn readers(&self, var: usize) -> u64
        ensures { result ≡ slice_index self.now.readers var }
    {
        number_at(self.numbers.readers.as_slice(), var)
    }

    /// How many changes set the variable, and 0 where the model has none such.
    pub fn setters(&self, var: usize) -> u64
        ensures { result ≡ slice_index self.now.setters var }
    {
        number_at(self.numbers.setters.as_slice(), var)
    }
}
