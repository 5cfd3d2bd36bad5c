//! The running sums of a run, one for each item of its tally.

ghost use Rattle.std.specs.Prelude.{◌≡◌, ℕ, ◌≤◌, ◌++◌, All, map, IfOk, OnOk};
ghost use Rattle.std.specs.List.{range_with_len};
ghost use Rattle.model_core.specs.Run.History.{watched_values};
ghost use Rattle.model_core.specs.Code.Views.{graph_of, watched_of};
ghost use Rattle.tally_report.specs.CellCourse.{cells_noted, value_noted};
ghost use Rattle.tally_report.specs.Inner.Sums.{IsSmall, held_until, sum_at, sum_on, cell_sum, sums_at, sums_from};

use crate::item::Item;
use model_core::{Model, Watch};
use sig_base::NoMemory;
use sig_expr::{State, cells_declared};
use std::alloc::Global;

/// An item on its way, with what it is of: a place of the watch list, and the index of a cell.
#[derive(Clone, Copy)]
pub(crate) struct Sum {
    pub place: usize,
    pub index: usize,
    pub item: Item,
}

/// The noted values of a state, of the watched thing at a place of the watch list.
fn cells_at<'s>(model: &Model, state: &'s State, place: usize) -> &'s [i64]
    ensures { result.now
        ≡ cells_noted (map watched_of model.now.watch)
        (watched_values (map watched_of model.now.watch) state.now) place }
{
    match model.watch.as_slice().get(place) {
        Some(watch) => state.values_watched(*watch),
        None => &[],
    }
}

/// The value of the cell at an index there: 0 where there is none.
fn value_at(model: &Model, state: &State, place: usize, index: usize) -> i64
    ensures { result
        ≡ value_noted (graph_of model.now) place index
        (watched_values (map watched_of model.now.watch) state.now) }
{
    match cells_at(model, state, place).get(index) {
        Some(value) => *value,
        None => 0,
    }
}

/// Adds a sum for each cell at a place.
fn add_cells(sums: &mut Vec<Sum>, place: usize, cells: usize) -> Result<(), NoMemory>
    ensures added { OnOk result
        (sums.new.items ≡ sums.old.items ++ map (cell_sum place) (range_with_len 0 cells)) }
{
    for index in 0..cells {
        sums.push(Sum {
            place,
            index,
            item: Item::Cell {
                span: None,
                area: 0,
            },
        })?;
    }
    Ok(())
}

/// Adds the sums of what is watched at a place.
fn add_sums(sums: &mut Vec<Sum>, model: &Model, place: usize, watch: Watch) -> Result<(), NoMemory>
    ensures added { OnOk result
        (sums.new.items ≡ sums.old.items ++ sums_at (graph_of model.now) place (watched_of watch)) }
{
    match watch {
        Watch::Variable { var } => add_cells(sums, place, cells_declared(model, var)),
        Watch::Event { vertex: _ } => {
            sums.push(Sum {
                place,
                index: 0,
                item: Item::Count { occurrences: 0 },
            })?;
            Ok(())
        }
    }
}

/// The sums of a run that hasn't begun.
pub(crate) fn first_sums(alloc: Global, model: &Model) -> Result<Vec<Sum>, NoMemory>
    ensures { IfOk result
        (λ sums. sums.items ≡ sums_from (graph_of model.now) 0 (map watched_of model.now.watch)) }
{
    let mut sums = Vec::new(alloc);
    for (place, watch) in model.watch.as_slice().iter().enumerate() {
        add_sums(&mut sums, model, place, *watch)?;
    }
    Ok(sums)
}

/// The sum with the value of a state, noted at a time, whose last value was noted at another.
fn with_noted_value(sum: Sum, model: &Model, state: &State, since: u64, time: u64) -> Sum
    requires later { since ≤ time }
    requires small { IsSmall since sum.item }
    ensures taken { result
        ≡ sum_at (graph_of model.now)
        (watched_values (map watched_of model.now.watch) state.now) since time sum }
    ensures small { IsSmall time result.item }
{
    let value = value_at(model, state, sum.place, sum.index);
    Sum {
        place: sum.place,
        index: sum.index,
        item: sum.item.held_until(since, time).with_value(value),
    }
}

/// The sum with an event of the vertex at a place of the watch list.
fn with_event(sum: Sum, place: usize) -> Sum
    ensures counted { result ≡ sum_on place sum }
    ensures small { (ticks : ℕ) → IsSmall ticks sum.item → IsSmall ticks result.item }
{
    if sum.place != place {
        return sum;
    }
    Sum {
        place: sum.place,
        index: sum.index,
        item: sum.item.occurred_once(),
    }
}

/// Takes the values of a state, noted at a time, into the sums whose last values were noted at another.
pub(crate) fn take_values(sums: &mut Vec<Sum>, model: &Model, state: &State, since: u64, time: u64)
    requires later { since ≤ time }
    requires small { All (λ s. IsSmall since s.item) sums.old.items }
    ensures taken { sums.new.items
        ≡ map (sum_at (graph_of model.now)
        (watched_values (map watched_of model.now.watch) state.now) since time) sums.old.items }
    ensures small { All (λ s. IsSmall time s.item) sums.new.items }
{
    for i in 0..sums.len() {
        sums[i] = with_noted_value(sums[i], model, state, since, time);
    }
}

/// Counts an event of the vertex at a place of the watch list.
pub(crate) fn count_at(sums: &mut Vec<Sum>, place: usize)
    ensures counted { sums.new.items ≡ map (sum_on place) sums.old.items }
    ensures small { (ticks : ℕ) → All (λ s. IsSmall ticks s.item) sums.old.items
        → All (λ s. IsSmall ticks s.item) sums.new.items }
{
    for i in 0..sums.len() {
        sums[i] = with_event(sums[i], place);
    }
}

/// The items of the sums, whose last values hold until a time.
pub(crate) fn items_until(
    alloc: Global,
    sums: &[Sum],
    since: u64,
    time: u64,
) -> Result<Vec<Item>, NoMemory>
    requires later { since ≤ time }
    requires small { All (λ s. IsSmall since s.item) sums.now }
    ensures held { IfOk result
        (λ items. items.items ≡ map (λ s. held_until since time s.item) sums.now) }
    ensures small { IfOk result (λ items. All (IsSmall time) items.items) }
{
    let mut items = Vec::with_capacity(alloc, sums.len())?;
    for sum in sums {
        items.push(sum.item.held_until(since, time))?;
    }
    Ok(items)
}
