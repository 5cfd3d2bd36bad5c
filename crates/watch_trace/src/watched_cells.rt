//! The values of all watched cells, in one list that takes no memory once it is made.

ghost use Rattle.std.specs.Prelude.{◌≡◌, ◌+◌, ◌≤◌, not, map, length, vec_capacity, IfOk, OnOk};
ghost use Rattle.std.specs.List.{flat_map, sum_by};
ghost use Rattle.model_core.specs.Run.Pending.{same_values};
ghost use Rattle.model_core.specs.Code.Views.{graph_of, watched_of};
ghost use Rattle.sig_expr.specs.WatchedValues.{values_watched};
ghost use Rattle.watch_trace.specs.Inner.KeptNotes.{watched_size};

use model_core::{Model, Watch};
use sig_base::NoMemory;
use sig_expr::{State, cells_declared};
use std::alloc::Global;

/// How many values there are of a watched thing.
fn watched_size(model: &Model, watch: Watch) -> usize
    ensures { result ≡ watched_size (graph_of model.now) (watched_of watch) }
{
    match watch {
        Watch::Variable { var } => cells_declared(model, var),
        Watch::Event { vertex: _ } => 0,
    }
}

/// Adds so many zeros.
fn add_zeros(values: &mut Vec<i64>, count: usize) -> Result<(), NoMemory>
    ensures { OnOk result (length values.new.items ≡ length values.old.items + count) }
{
    for _ in 0..count {
        values.push(0)?;
    }
    Ok(())
}

/// A zero for each watched cell of a model.
pub fn zeros(alloc: Global, model: &Model) -> Result<Vec<i64>, NoMemory>
    ensures { IfOk result
        (λ values. length values.items
        ≡ sum_by (watched_size (graph_of model.now)) (map watched_of model.now.watch)) }
{
    let mut values = Vec::new(alloc);
    for watch in model.watch.as_slice() {
        add_zeros(&mut values, watched_size(model, *watch))?;
    }
    Ok(values)
}

/// Whether these are the watched values of a state.
pub fn are_same(watch: &[Watch], values: &[i64], state: &State) -> bool
    requires { length (flat_map (values_watched state.now) (map watched_of watch.now))
        ≡ length values.now }
    ensures { result
        ≡ same_values values.now (flat_map (values_watched state.now) (map watched_of watch.now)) }
{
    let mut from = 0;
    for watched in watch {
        let cells = state.values_watched(*watched);
        let upto = from + cells.len();
        if &values[from..upto] != cells {
            return false;
        }
        from = upto;
    }
    true
}

/// Takes these values in place of those before.
pub fn put_values(values: &mut Vec<i64>, others: &[i64])
    requires { length others.now ≤ vec_capacity values.old }
    ensures { values.new.items ≡ others.now }
{
    values.clear();
    values.extend_from_slice(others).unwrap();
}

/// Puts values in place of as many others, and gives whether they aren't the same. Not inlined: most things that are
/// watched have one value, or none.
#[inline(never)]
fn replace_all(place: &mut [i64], cells: &[i64]) -> bool
    requires { length place.old ≡ length cells.now }
    ensures put { place.new ≡ cells.now }
    ensures new { result ≡ not (same_values place.old cells.now) }
{
    let new = *place != *cells;
    place.copy_from_slice(cells);
    new
}

/// Puts values in place of as many others, and gives whether they aren't the same: at once, unless there are several.
#[inline(always)]
fn replace(place: &mut [i64], cells: &[i64]) -> bool
    requires { length place.old ≡ length cells.now }
    ensures put { place.new ≡ cells.now }
    ensures new { result ≡ not (same_values place.old cells.now) }
{
    match cells {
        [] => false,
        [value] => {
            let new = place[0] != *value;
            place[0] = *value;
            new
        }
        [_, _, ..] => replace_all(place, cells),
    }
}

/// Takes the watched values of a state in place of those before, and gives whether they aren't the same.
pub fn take_values(values: &mut [i64], watch: &[Watch], state: &State) -> bool
    requires { length (flat_map (values_watched state.now) (map watched_of watch.now))
        ≡ length values.old }
    ensures taken { values.new ≡ flat_map (values_watched state.now) (map watched_of watch.now) }
    ensures new { result
        ≡ not (same_values values.old
        (flat_map (values_watched state.now) (map watched_of watch.now))) }
{
    let mut new = false;
    let mut from = 0;
    for watched in watch {
        let cells = state.values_watched(*watched);
        let upto = from + cells.len();
        let replaced = replace(&mut values[from..upto], cells);
        new = replaced | new;
        from = upto;
    }
    new
}
