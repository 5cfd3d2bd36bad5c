//! The values of variables, where they are known and in their ranges.

ghost use Rattle.std.specs.Prelude.{◌≡◌, ◌++◌, ◌+◌, ◌≤◌, true, length, map, take, drop, IfOk, IfSome};
ghost use Rattle.std.specs.List.{flat_map, list_all};
ghost use Rattle.model_core.specs.Run.State.{variable_at, cell_count};
ghost use Rattle.model_core.specs.Code.Views.{graph_of, variable_of, watched_of};
ghost use Rattle.model_core.specs.Code.WrittenViews.{written_signed};
ghost use Rattle.model_core.specs.Text.SnapshotGrammar.{WrittenValue};
ghost use Rattle.model_core.specs.Saved.Cells.{cell_variables, variables_watched};
ghost use Rattle.model_core.specs.Saved.GoodSnapshots.{signed_values, fit_variables, value_parts};
ghost use Rattle.snapshot_text.specs.Inner.Judging.{if_good, Judged, fits_between, fitting, value_good, cells_good, watched_good, watched_cells};
ghost use Rattle.snapshot_text.specs.Inner.RawParts.{written_value};

use crate::parts::RawValue;
use crate::snapshot_error::SnapshotError;
use model_core::{Model, RawSigned, Var, Watch};
use sig_base::{List, NoMemory};
use std::alloc::Global;

/// The least and the greatest value of a variable.
#[derive(Clone, Copy)]
pub(crate) struct Limits {
    pub lo: i64,
    pub hi: i64,
}

/// The value, if it is known and from `lo` to `hi`.
fn value_within(signed: RawSigned, lo: i64, hi: i64) -> Option<i64>
    ensures { result ≡ fitting lo hi (written_signed signed) }
{
    let number = signed.number.value?;
    let value = if signed.negative {
        number.checked_neg()?
    } else {
        number
    };
    if lo <= value && value <= hi {
        Some(value)
    } else {
        None
    }
}

/// Adds the values, and gives whether all of them are known and in the limits.
pub(crate) fn add_fitting(
    out: &mut Vec<i64>,
    limits: &Limits,
    values: &[RawSigned],
) -> Result<bool, NoMemory>
    ensures all { IfOk result
        (λ good. good
        ≡ list_all (fits_between limits.now.lo limits.now.hi) (map written_signed values.now)) }
    ensures added { IfOk result
        (λ good. good ≡ true
        → out.new.items ≡ out.old.items ++ signed_values (map written_signed values.now)) }
{
    for signed in values {
        let Some(value) = value_within(*signed, limits.lo, limits.hi) else {
            return Ok(false);
        };
        out.push(value)?;
    }
    Ok(true)
}

/// Adds the values of a variable, and gives whether they are good.
fn add_value(out: &mut Vec<i64>, var: &Var, value: &RawValue<'_>) -> Result<bool, NoMemory>
    ensures all { IfOk result
        (λ good. good ≡ value_good (variable_of var.now) (written_value value.now)) }
    ensures added { IfOk result
        (λ good. good ≡ true
        → out.new.items ≡ out.old.items ++ signed_values (written_value value.now).values) }
{
    if value.variable.bytes != var.name.as_slice() {
        return Ok(false);
    }
    if value.values.len() != var.size.max(1) {
        return Ok(false);
    }
    let limits = Limits {
        lo: var.lo,
        hi: var.hi,
    };
    add_fitting(out, &limits, value.values.as_slice())
}

/// The values of all variables, one after the other.
pub(crate) fn values_of(
    alloc: Global,
    model: &Model,
    values: &[RawValue<'_>],
) -> Result<List<i64>, SnapshotError>
    ensures { Judged result
        (value_parts (graph_of model.now).variables (map written_value values.now))
        (λ all. all ≡ flat_map (λ (w : WrittenValue). signed_values w.values)
        (map written_value values.now)) }
{
    let mut all = Vec::new(alloc);
    for (place, value) in values.iter().enumerate() {
        let Some(var) = model.vars.as_slice().get(place) else {
            return Err(SnapshotError::Bad { at: value.at });
        };
        if !add_value(&mut all, var, value)? {
            return Err(SnapshotError::Bad { at: value.at });
        }
    }
    Ok(List::from_vec(all))
}

/// The limits of the variable at a place, and of none where there is none, with the number of its cells.
fn limits_of(model: &Model, var: usize) -> (Limits, usize)
    ensures limits { (result.0.lo ≡ (variable_at (graph_of model.now) var).lo)
        × (result.0.hi ≡ (variable_at (graph_of model.now) var).hi) }
    ensures cells { result.1 ≡ cell_count (variable_at (graph_of model.now) var) }
{
    match model.vars.as_slice().get(var) {
        Some(found) => (
            Limits {
                lo: found.lo,
                hi: found.hi,
            },
            found.size.max(1),
        ),
        None => (Limits { lo: 0, hi: 0 }, 1),
    }
}

/// Adds the values of the cells of a variable, which begin at a place, and gives the place after them, if they are
/// there and all are good.
fn add_cells(
    out: &mut Vec<i64>,
    model: &Model,
    var: usize,
    values: &[RawSigned],
    from: usize,
) -> Result<Option<usize>, NoMemory>
    requires { from ≤ length values.now }
    ensures next { IfOk result
        (λ next. next
        ≡ if_good (cells_good (variable_at (graph_of model.now) var)
        (map written_signed (drop from values.now)))
        (from + cell_count (variable_at (graph_of model.now) var))) }
    ensures within { IfOk result (λ next. IfSome next (λ n. n ≤ length values.now)) }
    ensures added { IfOk result
        (λ next. IfSome next
        (λ n. out.new.items
        ≡ out.old.items
        ++ signed_values
        (map written_signed
        (take (cell_count (variable_at (graph_of model.now) var)) (drop from values.now))))) }
{
    let (limits, cells) = limits_of(model, var);
    if cells > values.len() - from {
        return Ok(None);
    }
    let upto = from + cells;
    if add_fitting(out, &limits, &values[from..upto])? {
        Ok(Some(upto))
    } else {
        Ok(None)
    }
}

/// Adds the values of a watched variable, which begin at a place, and gives the place after them, if
/// they exist and all are good. A watched vertex has none.
fn add_watched(
    out: &mut Vec<i64>,
    model: &Model,
    watch: Watch,
    values: &[RawSigned],
    from: usize,
) -> Result<Option<usize>, NoMemory>
    requires { from ≤ length values.now }
    ensures next { IfOk result
        (λ next. next
        ≡ if_good (watched_good (graph_of model.now) (watched_of watch)
        (map written_signed (drop from values.now)))
        (from + watched_cells (graph_of model.now) (watched_of watch))) }
    ensures within { IfOk result (λ next. IfSome next (λ n. n ≤ length values.now)) }
    ensures added { IfOk result
        (λ next. IfSome next
        (λ n. out.new.items
        ≡ out.old.items
        ++ signed_values
        (map written_signed
        (take (watched_cells (graph_of model.now) (watched_of watch)) (drop from values.now))))) }
{
    match watch {
        Watch::Variable { var } => add_cells(out, model, var, values, from),
        Watch::Event { .. } => Ok(Some(from)),
    }
}

/// The values of all watched cells, if they are good.
pub(crate) fn watched_values_of(
    alloc: Global,
    model: &Model,
    values: &[RawSigned],
) -> Result<Option<List<i64>>, NoMemory>
    ensures { IfOk result
        (λ found. found
        ≡ if_good (fit_variables
        (cell_variables (variables_watched (graph_of model.now) (graph_of model.now).watch))
        (map written_signed values.now)) (signed_values (map written_signed values.now))) }
{
    let mut all = Vec::new(alloc);
    let mut from = 0;
    for watch in model.watch.as_slice() {
        let Some(next) = add_watched(&mut all, model, *watch, values, from)? else {
            return Ok(None);
        };
        from = next;
    }
    if from < values.len() {
        return Ok(None);
    }
    Ok(Some(List::from_vec(all)))
}
