//! Stores into variables.

ghost use Rattle.std.specs.Prelude.{◌≡◌, ◌<◌, length, zip, All, IsTrue, OnErr};
ghost use Rattle.model_core.specs.Run.State.{in_range, cells_of};
ghost use Rattle.model_core.specs.Run.Value.{in_turn};
ghost use Rattle.model_core.specs.Run.Changes.{kept, store};
ghost use Rattle.model_core.specs.Run.LeftByFaults.{left_by_stores};
ghost use Rattle.model_core.specs.Code.Views.{graph_of, variable_of};
ghost use Rattle.sig_expr.specs.Outcomes.{with_ok};
ghost use Rattle.sig_expr.specs.Inner.Placed.{DeclaredPlace};

use crate::place::Place;
use crate::state::State;
use model_core::{Model, Var};
use sig_base::FaultKind;

/// The value that a variable keeps when a value is stored in it.
fn kept_value(var: &Var, x: i64) -> Result<i64, FaultKind>
    ensures { result ≡ kept (variable_of var.now) x }
{
    if var.lo <= x && x <= var.hi {
        return Ok(x);
    }
    if !var.clip {
        return Err(FaultKind::RangeOutside);
    }
    Ok(if x < var.lo { var.lo } else { var.hi })
}

/// Puts what a variable keeps of a value into a cell of it.
fn put_kept(
    model: &Model,
    var: usize,
    index: usize,
    value: i64,
    state: &mut State,
) -> Result<(), FaultKind>
    requires declared { var < length model.now.vars }
    requires exists { var < length state.old }
    requires inside { index < length (cells_of state.old var) }
    ensures stores { with_ok state.new result
        ≡ store (graph_of model.now) (record { variable = var; index = index }, value) state.old }
    ensures fault { OnErr result (state.new ≡ state.old) }
{
    let kept = kept_value(&model.vars.as_slice()[var], value)?;
    state.put(var, index, kept);
    Ok(())
}

/// Stores a value in a cell, of which index 0 is a scalar's. The fault is `RangeOutside`, where the value lies outside
/// the variable's range and the variable isn't `clip`.
pub fn store(
    model: &Model,
    var: usize,
    index: usize,
    value: i64,
    state: &mut State,
) -> Result<(), FaultKind>
    requires declared { var < length model.now.vars }
    requires exists { var < length state.old }
    requires inside { index < length (cells_of state.old var) }
    ensures stores { with_ok state.new result
        ≡ store (graph_of model.now) (record { variable = var; index = index }, value) state.old }
    ensures fault { OnErr result (state.new ≡ state.old) }
    // A state in range stays so.
    ensures stays_in_range { IsTrue (in_range (graph_of model.now) state.old)
        → IsTrue (in_range (graph_of model.now) state.new) }
{
    put_kept(model, var, index, value, state)
}

/// Stores a value at a place that is declared.
pub fn store_at(model: &Model, place: Place, value: i64, state: &mut State) -> Result<(), FaultKind>
    requires place { DeclaredPlace (graph_of model.now) place }
    requires inside { IsTrue (in_range (graph_of model.now) state.old) }
    ensures stores { with_ok state.new result
        ≡ store (graph_of model.now) (place, value) state.old }
    ensures fault { OnErr result (state.new ≡ state.old) }
    ensures stays_in_range { IsTrue (in_range (graph_of model.now) state.new) }
{
    store(model, place.var, place.index, value, state)
}

/// Stores each value at its place, from left to right.
pub fn store_all(
    model: &Model,
    places: &[Place],
    values: &[i64],
    state: &mut State,
) -> Result<(), FaultKind>
    requires matched { length values.now ≡ length places.now }
    requires places { All (DeclaredPlace (graph_of model.now)) places.now }
    requires inside { IsTrue (in_range (graph_of model.now) state.old) }
    ensures stores { with_ok state.new result
        ≡ in_turn (store (graph_of model.now)) (zip places.now values.now) state.old }
    ensures left { state.new
        ≡ left_by_stores (graph_of model.now) (zip places.now values.now) state.old }
    ensures stays_in_range { IsTrue (in_range (graph_of model.now) state.new) }
{
    for i in 0..places.len() {
        store_at(model, places[i], values[i], state)?;
    }
    Ok(())
}
