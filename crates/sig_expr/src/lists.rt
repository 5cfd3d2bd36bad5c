//! The values of several expressions, and the places that several targets name.

ghost use Rattle.std.specs.Prelude.{◌≡◌, [], ◌≤◌, All, IsTrue, length, map};
ghost use Rattle.sig_base.specs.declared.limits.TheConstants.{TARGETS_MAX, STOP_MAX};
ghost use Rattle.model_core.specs.Run.State.{in_range};
ghost use Rattle.model_core.specs.Run.Value.{each, value_of, place_of};
ghost use Rattle.model_core.specs.Code.Views.{graph_of, expression_of, location_of};
ghost use Rattle.sig_expr.specs.Outcomes.{with_ok};
ghost use Rattle.sig_expr.specs.Possible.{PossibleExpression, PossibleLocation};

use crate::evaluation::{cell_index, value};
use crate::place::Place;
use crate::state::State;
use arrayvec::ArrayVec;
use model_core::{Expr, Model, Target};
use sig_base::{FaultKind, TARGETS_MAX};

/// Puts the values of expressions, at a clock's time in ticks, into an empty list that has room for them, up to the first
/// that faults.
pub fn put_values<const N: usize>(
    model: &Model,
    exprs: &[Expr],
    state: &State,
    clk: u64,
    values: &mut ArrayVec<i64, N>,
) -> Result<(), FaultKind>
    requires empty { values.old.items ≡ [] }
    requires has_room { length exprs.now ≤ N }
    requires possible { All (PossibleExpression (graph_of model.now))
        (map expression_of exprs.now) }
    requires inside { IsTrue (in_range (graph_of model.now) state.now) }
    requires soon { clk ≤ STOP_MAX }
    ensures { with_ok values.new.items result
        ≡ each (value_of (graph_of model.now) state.now clk) (map expression_of exprs.now) }
{
    for expr in exprs {
        values.push(value(model, expr, state, clk)?);
    }
    Ok(())
}

/// The place that a target names.
pub fn place(model: &Model, target: &Target, state: &State, clk: u64) -> Result<Place, FaultKind>
    requires possible { PossibleLocation (graph_of model.now) (location_of target.now) }
    requires inside { IsTrue (in_range (graph_of model.now) state.now) }
    requires soon { clk ≤ STOP_MAX }
    ensures { result ≡ place_of (graph_of model.now) state.now clk (location_of target.now) }
{
    let var = target.var;
    match &target.index {
        None => Ok(Place { var, index: 0 }),
        Some(index) => {
            let index = cell_index(model, var, value(model, index, state, clk)?)?;
            Ok(Place { var, index })
        }
    }
}

/// Puts the places that the targets of a `set` name into an empty list, up to the first that faults.
pub fn put_places(
    model: &Model,
    targets: &[Target],
    state: &State,
    clk: u64,
    places: &mut ArrayVec<Place, TARGETS_MAX>,
) -> Result<(), FaultKind>
    requires empty { places.old.items ≡ [] }
    requires few_targets { length targets.now ≤ TARGETS_MAX }
    requires possible { All (PossibleLocation (graph_of model.now)) (map location_of targets.now) }
    requires inside { IsTrue (in_range (graph_of model.now) state.now) }
    requires soon { clk ≤ STOP_MAX }
    ensures { with_ok places.new.items result
        ≡ each (place_of (graph_of model.now) state.now clk) (map location_of targets.now) }
{
    for target in targets {
        places.push(place(model, target, state, clk)?);
    }
    Ok(())
}
