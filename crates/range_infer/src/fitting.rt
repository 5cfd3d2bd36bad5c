//! Ranges that fit a model.

ghost use Rattle.std.specs.Prelude.{◌≡◌, ◌==◌, ◌↔◌, IsTrue};
ghost use Rattle.std.specs.List.{list_any};
ghost use Rattle.model_core.specs.Run.State.{variable_at};
ghost use Rattle.model_core.specs.Code.Views.{graph_of, variable_of};
ghost use Rattle.model_core.specs.Rules.BoundsOfParts.{is_truth_kind};
ghost use Rattle.model_core.specs.Ranges.Inductive.{is_fixed, Fitting};
ghost use Rattle.range_infer.specs.Inner.RangeTests.{range_fits};

use model_core::{Kind, Model, Var, VarRange};

fn is_among(vars: &[usize], var: usize) -> bool
    ensures { result ≡ list_any (λ p. p == var) vars.now }
{
    for other in vars {
        if *other == var {
            return true;
        }
    }
    false
}

fn holds_truths(model: &Model, var: usize) -> bool
    ensures { result ≡ is_truth_kind (variable_at (graph_of model.now) var).kind }
{
    match model.vars.as_slice().get(var) {
        Some(found) => matches!(found.kind, Kind::Truth),
        None => false,
    }
}

/// Whether the range of the variable at this place stays as it is declared.
pub(crate) fn is_fixed(model: &Model, var: usize) -> bool
    ensures { result ≡ is_fixed (graph_of model.now) var }
{
    holds_truths(model, var) || is_among(model.parameters_at(0), var)
}

/// Whether a variable whose declared range may change or not may have this range.
fn range_fits(fixed: bool, var: &Var, range: VarRange) -> bool
    ensures { result ≡ range_fits fixed (variable_of var.now) range }
{
    range.lo <= range.hi
        && var.lo <= range.lo
        && range.hi <= var.hi
        && (!fixed || range.lo == var.lo && range.hi == var.hi)
}

/// Whether there is a range for each variable that fits it.
pub(crate) fn are_fitting(model: &Model, ranges: &[VarRange]) -> bool
    ensures { IsTrue result ↔ Fitting (graph_of model.now) ranges.now }
{
    let vars = model.vars.as_slice();
    if ranges.len() != vars.len() {
        return false;
    }
    for (place, var) in vars.iter().enumerate() {
        if !range_fits(is_fixed(model, place), var, ranges[place]) {
            return false;
        }
    }
    true
}
