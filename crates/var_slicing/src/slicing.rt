//! Slice: the model without the variables that aren't needed.

ghost use Rattle.std.specs.Prelude.{◌≡◌, None, OnOk, OnErr, IfErr};
ghost use Rattle.model_core.specs.Rules.Conditions.{first_failed};
ghost use Rattle.model_core.specs.Rules.RefusedCondition.{NamesCondition};
ghost use Rattle.model_core.specs.Rules.Slice.{slice_conditions, sliced};
ghost use Rattle.model_core.specs.Code.Views.{graph_of};

use crate::dropping_variables::keep_and_renumber;
use crate::marking::needed;
use marked_walks::{Staying, unmarked};
use model_core::{Model, RuleError};
use sig_base::List;
use std::alloc::Global;

/// Takes variables away: exactly those that aren't needed, and one at least, by their places in the order of declaration.
/// What is stored in them goes with them, and those that stay are numbered anew.
pub fn slice(alloc: Global, model: &mut Model, vars: &List<usize>) -> Result<(), RuleError>
    ensures done { OnOk result
        ((first_failed (slice_conditions (graph_of model.old) vars.now) ≡ None)
        × (graph_of model.new ≡ sliced (graph_of model.old) vars.now)) }
    ensures refused { IfErr result
        (λ e. NamesCondition e (first_failed (slice_conditions (graph_of model.old) vars.now))) }
    ensures unchanged { OnErr result (graph_of model.new ≡ graph_of model.old) }
{
    if vars.len() == 0 {
        return Err(RuleError::Refused { condition: 1 });
    }
    let marks = needed(alloc, model)?;
    let others = unmarked(alloc, marks.as_slice())?;
    if vars.as_slice() != others.as_slice() {
        return Err(RuleError::Refused { condition: 2 });
    }
    let staying = Staying::of(alloc, marks)?;
    keep_and_renumber(alloc, model, &staying);
    Ok(())
}
