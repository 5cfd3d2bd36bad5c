//! The starting values of a run: whether its first event may carry them, and how that event is scheduled.

ghost use Rattle.std.specs.Prelude.{◌≡◌, ◌+◌, ◌<◌, ◌≤◌, [], ◌∷◌, ◌++◌, IsTrue, IfOk, IfErr, OnOk, length};
ghost use Rattle.std.specs.Result.{IsErrOf};
ghost use Rattle.sig_base.specs.declared.limits.TheConstants.{PARAMETERS_MAX};
ghost use Rattle.model_core.specs.Run.State.{within};
ghost use Rattle.model_core.specs.Run.History.{allowed};
ghost use Rattle.model_core.specs.Code.Views.{graph_of, variable_of};
ghost use Rattle.run_control.specs.PossibleModel.{PossibleModel};
ghost use Rattle.run_control.specs.Beginning.{RefusesStart};

use crate::begin_error::BeginError;
use event_list::{Entry, Pending};
use model_core::{Model as Graph, Var};
use sig_base::{Carried, Steps};
use std::marker::Model;
use std::sync::ledger::{Blank, Ledger};

/// Whether a value lies in a variable's declared range, clip or not.
fn is_within(var: &Var, value: i64) -> bool
    ensures { result ≡ within (variable_of var.now).lo (variable_of var.now).hi value }
{
    var.lo <= value && value <= var.hi
}

/// Starting values that a model takes, with the model: one for each parameter of its first vertex, each in its range.
#[derive(Drop)]
pub struct AllowedStarts<'m, 's> {
    model: &'m Graph,
    values: &'s [i64],
}

impl<'m, 's> Model for AllowedStarts<'m, 's> {
    ghost use Rattle.std.specs.Prelude.{IsTrue};
    ghost use Rattle.std.specs.Coded.{codes};
    ghost use Rattle.model_core.specs.Run.History.{allowed};
    ghost use Rattle.model_core.specs.Code.Views.{graph_of};
    ghost use Rattle.model_core.specs.contracts.expr.Expr as expressions;
    ghost use Rattle.run_control.specs.ModelWithStarts.{ModelWithStarts};

    ghost Value = { ModelWithStarts };

    ghost coded = { Prim.hlevel (codes, expressions.the_row.coded) };

    ghost view = { λ s. record { model = s.model.now; values = s.values.now } };

    ghost invariant = { λ s. IsTrue (allowed (graph_of s.model.now) s.values.now) };
}

impl<'m> AllowedStarts<'m, '_> {
    /// The model, which takes the values.
    pub fn model(&self) -> &'m Graph
        ensures model { result.now ≡ self.now.model }
        ensures takes { IsTrue (allowed (graph_of self.now.model) self.now.values) }
    {
        self.model
    }

    /// The values as the first event carries them.
    pub(crate) fn carried_starts(&self) -> Carried
        requires { PossibleModel (graph_of self.now.model) }
        ensures { result.items ≡ self.now.values }
    {
        carried_starts(self.values)
    }
}

/// Looks at starting values: whether they are as many as the first vertex's parameters, each in its range. It takes no
/// memory, so that they can be judged before memory is asked for.
pub fn check_starts<'m, 's>(
    model: &'m Graph,
    starts: &'s [i64],
) -> Result<AllowedStarts<'m, 's>, BeginError>
    requires { PossibleModel (graph_of model.now) }
    ensures ok { OnOk result (IsTrue (allowed (graph_of model.now) starts.now)) }
    ensures holds { IfOk result
        (λ checked. checked ≡ record { model = model.now; values = starts.now }) }
    ensures err { IfErr result (RefusesStart (graph_of model.now) starts.now) }
    ensures asks_none { IsErrOf result BeginError.NoMemory → ⊥ }
{
    let params = model.vertices.as_slice()[0].params.as_slice();
    if params.len() != starts.len() {
        return Err(BeginError::StartCount {
            needed: params.len(),
            given: starts.len(),
        });
    }
    for i in 0..starts.len() {
        let value = starts[i];
        if !is_within(&model.vars.as_slice()[params[i]], value) {
            return Err(BeginError::StartOutside {
                place: i + 1,
                value,
            });
        }
    }
    Ok(AllowedStarts {
        model,
        values: starts,
    })
}

/// Starting values as the first event carries them.
fn carried_starts(starts: &[i64]) -> Carried
    requires { length starts.now ≤ PARAMETERS_MAX }
    ensures { result.items ≡ starts.now }
{
    let mut values = Carried::new();
    values.try_extend_from_slice(starts).unwrap();
    values
}

/// Schedules the first event of a run, without a count of the comparisons of keys.
pub fn schedule_first<P: Pending, L: Ledger>(pending: &mut P, first: &Entry, blank: Blank)
    requires name { blank.name ≡ L.name }
    requires parts { blank.parts ≡ L.parts }
    requires some { 0 < blank.parts }
    requires spare { 0 < P.spare pending.old }
    requires fresh { P.numbered pending.old ≡ 0 }
    requires vertex_exists { first.now.vertex < P.vertices pending.old }
    ensures entries { P.entries pending.new ≡ P.entries pending.old ++ first.now ∷ [] }
    ensures spare { P.spare pending.old ≤ P.spare pending.new + 1 }
    ensures numbered { P.numbered pending.new ≡ 1 }
    ensures vertices { P.vertices pending.new ≡ P.vertices pending.old }
{
    let mut steps: Steps<L> = Steps::begin(blank);
    pending.schedule(first, &mut steps);
}
