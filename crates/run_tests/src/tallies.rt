//! The tally of one run from any starting values, and why a run can't be tallied.

ghost use Rattle.std.specs.Prelude.{IfOk};
ghost use Rattle.model_core.specs.Code.Views.{graph_of};
ghost use Rattle.run_control.specs.PossibleModel.{PossibleModel};

use crate::small_models::{Refused, model_of};
use model_core::Model;
use run_control::kept_models_can_be_run;
use sig_base::{List, NoMemory};
use std::alloc::Global;
use std::test::*;
use tally_report::{Item, RunEnd, RunTally, Span, TallyError, tally_one};

/// `V` occurs at 3 and 6 before 8, and adds 2 to `N`, which begins as the starting value.
const COUNTING: &[u8] = b"model COUNTING; var N : 0..9 = 0; watch N, V;
    vertex RUN(N) { schedule V after 3; }
    vertex V { set N := N + 2; schedule V after 3; } end";

/// The model that counts. It can be run.
fn counting_model(alloc: Global) -> Result<Model, Refused>
    ensures { IfOk result (λ model. PossibleModel (graph_of model)) }
{
    let model = model_of(alloc, COUNTING)?;
    kept_models_can_be_run();
    Ok(model)
}

/// The tally of a run of a model up to 8, from these starting values.
fn tally_of(alloc: Global, model: &Model, starts: &[i64]) -> Result<RunTally, TallyError>
    requires { PossibleModel (graph_of model.now) }
{
    let starts = Vec::from_slice(alloc, starts).map_err(|_| NoMemory)?;
    tally_one(alloc, model, 7, 8, 100, &List::from_vec(starts))
}

/// The same of the model that counts.
fn tallied(alloc: Global, starts: &[i64]) -> Result<RunTally, TallyError> {
    match counting_model(alloc) {
        Ok(model) => tally_of(alloc, &model, starts),
        Err(_) => Err(TallyError::NoMemory),
    }
}

/// The area of `N`: 1 for 3 ticks, 3 for 3, and 5 for 2.
const AREA: i128 = 3 + 9 + 10;

/// The items of a run in which `N` begins as 1.
const FROM_ONE: [Item; 2] = [
    Item::Cell {
        span: Some(Span {
            least: 1,
            greatest: 5,
            last: 5,
        }),
        area: AREA,
    },
    Item::Count { occurrences: 2 },
];

#[test]
fn a_run_is_tallied(rt: HostRuntime) -> Result<(), Fail> {
    let tally = tallied(rt.alloc(), &[1])?;
    assert!(rt; tally.end == RunEnd::Stopped && tally.time == 8);
    assert!(rt; tally.items.as_slice() == FROM_ONE.as_slice());
    Ok(())
}

/// Why no run begins with these starting values.
fn refusal(alloc: Global, starts: &[i64]) -> Option<TallyError> {
    match tallied(alloc, starts) {
        Ok(_) => None,
        Err(error) => Some(error),
    }
}

#[test]
fn a_run_that_cannot_begin_is_refused(rt: HostRuntime) {
    let count = TallyError::StartCount {
        needed: 1,
        given: 2,
    };
    let outside = TallyError::StartOutside {
        place: 1,
        value: 10,
    };
    assert!(rt; refusal(rt.alloc(), &[1, 1]) == Some(count));
    assert!(rt; refusal(rt.alloc(), &[10]) == Some(outside));
}
