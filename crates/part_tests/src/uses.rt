//! Which streams a change and an edge draw from, and counts of uses from which a change is taken back.

ghost use Rattle.std.specs.Prelude.{◌≡◌, ◌∷◌, []};
ghost use Rattle.model_core.specs.Rules.Uses.{change_reads, change_writes};
ghost use Rattle.model_core.specs.Code.Views.{change_of};
ghost use Rattle.use_analysis.specs.UseNumbers.{no_numbers};

use crate::copies::drawing_model;
use model_core::{Change, Choice, Delay, Edge, EdgeForm, Expr, Target};
use sig_base::{List, NoMemory};
use std::alloc::Global;
use std::mem::forget;
use std::test::*;
use use_analysis::{UseCounts, draws_of_change, draws_of_edge};

const DIE: Choice = Choice::Uniform { lo: 1, hi: 6 };

/// The change `draw N[N] from 7 in 1..6`, where `N` is the first variable.
fn drawing_change() -> Change
    ensures reads { change_reads (change_of result) ≡ 0 ∷ [] }
    ensures writes { change_writes (change_of result) ≡ 0 ∷ [] }
{
    Change::Draw {
        target: Target {
            var: 0,
            index: Some(Expr::Scalar(0)),
        },
        stream: 7,
        choice: DIE,
    }
}

/// The edge `schedule RUN after draw from 9 in 1..6`.
fn drawing_edge(alloc: Global) -> Edge {
    let delay = Delay::Drawn {
        stream: 9,
        choice: DIE,
    };
    Edge {
        target: 0,
        values: List::new(alloc),
        condition: Expr::Truth(true),
        form: EdgeForm::Schedule {
            delay,
            priority: 100,
        },
    }
}

#[test]
fn a_change_draws_from_its_stream_alone(rt: HostRuntime) {
    let change = drawing_change();
    let found = [6, 7, 8, 9].map(|stream| draws_of_change(&change, stream));
    forget(change);
    assert_eq!(rt; found, [false, true, false, false]);
}

#[test]
fn an_edge_draws_from_the_stream_of_its_delay_alone(rt: HostRuntime) {
    let edge = drawing_edge(rt.alloc());
    let found = [7, 8, 9, 10].map(|stream| draws_of_edge(&edge, stream));
    forget(edge);
    assert_eq!(rt; found, [false, false, true, false]);
}

/// How many parts read the first variable, and how many set it.
fn uses(counts: &UseCounts) -> (u64, u64) {
    (counts.readers(0), counts.setters(0))
}

/// The uses of one variable when no part counts, when a change counts that reads and sets it, and when that is taken back.
fn counted_and_taken_back(counts: &mut UseCounts) -> [(u64, u64); 3]
    requires { counts.old ≡ no_numbers 1 }
{
    let change = drawing_change();
    let nothing = uses(counts);
    counts.add_change(&change);
    let counted = uses(counts);
    counts.take_change(&change);
    forget(change);
    [nothing, counted, uses(counts)]
}

/// The same in a model of one variable.
fn uses_in_turn(alloc: Global) -> Result<Option<[(u64, u64); 3]>, NoMemory> {
    let model = drawing_model(alloc, 5)?;
    let is_one = model.vars.len() == 1;
    let mut counts = UseCounts::begin(alloc, &model)?;
    forget(model);
    if is_one {
        Ok(Some(counted_and_taken_back(&mut counts)))
    } else {
        Ok(None)
    }
}

#[test]
fn a_change_that_is_taken_back_counts_no_more(rt: HostRuntime) -> Result<(), Fail> {
    assert_eq!(rt; uses_in_turn(rt.alloc())?, Some([(0, 0), (1, 1), (0, 0)]));
    Ok(())
}
