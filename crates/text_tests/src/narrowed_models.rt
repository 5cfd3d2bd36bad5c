//! Which ranges a model needs, which it may have, and the text of a model that declares those that
//! it needs.

ghost use Rattle.std.specs.Prelude.{◌≤◌, length, IfOk};
ghost use Rattle.model_core.specs.Static.Reading.{IsValid};
ghost use Rattle.model_core.specs.Code.Views.{graph_of};

use model_core::{Model, RuleError};
use model_lex::pieces;
use model_print::print;
use one_pass::read_model;
use range_infer::{RangeVerdict, VarRange, check_ranges, infer, narrow};
use sig_base::{List, NoMemory, TEXT_MAX, Text};
use std::alloc::Global;
use std::test::*;

/// A counter that turns at 5, a constant, and a counter that grows without end into its clip.
const TURNING: &[u8] = b"model NARROW;
var N : 0..1000 = 0;
var M : -50..50 = 3;
var K : 0..1000000 clip = 0;
watch N;
vertex RUN {
  set N := if N < 5 then N + 1 else 0;
  set K := K + 1;
  schedule RUN after 2;
}
end
";

const TURNING_NARROWED: &[u8] = b"model NARROW;
var N : 0..5 = 0;
var M : 3..3 = 3;
var K : 0..1000000 clip = 0;
watch N;
vertex RUN {
  set N := if N < 5 then N + 1 else 0;
  set K := K + 1;
  schedule RUN after 2;
}
end
";

/// A model that needs all that it declares.
const CLOCK: &[u8] = b"model CLOCK;
var N : 0..3 clip = 0;
watch N;
vertex RUN {
  set N := N + 1;
  schedule RUN after 5;
}
end
";

/// The model that a text reads as.
fn valid_model(alloc: Global, text: &[u8]) -> Result<Model, NoMemory>
    requires { length text.now ≤ TEXT_MAX }
    ensures { IfOk result (λ model. IsValid (graph_of model)) }
{
    let pieces = pieces(alloc, text).map_err(|_| NoMemory)?;
    match read_model(alloc, &pieces) {
        Ok(model) => Ok(model),
        Err(_) => Err(NoMemory),
    }
}

/// The ranges that the model needs that a text reads as.
fn needed(alloc: Global, text: &[u8]) -> Result<List<VarRange>, NoMemory>
    requires { length text.now ≤ TEXT_MAX }
{
    let model = valid_model(alloc, text)?;
    infer(alloc, &model)
}

fn listed(alloc: Global, ranges: &[(i64, i64)]) -> Result<List<VarRange>, NoMemory> {
    let mut list = Vec::new(alloc);
    for (lo, hi) in ranges {
        list.push(VarRange { lo: *lo, hi: *hi })?;
    }
    Ok(List::from_vec(list))
}

/// The answer about ranges for the counter that turns and its two neighbours.
fn answer_about(alloc: Global, ranges: &[(i64, i64)]) -> Result<RangeVerdict, NoMemory> {
    let model = valid_model(alloc, TURNING)?;
    let ranges = listed(alloc, ranges)?;
    check_ranges(alloc, &model, &ranges)
}

/// The text of the model with these ranges declared.
fn with_ranges(alloc: Global, ranges: &[(i64, i64)]) -> Result<Text, RuleError> {
    let mut model = valid_model(alloc, TURNING)?;
    let ranges = listed(alloc, ranges)?;
    narrow(alloc, &mut model, &ranges)?;
    Ok(print(alloc, &model)?)
}

#[test]
fn a_clock_needs_all_that_it_declares(rt: HostRuntime) -> Result<(), Fail> {
    assert_eq!(rt;
        needed(rt.alloc(), CLOCK)?.as_slice(),
        [VarRange { lo: 0, hi: 3 }].as_slice()
    );
    Ok(())
}

#[test]
fn the_first_range_that_fails_is_named(rt: HostRuntime) -> Result<(), Fail> {
    for (ranges, verdict) in [
        (
            [(0, 4), (3, 3), (0, 1000000)],
            RangeVerdict::Fails { var: 0 },
        ),
        (
            [(0, 5), (3, 3), (0, 999999)],
            RangeVerdict::Fails { var: 2 },
        ),
        (
            [(0, 5), (4, 4), (0, 1000000)],
            RangeVerdict::Fails { var: 1 },
        ),
        ([(0, 5), (3, 3), (0, 1000000)], RangeVerdict::Inductive),
        (
            [(0, 1000), (-50, 50), (0, 1000000)],
            RangeVerdict::Inductive,
        ),
        ([(0, 5), (3, 2), (0, 1000000)], RangeVerdict::Unfit),
        ([(0, 1001), (3, 3), (0, 1000000)], RangeVerdict::Unfit),
    ] {
        assert_eq!(rt; answer_about(rt.alloc(), ranges.as_slice())?, verdict);
    }
    assert_eq!(rt;
        answer_about(rt.alloc(), [(0, 5)].as_slice())?,
        RangeVerdict::Unfit
    );
    Ok(())
}

#[test]
fn ranges_that_runs_keep_are_declared(rt: HostRuntime) {
    let needed = [(0, 5), (3, 3), (0, 1000000)];
    let text = with_ranges(rt.alloc(), needed.as_slice());
    assert!(rt; text.is_ok_and(|text| text.as_slice() == TURNING_NARROWED));
    let unfit = with_ranges(rt.alloc(), [(0, 5)].as_slice());
    assert!(rt; unfit.is_err_and(|e| e == RuleError::Refused { condition: 1 }));
    let left = with_ranges(rt.alloc(), [(0, 4), (3, 3), (0, 1000000)].as_slice());
    assert!(rt; left.is_err_and(|e| e == RuleError::Refused { condition: 2 }));
}
