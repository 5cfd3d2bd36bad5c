//! The rounds in which ranges grow.
#![tactic(auto, using(model_core::proofs::SignedBits::signed_bits))]

ghost use Rattle.std.specs.Prelude.{◌≡◌, ◌<◌, List, length, cond, IfOk};
ghost use Rattle.std.specs.List.{fold};
ghost use Rattle.model_core.specs.Run.State.{variable_at};
ghost use Rattle.model_core.specs.Code.Views.{graph_of};
ghost use Rattle.model_core.specs.Ranges.OtherRanges.{declared_range};
ghost use Rattle.model_core.specs.Ranges.Inductive.{is_fixed};
ghost use Rattle.model_core.specs.Ranges.Inference.{hull, ends_moved, each_variable, first_range, next_range};
ghost use Rattle.range_infer.specs.Inner.GrownBy.{grown_by};

use crate::fitting::is_fixed;
use crate::kept_range::{declared_range, kept_range};
use model_core::{Incoming, Model, VarRange};
use sig_base::NoMemory;
use std::alloc::Global;

/// The range with which the variable at this place begins.
fn first_range(model: &Model, place: usize) -> VarRange
    requires { place < length model.now.vars }
    ensures { result ≡ first_range (graph_of model.now) place }
{
    let var = &model.vars.as_slice()[place];
    if is_fixed(model, place) {
        declared_range(var)
    } else {
        VarRange {
            lo: var.initial,
            hi: var.initial,
        }
    }
}

/// The ranges before the first round.
pub(crate) fn first_ranges(alloc: Global, model: &Model) -> Result<Vec<VarRange>, NoMemory>
    ensures { IfOk result
        (λ ranges. ranges.items
        ≡ each_variable (graph_of model.now) (first_range (graph_of model.now))) }
{
    let mut ranges = Vec::new(alloc);
    for place in 0..model.vars.len() {
        ranges.push(first_range(model, place))?;
    }
    Ok(ranges)
}

fn hull(range: VarRange, kept: Option<VarRange>) -> VarRange
    ensures { result ≡ hull range kept }
{
    match kept {
        None => range,
        Some(kept) => VarRange {
            lo: range.lo.min(kept.lo),
            hi: range.hi.max(kept.hi),
        },
    }
}

/// Lets the range of a variable hold what the variable keeps of what it takes.
fn grow(model: &Model, grown: &mut Vec<VarRange>, taken: &Incoming)
    requires many { length grown.old.items ≡ length model.now.vars }
    ensures { grown.new.items ≡ grown_by (graph_of model.now) grown.old.items taken.now }
{
    if let Some(var) = model.vars.as_slice().get(taken.variable) {
        let kept = kept_range(var, &taken.bounds);
        let range = &mut grown[taken.variable];
        *range = hull(*range, kept);
    }
}

/// The same ranges.
pub(crate) fn copied(alloc: Global, ranges: &[VarRange]) -> Result<Vec<VarRange>, NoMemory>
    ensures { IfOk result (λ copy. copy.items ≡ ranges.now) }
{
    let copy: Vec<VarRange> = ranges.iter().copied().collect(alloc)?;
    Ok(copy)
}

/// The ranges, grown so far that they hold what variables keep of all that they take.
fn grown(
    alloc: Global,
    model: &Model,
    ranges: &[VarRange],
    takes: &[Incoming],
) -> Result<Vec<VarRange>, NoMemory>
    requires many { length ranges.now ≡ length model.now.vars }
    ensures many { IfOk result (λ grown. length grown.items ≡ length model.now.vars) }
    ensures value { IfOk result
        (λ grown. grown.items ≡ fold (grown_by (graph_of model.now)) ranges.now takes.now) }
{
    let mut grown = copied(alloc, ranges)?;
    for taken in takes {
        grow(model, &mut grown, taken);
    }
    Ok(grown)
}

fn ends_moved(late: bool, declared: VarRange, range: VarRange, new: VarRange) -> VarRange
    ensures { result ≡ ends_moved late declared range new }
{
    VarRange {
        lo: if late && new.lo < range.lo {
            declared.lo
        } else {
            new.lo
        },
        hi: if late && range.hi < new.hi {
            declared.hi
        } else {
            new.hi
        },
    }
}

/// The range of the variable at this place after a round, where it would be `new` if it may grow.
fn next_range(model: &Model, late: bool, place: usize, range: VarRange, new: VarRange) -> VarRange
    requires { place < length model.now.vars }
    ensures { result
        ≡ cond (is_fixed (graph_of model.now) place) range
        (ends_moved late (declared_range (variable_at (graph_of model.now) place)) range new) }
{
    if is_fixed(model, place) {
        range
    } else {
        let var = &model.vars.as_slice()[place];
        ends_moved(late, declared_range(var), range, new)
    }
}

/// The ranges of all variables after a round, where they would be `grown` if they may grow.
fn next_ranges(
    alloc: Global,
    model: &Model,
    late: bool,
    ranges: &[VarRange],
    grown: &[VarRange],
) -> Result<Vec<VarRange>, NoMemory>
    requires many { length ranges.now ≡ length model.now.vars }
    requires many_grown { length grown.now ≡ length model.now.vars }
    ensures { (takes : List Incoming)
        → grown.now ≡ fold (grown_by (graph_of model.now)) ranges.now takes
        → IfOk result
        (λ next. next.items
        ≡ each_variable (graph_of model.now)
        (next_range (graph_of model.now) late takes ranges.now)) }
{
    let mut next = Vec::new(alloc);
    for place in 0..model.vars.len() {
        next.push(next_range(model, late, place, ranges[place], grown[place]))?;
    }
    Ok(next)
}

/// The ranges after one more round, where variables take this.
pub(crate) fn next_round(
    alloc: Global,
    model: &Model,
    late: bool,
    ranges: &[VarRange],
    takes: &[Incoming],
) -> Result<Vec<VarRange>, NoMemory>
    requires many { length ranges.now ≡ length model.now.vars }
    ensures { IfOk result
        (λ next. next.items
        ≡ each_variable (graph_of model.now)
        (next_range (graph_of model.now) late takes.now ranges.now)) }
{
    let grown = grown(alloc, model, ranges, takes)?;
    next_ranges(alloc, model, late, ranges, grown.as_slice())
}
