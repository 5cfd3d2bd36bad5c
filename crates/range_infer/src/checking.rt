//! The check of ranges: whether they fit a model and are inductive, and else the first variable whose range doesn't suffice.

ghost use Rattle.std.specs.Prelude.{◌≡◌, ◌<◌, ◌≤◌, ℕ, length, IfOk};
ghost use Rattle.std.specs.List.{fold};
ghost use Rattle.model_core.specs.Run.State.{variable_at};
ghost use Rattle.model_core.specs.Code.Views.{graph_of};
ghost use Rattle.model_core.specs.Ranges.OtherRanges.{LiesIn, range_at};
ghost use Rattle.model_core.specs.Ranges.Incoming.{kept_range};
ghost use Rattle.model_core.specs.Ranges.Inductive.{Fitting};
ghost use Rattle.range_infer.specs.RangeVerdicts.{VerdictHolds};
ghost use Rattle.range_infer.specs.Inner.RangeTests.{encloses_kept, first_after};

use crate::collecting::incoming;
use crate::fitting::are_fitting;
use crate::kept_range::kept_range;
use crate::part_reads::all_parts_read;
use crate::range_verdict::RangeVerdict;
use model_core::{Incoming, Model, VarRange};
use sig_base::{List, NoMemory};
use std::alloc::Global;

/// The first variable whose initial value lies outside its range, or how many variables there are.
fn first_wrong_start(model: &Model, ranges: &[VarRange]) -> usize
    requires many { length ranges.now ≡ length model.now.vars }
    ensures within { result ≤ length model.now.vars }
    ensures before { (w : ℕ) → w < result
        → LiesIn (range_at ranges.now w) (variable_at (graph_of model.now) w).initial }
    ensures wrong { result < length model.now.vars
        → LiesIn (range_at ranges.now result) (variable_at (graph_of model.now) result).initial
        → ⊥ }
{
    let vars = model.vars.as_slice();
    for (place, var) in vars.iter().enumerate() {
        let range = ranges[place];
        if var.initial < range.lo || range.hi < var.initial {
            return place;
        }
    }
    vars.len()
}

fn encloses_kept(range: VarRange, kept: Option<VarRange>) -> bool
    ensures { result ≡ encloses_kept range kept }
{
    match kept {
        None => true,
        Some(kept) => range.lo <= kept.lo && kept.hi <= range.hi,
    }
}

/// Whether what a variable keeps of what it takes lies in its range.
fn holds_incoming(model: &Model, ranges: &[VarRange], taken: &Incoming) -> bool
    requires many { length ranges.now ≡ length model.now.vars }
    requires there { taken.now.variable < length model.now.vars }
    ensures { result
        ≡ encloses_kept (range_at ranges.now taken.now.variable)
        (kept_range (variable_at (graph_of model.now) taken.now.variable) taken.now.bounds) }
{
    let var = &model.vars.as_slice()[taken.variable];
    encloses_kept(ranges[taken.variable], kept_range(var, &taken.bounds))
}

fn first_after(model: &Model, ranges: &[VarRange], first: usize, taken: &Incoming) -> usize
    requires many { length ranges.now ≡ length model.now.vars }
    requires within { first ≤ length model.now.vars }
    ensures within { result ≤ length model.now.vars }
    ensures value { result ≡ first_after (graph_of model.now) ranges.now first taken.now }
{
    if taken.variable < first && !holds_incoming(model, ranges, taken) {
        taken.variable
    } else {
        first
    }
}

/// The first of this variable and those that keep something outside their ranges of what they take.
fn first_outside(model: &Model, ranges: &[VarRange], start: usize, takes: &[Incoming]) -> usize
    requires many { length ranges.now ≡ length model.now.vars }
    requires within { start ≤ length model.now.vars }
    ensures { result ≡ fold (first_after (graph_of model.now) ranges.now) start takes.now }
{
    let mut first = start;
    for taken in takes {
        first = first_after(model, ranges, first, taken);
    }
    first
}

/// The verdict on ranges that fit.
fn check_fitting(
    alloc: Global,
    model: &Model,
    ranges: &[VarRange],
) -> Result<RangeVerdict, NoMemory>
    requires fitting { Fitting (graph_of model.now) ranges.now }
    ensures { IfOk result (VerdictHolds (graph_of model.now) ranges.now) }
{
    let reads = all_parts_read(alloc, model)?;
    let takes = incoming(alloc, model, reads.as_slice(), ranges)?;
    let start = first_wrong_start(model, ranges);
    let first = first_outside(model, ranges, start, takes.as_slice());
    if first < model.vars.len() {
        Ok(RangeVerdict::Fails { var: first })
    } else {
        Ok(RangeVerdict::Inductive)
    }
}

/// Whether ranges fit a model and no run leaves them, and else why not.
pub fn check_ranges(
    alloc: Global,
    model: &Model,
    ranges: &List<VarRange>,
) -> Result<RangeVerdict, NoMemory>
    ensures { IfOk result (VerdictHolds (graph_of model.now) ranges.now) }
{
    if are_fitting(model, ranges.as_slice()) {
        check_fitting(alloc, model, ranges.as_slice())
    } else {
        Ok(RangeVerdict::Unfit)
    }
}
