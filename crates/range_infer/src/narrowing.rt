//! Narrow: a model with ranges declared that no run leaves.

ghost use Rattle.std.specs.Prelude.{◌≡◌, length, map, nat_le, OnOk, OnErr, IfErr, IfOk};
ghost use Rattle.sig_base.specs.declared.limits.TheConstants.{TEXT_MAX};
ghost use Rattle.model_core.specs.Text.Canonical.{canonical};
ghost use Rattle.model_core.specs.Code.Views.{graph_of, variable_of};
ghost use Rattle.model_core.specs.Ranges.OtherRanges.{declared_range, with_range, with_ranges, model_with_ranges};
ghost use Rattle.model_core.specs.Static.Reading.{IsValid};
ghost use Rattle.model_core.specs.Ranges.Narrowed.{with_ranges_if_short, IsNarrowed};
ghost use Rattle.range_infer.specs.RangeVerdicts.{MayNarrow, NarrowRefused};

use crate::checking::check_ranges;
use crate::inferring::infer;
use crate::kept_range::declared_range;
use crate::range_verdict::RangeVerdict;
use model_core::{Model, RuleError, Var, VarRange};
use model_print::printed_length;
use sig_base::{List, NoMemory, TEXT_MAX};
use std::alloc::Global;

fn declare(var: &mut Var, range: VarRange)
    ensures { variable_of var.new ≡ with_range (variable_of var.old) range }
{
    var.lo = range.lo;
    var.hi = range.hi;
}

fn declare_all(vars: &mut Vec<Var>, ranges: &[VarRange])
    requires { length ranges.now ≡ length vars.old.items }
    ensures { map variable_of vars.new.items
        ≡ with_ranges (map variable_of vars.old.items) ranges.now }
{
    for place in 0..ranges.len() {
        declare(&mut vars[place], ranges[place]);
    }
}

/// Declares these ranges.
fn redeclare(model: &mut Model, ranges: &[VarRange])
    requires { length ranges.now ≡ length model.old.vars }
    ensures { graph_of model.new ≡ model_with_ranges (graph_of model.old) ranges.now }
{
    declare_all(model.vars.as_mut_vec(), ranges);
}

/// The ranges that are declared.
fn declared_ranges(alloc: Global, vars: &[Var]) -> Result<Vec<VarRange>, NoMemory>
    ensures { IfOk result (λ ranges. ranges.items ≡ map declared_range (map variable_of vars.now)) }
{
    let mut ranges = Vec::new(alloc);
    for var in vars {
        ranges.push(declared_range(var))?;
    }
    Ok(ranges)
}

/// Declares these ranges, unless the text would be too long, and says whether they are declared.
fn redeclare_if_short(
    alloc: Global,
    model: &mut Model,
    ranges: &[VarRange],
) -> Result<bool, NoMemory>
    requires { length ranges.now ≡ length model.old.vars }
    ensures value { IfOk result
        (λ declared. declared
        ≡ nat_le (length
        (canonical (model_with_ranges (graph_of model.old) ranges.now))) TEXT_MAX) }
    ensures model { OnOk result
        (graph_of model.new ≡ with_ranges_if_short (graph_of model.old) ranges.now) }
    ensures unchanged { OnErr result (graph_of model.new ≡ graph_of model.old) }
{
    let old = declared_ranges(alloc, model.vars.as_slice())?;
    redeclare(model, ranges);
    if printed_length(model) <= TEXT_MAX as u64 {
        return Ok(true);
    }
    redeclare(model, old.as_slice());
    Ok(false)
}

/// Declares ranges that fit a model and that no run leaves. The model then means the same. Refused with 1 if they don't fit,
/// with 2 if a run might leave them, and with 3 if the text would be too long; the model is then as it was.
pub fn narrow(alloc: Global, model: &mut Model, ranges: &List<VarRange>) -> Result<(), RuleError>
    ensures done { OnOk result
        (MayNarrow (graph_of model.old) ranges.now
        × (graph_of model.new ≡ model_with_ranges (graph_of model.old) ranges.now)) }
    ensures refused { IfErr result (NarrowRefused (graph_of model.old) ranges.now) }
    ensures unchanged { OnErr result (graph_of model.new ≡ graph_of model.old) }
{
    match check_ranges(alloc, model, ranges)? {
        RangeVerdict::Unfit => return Err(RuleError::Refused { condition: 1 }),
        RangeVerdict::Fails { var: _ } => return Err(RuleError::Refused { condition: 2 }),
        RangeVerdict::Inductive => {}
    }
    if redeclare_if_short(alloc, model, ranges.as_slice())? {
        Ok(())
    } else {
        Err(RuleError::Refused { condition: 3 })
    }
}

/// Declares the ranges that a valid model needs, as rounds find them, unless its text would be too long. The model stays
/// valid and means the same.
pub fn narrow_to_needed(alloc: Global, model: &mut Model) -> Result<(), NoMemory>
    requires { IsValid (graph_of model.old) }
    ensures narrowed { OnOk result (IsNarrowed (graph_of model.old) (graph_of model.new)) }
    ensures unchanged { OnErr result (graph_of model.new ≡ graph_of model.old) }
{
    let ranges = infer(alloc, model)?;
    let _declared = redeclare_if_short(alloc, model, ranges.as_slice())?;
    Ok(())
}
