//! Declarations of variables: their sizes, ranges and initial values.

ghost use Rattle.std.specs.Prelude.{IfOk, map};
ghost use Rattle.std.specs.List.{flat_map};
ghost use Rattle.std.specs.Option.{option_map};
ghost use Rattle.model_core.specs.Code.Views.{variable_of};
ghost use Rattle.model_core.specs.Code.WrittenViews.{written_number, written_signed, written_kind, written_literal, written_variable};
ghost use Rattle.model_core.specs.Text.Written.{TruthKind, RangeKind};
ghost use Rattle.model_core.specs.Text.Numbering as numbering;
ghost use Rattle.model_core.specs.Text.Numbering.{each_numbered};
ghost use Rattle.model_core.specs.Static.PartFaults.{if_written, size_faults, range_faults, variable_faults};
ghost use Rattle.static_laws.specs.Checked.{CheckedPlain};
ghost use Rattle.sig_types.specs.Inner.HeldAsDeclared.{initial_faults, numbered_range};

use crate::declaring::report_long_name;
use crate::first_fault::FirstFault;
use crate::numbers::{bounded, literal, report_empty_range, report_initial_outside};
use model_core::{Kind, RawKind, RawLiteral, RawNumber, RawSigned, RawVar, StaticKind, Var};
use sig_base::{ARRAY_CELLS_MAX, List, NoMemory};
use std::alloc::Global;

/// The number of cells of an array, and 0 of a scalar.
fn size(raw: &Option<RawNumber>, fault: &mut FirstFault) -> usize
    ensures { CheckedPlain fault.old fault.new
        (if_written size_faults (option_map written_number raw.now))
        (numbering.size (option_map written_number raw.now)) result }
{
    match raw {
        Some(raw) => bounded(raw, 1, ARRAY_CELLS_MAX, StaticKind::SizeOutside, fault),
        None => 0,
    }
}

/// What a variable holds, and its initial value.
#[derive(Clone, Copy)]
pub struct Range {
    pub kind: Kind,
    pub lo: i64,
    pub hi: i64,
    pub clip: bool,
    pub initial: i64,
}

/// A truth value.
fn truth(initial: &RawLiteral, fault: &mut FirstFault) -> Range
    ensures { CheckedPlain fault.old fault.new
        (range_faults TruthKind (written_literal initial.now))
        (numbered_range TruthKind (written_literal initial.now)) result }
{
    let initial = match initial {
        RawLiteral::Truth { value, .. } => i64::from(*value),
        RawLiteral::Signed(signed) => {
            fault.note(true, StaticKind::KindMismatch, signed.at);
            literal(signed, fault)
        }
    };
    Range {
        kind: Kind::Truth,
        lo: 0,
        hi: 1,
        clip: false,
        initial,
    }
}

/// The initial value of a number.
fn initial_number(lo: &RawSigned, hi: &RawSigned, raw: &RawLiteral, fault: &mut FirstFault) -> i64
    ensures { CheckedPlain fault.old fault.new
        (initial_faults (written_signed lo.now) (written_signed hi.now) (written_literal raw.now))
        (numbering.initial (written_literal raw.now)) result }
{
    match raw {
        RawLiteral::Signed(signed) => {
            let initial = literal(signed, fault);
            report_initial_outside(lo, hi, signed, fault);
            initial
        }
        RawLiteral::Truth { at, .. } => {
            fault.note(true, StaticKind::KindMismatch, *at);
            0
        }
    }
}

/// A number between two bounds.
fn bounds(
    lo: &RawSigned,
    hi: &RawSigned,
    clip: bool,
    raw: &RawLiteral,
    fault: &mut FirstFault,
) -> Range
    ensures { CheckedPlain fault.old fault.new
        (range_faults (RangeKind (written_signed lo.now) (written_signed hi.now) clip)
        (written_literal raw.now))
        (numbered_range (RangeKind (written_signed lo.now) (written_signed hi.now) clip)
        (written_literal raw.now)) result }
{
    let least = literal(lo, fault);
    let most = literal(hi, fault);
    report_empty_range(lo, hi, fault);
    let initial = initial_number(lo, hi, raw, fault);
    Range {
        kind: Kind::Range,
        lo: least,
        hi: most,
        clip,
        initial,
    }
}

/// What a variable holds, and its initial value.
fn range_of(kind: &RawKind, initial: &RawLiteral, fault: &mut FirstFault) -> Range
    ensures { CheckedPlain fault.old fault.new
        (range_faults (written_kind kind.now) (written_literal initial.now))
        (numbered_range (written_kind kind.now) (written_literal initial.now)) result }
{
    match kind {
        RawKind::Truth => truth(initial, fault),
        RawKind::Range { lo, hi, clip } => bounds(lo, hi, *clip, initial, fault),
    }
}

/// A variable.
fn variable(raw: RawVar, fault: &mut FirstFault) -> Var
    ensures { CheckedPlain fault.old fault.new (variable_faults (written_variable raw))
        (numbering.variable (written_variable raw)) (variable_of result) }
{
    report_long_name(&raw.name, fault);
    let size = size(&raw.size, fault);
    let range = range_of(&raw.kind, &raw.initial, fault);
    Var {
        name: raw.name.name,
        size,
        kind: range.kind,
        lo: range.lo,
        hi: range.hi,
        clip: range.clip,
        initial: range.initial,
    }
}

/// The variables of a model.
pub(crate) fn check_variables(
    alloc: Global,
    raws: List<RawVar>,
    fault: &mut FirstFault,
) -> Result<List<Var>, NoMemory>
    ensures { IfOk result
        (λ vars. CheckedPlain fault.old fault.new
        (flat_map variable_faults (map written_variable raws))
        (each_numbered numbering.variable (map written_variable raws)) (map variable_of vars)) }
{
    let mut vars = Vec::with_capacity(alloc, raws.len())?;
    for raw in raws.into_vec() {
        vars.push(variable(raw, fault))?;
    }
    Ok(List::from_vec(vars))
}
