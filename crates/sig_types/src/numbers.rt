//! Numbers: literals, and numbers between two limits.

ghost use Rattle.std.specs.Prelude.{◌≡◌, ◌≤◌, ◌++◌, not, pos, negsuc, ◌≤ℤ◌};
ghost use Rattle.model_core.specs.Code.WrittenViews.{written_number, written_signed};
ghost use Rattle.model_core.specs.Text.Numbering.{signed, natural};
ghost use Rattle.model_core.specs.Static.FaultOrder.{earliest_fault, fault_where};
ghost use Rattle.model_core.specs.Static.RuleTable as table;
ghost use Rattle.model_core.specs.Static.RuleTable.{is_between, number_too_large, literal_too_large, empty_range, initial_outside, draw_outside};
ghost use Rattle.static_laws.specs.Checked.{CheckedPlain};

use crate::first_fault::FirstFault;
use model_core::{RawNumber, RawSigned, StaticKind};
use sig_base::{LITERAL_MAX, WEIGHTS_MAX};

/// The number as far as it is certain: above 2^63 - 1 it counts as 2^63.
pub(crate) fn certain_number(value: Option<i64>) -> i128
    ensures is { result ≡ table.certain_number value }
    ensures low { negsuc 9223372036854775807 ≤ℤ result }
    ensures high { result ≤ℤ pos 9223372036854775808 }
{
    match value {
        Some(value) => i128::from(value),
        None => 9_223_372_036_854_775_808,
    }
}

/// The same of a number with a sign.
fn certain_signed(raw: &RawSigned) -> i128
    ensures is { result ≡ table.certain_signed (written_signed raw.now) }
    ensures low { negsuc 9223372036854775807 ≤ℤ result }
    ensures high { result ≤ℤ pos 9223372036854775808 }
{
    let magnitude = certain_number(raw.number.value);
    if raw.negative { -magnitude } else { magnitude }
}

/// A literal. Where it is outside the limit of literals, 0.
pub(crate) fn literal(raw: &RawSigned, fault: &mut FirstFault) -> i64
    ensures { CheckedPlain fault.old fault.new (literal_too_large (written_signed raw.now))
        (signed (written_signed raw.now)) result }
{
    let certain = certain_signed(raw);
    let fits = -i128::from(LITERAL_MAX) <= certain && certain <= i128::from(LITERAL_MAX);
    fault.note(!fits, StaticKind::LiteralTooLarge, raw.at);
    if fits { certain as i64 } else { 0 }
}

/// Whether a number lies between two others, or is one of them.
pub(crate) fn lies_between(least: i128, most: i128, number: i128) -> bool
    ensures { result ≡ is_between least most number }
{
    least <= number && number <= most
}

/// A number between two limits. Where it is outside, 0, and the rule of this kind is broken.
pub fn bounded(
    raw: &RawNumber,
    least: usize,
    most: usize,
    kind: StaticKind,
    fault: &mut FirstFault,
) -> usize
    ensures checked { CheckedPlain fault.old fault.new
        (number_too_large (written_number raw.now)
        ++ fault_where
        (not (is_between (pos least) (pos most)
        (table.certain_value (written_number raw.now)))) kind raw.now.at)
        (natural (written_number raw.now)) result }
    ensures small { result ≤ most }
{
    let certain = certain_number(raw.value);
    let fits = lies_between(least as i128, most as i128, certain);
    fault.note(raw.value.is_none(), StaticKind::LiteralTooLarge, raw.at);
    fault.note(!fits, kind, raw.at);
    if fits { certain as usize } else { 0 }
}

/// Reports that a first bound exceeds the second.
pub(crate) fn report_empty_range(lo: &RawSigned, hi: &RawSigned, fault: &mut FirstFault)
    ensures { fault.new
        ≡ earliest_fault fault.old (empty_range (written_signed lo.now) (written_signed hi.now)) }
{
    let empty = certain_signed(hi) < certain_signed(lo);
    fault.note(empty, StaticKind::EmptyRange, lo.at);
}

/// Reports that from a first bound to a second there are too many values for a draw.
pub(crate) fn report_wide_range(lo: &RawSigned, hi: &RawSigned, fault: &mut FirstFault)
    ensures { fault.new
        ≡ earliest_fault fault.old (draw_outside (written_signed lo.now) (written_signed hi.now)) }
{
    let wide = certain_signed(lo) + i128::from(WEIGHTS_MAX) <= certain_signed(hi);
    fault.note(wide, StaticKind::DrawOutside, lo.at);
}

/// Reports that an initial value is outside its range.
pub(crate) fn report_initial_outside(
    lo: &RawSigned,
    hi: &RawSigned,
    initial: &RawSigned,
    fault: &mut FirstFault,
)
    ensures { fault.new
        ≡ earliest_fault fault.old
        (initial_outside (written_signed lo.now) (written_signed hi.now)
        (written_signed initial.now)) }
{
    let inside = lies_between(
        certain_signed(lo),
        certain_signed(hi),
        certain_signed(initial),
    );
    fault.note(!inside, StaticKind::InitialOutside, initial.at);
}
