//! Declarations of tables: their rows and the sums of their weights.

ghost use Rattle.std.specs.Prelude.{◌≡◌, ◌++◌, ◌||◌, pos, negsuc, ◌≤ℤ◌, ◌+ℤ◌, IfOk, map};
ghost use Rattle.std.specs.List.{flat_map};
ghost use Rattle.std.specs.Int.Signed.{le_z, lt_z};
ghost use Rattle.sig_base.specs.declared.limits.TheConstants.{WEIGHTS_MAX};
ghost use Rattle.model_core.specs.Code.Views.{weighted_of, table_of};
ghost use Rattle.model_core.specs.Code.WrittenViews.{written_number, written_row, written_table};
ghost use Rattle.model_core.specs.Text.Numbering as numbering;
ghost use Rattle.model_core.specs.Text.Numbering.{each_numbered, natural};
ghost use Rattle.model_core.specs.Static.RuleTable.{certain_value, literal_too_large, number_too_large, weight_outside};
ghost use Rattle.model_core.specs.Static.PartFaults.{rows_faults, table_faults};
ghost use Rattle.static_laws.specs.Checked.{CheckedPlain};

use crate::declaring::report_long_name;
use crate::first_fault::FirstFault;
use crate::numbers::{certain_number, literal};
use crate::part_places::report_too_many;
use model_core::{RawNumber, RawRow, RawTable, StaticKind};
use sig_base::{List, NoMemory, ROWS_MAX, Row, Table, WEIGHTS_MAX};
use std::alloc::Global;

/// A weight, where those before it in its table sum to `before`. Below 0, which no text spells, it counts as 0.
fn weight(raw: &RawNumber, before: i128, fault: &mut FirstFault) -> u64
    requires low { negsuc 85070591730234615865843651857942052864 ≤ℤ before }
    requires high { before ≤ℤ pos 85070591730234615865843651857942052864 }
    ensures { CheckedPlain fault.old fault.new
        (number_too_large (written_number raw.now)
        ++ weight_outside before (written_number raw.now))
        (natural (written_number raw.now)) result }
{
    let certain = certain_number(raw.value);
    fault.note(raw.value.is_none(), StaticKind::LiteralTooLarge, raw.at);
    let outside = is_outside(before, certain);
    fault.note(outside, StaticKind::WeightOutside, raw.at);
    if certain < 0 { 0 } else { certain as u64 }
}

/// Whether a weight is 0 or less, or exceeds with those before it the limit of their sum.
fn is_outside(before: i128, weight: i128) -> bool
    requires low { negsuc 85070591730234615865843651857942052864 ≤ℤ before }
    requires high { before ≤ℤ pos 85070591730234615865843651857942052864 }
    requires weight_low { negsuc 9223372036854775807 ≤ℤ weight }
    requires weight_high { weight ≤ℤ pos 9223372036854775808 }
    ensures { result ≡ (le_z weight (pos 0) || lt_z (pos WEIGHTS_MAX) (before +ℤ weight)) }
{
    weight <= 0 || i128::from(WEIGHTS_MAX) < before + weight
}

/// A row after others whose weights have this sum.
fn row(raw: &RawRow, before: i128, fault: &mut FirstFault) -> Row
    requires low { negsuc 85070591730234615865843651857942052864 ≤ℤ before }
    requires high { before ≤ℤ pos 85070591730234615865843651857942052864 }
    ensures { CheckedPlain fault.old fault.new
        (literal_too_large (written_row raw.now).value
        ++ number_too_large (written_row raw.now).weight
        ++ weight_outside before (written_row raw.now).weight)
        (numbering.row (written_row raw.now)) (weighted_of result) }
{
    let value = literal(&raw.value, fault);
    let weight = weight(&raw.weight, before, fault);
    Row { value, weight }
}

/// The sum of the weights, with that of one row more.
fn with_weight(before: i128, raw: &RawRow) -> i128
    requires low { negsuc 85070591730234615865843651857942052864 ≤ℤ before }
    requires high { before ≤ℤ pos 85070591730234615865843651857942052864 }
    ensures sum { result ≡ before +ℤ certain_value (written_row raw.now).weight }
    ensures least { (before +ℤ negsuc 9223372036854775807) ≤ℤ result }
    ensures most { result ≤ℤ (before +ℤ pos 9223372036854775808) }
{
    before + certain_number(raw.weight.value)
}

/// The rows of a table.
fn rows(alloc: Global, raws: &[RawRow], fault: &mut FirstFault) -> Result<List<Row>, NoMemory>
    ensures { IfOk result
        (λ rows. CheckedPlain fault.old fault.new (rows_faults (pos 0) (map written_row raws.now))
        (each_numbered numbering.row (map written_row raws.now)) (map weighted_of rows)) }
{
    let mut rows = Vec::with_capacity(alloc, raws.len())?;
    let mut sum = 0;
    for raw in raws {
        rows.push(row(raw, sum, fault))?;
        sum = with_weight(sum, raw);
    }
    Ok(List::from_vec(rows))
}

/// The rows of a table. Faults of its name and of its length are reported.
fn rows_of(alloc: Global, raw: &RawTable, fault: &mut FirstFault) -> Result<List<Row>, NoMemory>
    ensures { IfOk result
        (λ rows. CheckedPlain fault.old fault.new (table_faults (written_table raw.now))
        (each_numbered numbering.row (written_table raw.now).rows) (map weighted_of rows)) }
{
    report_long_name(&raw.name, fault);
    report_too_many(ROWS_MAX, raw.rows.as_slice(), fault);
    rows(alloc, raw.rows.as_slice(), fault)
}

/// A table.
fn table(alloc: Global, raw: RawTable, fault: &mut FirstFault) -> Result<Table, NoMemory>
    ensures { IfOk result
        (λ t. CheckedPlain fault.old fault.new (table_faults (written_table raw))
        (numbering.table (written_table raw)) (table_of t)) }
{
    let rows = rows_of(alloc, &raw, fault)?;
    Table::of_rows(alloc, raw.name.name, rows)
}

/// The tables of a model.
pub(crate) fn check_tables(
    alloc: Global,
    raws: List<RawTable>,
    fault: &mut FirstFault,
) -> Result<List<Table>, NoMemory>
    ensures { IfOk result
        (λ tables. CheckedPlain fault.old fault.new (flat_map table_faults (map written_table raws))
        (each_numbered numbering.table (map written_table raws)) (map table_of tables)) }
{
    let mut tables = Vec::with_capacity(alloc, raws.len())?;
    for raw in raws.into_vec() {
        let table = table(alloc, raw, fault)?;
        tables.push(table)?;
    }
    Ok(List::from_vec(tables))
}
