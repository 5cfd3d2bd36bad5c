//! What a draw gives: the least and the greatest value of its range or its table.
#![tactic(auto, using(model_core::proofs::SignedBits::signed_bits))]

ghost use Rattle.std.specs.Prelude.{◌≡◌, map};
ghost use Rattle.std.specs.List.{fold};
ghost use Rattle.std.specs.Int.{int_min, int_max};
ghost use Rattle.model_core.specs.Rules.BoundsOfParts.{rows_bounds, choice_bounds};
ghost use Rattle.model_core.specs.Code.Views.{graph_of, choice_of, weighted_of};

use crate::range_ends::number_bounds;
use model_core::{Bounds, Choice, Model};
use sig_base::Row;

fn least_value(start: i64, rows: &[Row]) -> i64
    ensures { result ≡ fold int_min start (map (λ r. r.value) rows.now) }
{
    let mut least = start;
    for row in rows {
        least = least.min(row.value);
    }
    least
}

fn greatest_value(start: i64, rows: &[Row]) -> i64
    ensures { result ≡ fold int_max start (map (λ r. r.value) rows.now) }
{
    let mut greatest = start;
    for row in rows {
        greatest = greatest.max(row.value);
    }
    greatest
}

#[tactic(auto, using(model_core::proofs::SignedBits::signed_bits, crate::proofs::FirstRow::rows_from_first))]
fn rows_bounds(rows: &[Row]) -> Bounds
    ensures { result ≡ rows_bounds (map weighted_of rows.now) }
{
    match rows.first() {
        None => number_bounds(0, 0, true),
        Some(row) => number_bounds(
            least_value(row.value, rows),
            greatest_value(row.value, rows),
            true,
        ),
    }
}

/// The bounds of what a draw gives: from its least value to its greatest one, and 0 alone for a missing table.
pub fn choice_bounds(model: &Model, choice: &Choice) -> Bounds
    ensures { result ≡ choice_bounds (graph_of model.now) (choice_of choice.now) }
{
    match choice {
        Choice::Uniform { lo, hi } => number_bounds(*lo, *hi, true),
        Choice::ByTable { table } => match model.tables.as_slice().get(*table) {
            Some(table) => rows_bounds(table.rows.as_slice()),
            None => number_bounds(0, 0, true),
        },
    }
}
