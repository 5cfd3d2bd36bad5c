//! A report: its header, the rows of a run and those of the totals.

ghost use Rattle.std.specs.Prelude.{◌≡◌, ◌++◌, drop, length, map, IfOk, OnOk};
ghost use Rattle.std.specs.List.{range_with_len};
ghost use Rattle.model_core.specs.Code.Views.{graph_of, variable_of, watched_of};
ghost use Rattle.tally_report.specs.ReportText.{cell_name, names_of_variable, names_watched, header_row, end_word, item_rows, item_names, run_rows, total_rows};
ghost use Rattle.tally_report.specs.Inner.Headings.{heading_of};

use crate::item::Item;
use crate::rows::{RowHead, put_next};
use crate::run_tally::{RunEnd, RunTally};
use crate::totals::Totals;
use crate::written_rows::WrittenRows;
use itoa::Buffer;
use model_core::{Model, Var, Watch};
use sig_base::{NoMemory, Text, put_bytes, put_number};
use std::alloc::Global;

/// The name of a cell of an array.
fn cell_name(alloc: Global, name: &[u8], index: usize) -> Result<Vec<u8>, NoMemory>
    ensures { IfOk result (λ text. text.items ≡ cell_name name.now index) }
{
    let mut text = Vec::from_slice(alloc, name)?;
    put_bytes(&mut text, b"[")?;
    put_number(&mut text, index as u64)?;
    put_bytes(&mut text, b"]")?;
    Ok(text)
}

/// Puts the rows of the cells of an array, which are the first of these items. Gives the others.
fn put_cells<'i>(
    alloc: Global,
    out: &mut WrittenRows,
    head: &RowHead,
    name: &[u8],
    size: usize,
    items: &'i [Item],
) -> Result<&'i [Item], NoMemory>
    ensures rows { OnOk result
        (out.new ≡ out.old
        ++ item_rows (heading_of head.now)
        (map (cell_name name.now) (range_with_len 0 size)) items.now) }
    ensures left { IfOk result (λ left. left.now ≡ drop size items.now) }
{
    let mut left = items;
    for index in 0..size {
        let label = cell_name(alloc, name, index)?;
        left = put_next(alloc, out, head, label.as_slice(), left)?;
    }
    Ok(left)
}

/// Puts the rows of a variable, whose items are the first of these. Gives the others.
fn put_variable<'i>(
    alloc: Global,
    out: &mut WrittenRows,
    head: &RowHead,
    var: &Var,
    items: &'i [Item],
) -> Result<&'i [Item], NoMemory>
    ensures rows { OnOk result
        (out.new ≡ out.old
        ++ item_rows (heading_of head.now) (names_of_variable (variable_of var.now)) items.now) }
    ensures left { IfOk result
        (λ left. left.now ≡ drop (length (names_of_variable (variable_of var.now))) items.now) }
{
    if var.size == 0 {
        return put_next(alloc, out, head, var.name.as_slice(), items);
    }
    put_cells(alloc, out, head, var.name.as_slice(), var.size, items)
}

/// Puts the rows of something watched, whose items are the first of these. Gives the others.
fn put_watched<'i>(
    alloc: Global,
    out: &mut WrittenRows,
    head: &RowHead,
    model: &Model,
    watch: Watch,
    items: &'i [Item],
) -> Result<&'i [Item], NoMemory>
    ensures rows { OnOk result
        (out.new ≡ out.old
        ++ item_rows (heading_of head.now)
        (names_watched (graph_of model.now) (watched_of watch)) items.now) }
    ensures left { IfOk result
        (λ left. left.now
        ≡ drop (length (names_watched (graph_of model.now) (watched_of watch))) items.now) }
{
    match watch {
        Watch::Variable { var } => match model.vars.as_slice().get(var) {
            Some(found) => put_variable(alloc, out, head, found, items),
            None => Ok(items),
        },
        Watch::Event { vertex } => put_next(alloc, out, head, model.vertex_name(vertex), items),
    }
}

/// Puts the rows of all items.
fn put_items(
    alloc: Global,
    out: &mut WrittenRows,
    head: &RowHead,
    model: &Model,
    items: &[Item],
) -> Result<(), NoMemory>
    ensures { OnOk result
        (out.new ≡ out.old
        ++ item_rows (heading_of head.now) (item_names (graph_of model.now)) items.now) }
{
    let mut left = items;
    for watch in model.watch.as_slice() {
        left = put_watched(alloc, out, head, model, *watch, left)?;
    }
    Ok(())
}

/// The word for how a run ended.
fn end_word(end: RunEnd) -> &'static [u8]
    ensures { result.now ≡ end_word end }
{
    match end {
        RunEnd::Ended => b"ended",
        RunEnd::Stopped => b"stopped",
        RunEnd::Fault => b"fault",
        RunEnd::Budget => b"budget",
    }
}

/// The header of a report.
pub fn header_csv(alloc: Global) -> Result<Text, NoMemory>
    ensures { IfOk result (λ text. text ≡ header_row) }
{
    let mut rows = WrittenRows::begin(alloc);
    rows.put(
        alloc,
        &[
            b"run",
            b"seed",
            b"outcome",
            b"time",
            b"item",
            b"least",
            b"greatest",
            b"last",
            b"area",
            b"count",
        ],
    )?;
    Ok(Text::from_vec(rows.into_text()?))
}

/// The rows of the run of a model of this number, which counts from 1, and with this seed.
pub fn run_csv(
    alloc: Global,
    model: &Model,
    number: u64,
    seed: u64,
    run: &RunTally,
) -> Result<Text, NoMemory>
    ensures { IfOk result (λ text. text ≡ run_rows (graph_of model.now) number seed run.now) }
{
    let mut out = WrittenRows::begin(alloc);
    let mut number_digits = Buffer::new();
    let mut seed_digits = Buffer::new();
    let mut time_digits = Buffer::new();
    let head = RowHead {
        run: number_digits.format(number).as_bytes(),
        seed: seed_digits.format(seed).as_bytes(),
        outcome: end_word(run.end),
        time: time_digits.format(run.time).as_bytes(),
        last: true,
    };
    put_items(alloc, &mut out, &head, model, run.items.as_slice())?;
    Ok(Text::from_vec(out.into_text()?))
}

/// The rows of the totals of runs of a model.
pub fn totals_csv(alloc: Global, model: &Model, totals: &Totals) -> Result<Text, NoMemory>
    ensures { IfOk result (λ text. text ≡ total_rows (graph_of model.now) totals.now) }
{
    let mut out = WrittenRows::begin(alloc);
    let head = RowHead {
        run: b"total",
        seed: b"",
        outcome: b"",
        time: b"",
        last: false,
    };
    put_items(alloc, &mut out, &head, model, totals.items())?;
    Ok(Text::from_vec(out.into_text()?))
}
