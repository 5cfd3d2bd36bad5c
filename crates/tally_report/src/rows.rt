//! The rows of a report.

ghost use Rattle.std.specs.Prelude.{◌≡◌, ◌++◌, ◌∷◌, [], cond, drop, IfOk, OnOk};
ghost use Rattle.std.specs.Fmt.{signed_decimal};
ghost use Rattle.tally_report.specs.declared.item.Item.TheVariants.{Cell as CellItem, Count as CountItem};
ghost use Rattle.tally_report.specs.ReportText.{item_row, item_rows};
ghost use Rattle.tally_report.specs.Inner.Headings.{heading_of};

use crate::item::{Item, Span};
use crate::written_rows::WrittenRows;
use itoa::Buffer;
use sig_base::NoMemory;
use std::alloc::Global;

/// The columns ahead of an item's name in a row, and whether its last value is written.
#[derive(Clone, Copy)]
pub(crate) struct RowHead<'b> {
    pub run: &'b [u8],
    pub seed: &'b [u8],
    pub outcome: &'b [u8],
    pub time: &'b [u8],
    pub last: bool,
}

/// A number in decimal, if it is to be written.
fn digits_if(buffer: &mut Buffer, shown: bool, value: i64) -> &[u8]
    ensures { result.now ≡ cond shown (signed_decimal value) [] }
{
    if shown {
        buffer.format(value).as_bytes()
    } else {
        b""
    }
}

/// Puts the row of a cell of which values were noted.
fn put_noted(
    alloc: Global,
    out: &mut WrittenRows,
    head: &RowHead,
    name: &[u8],
    span: Span,
    area: i128,
) -> Result<(), NoMemory>
    ensures { OnOk result
        (out.new ≡ out.old ++ item_row (heading_of head.now) name.now (CellItem (Some span) area)) }
{
    let mut least = Buffer::new();
    let mut greatest = Buffer::new();
    let mut last = Buffer::new();
    let mut sum = Buffer::new();
    out.put(
        alloc,
        &[
            head.run,
            head.seed,
            head.outcome,
            head.time,
            name,
            least.format(span.least).as_bytes(),
            greatest.format(span.greatest).as_bytes(),
            digits_if(&mut last, head.last, span.last),
            sum.format(area).as_bytes(),
            b"",
        ],
    )
}

/// Puts the row of a cell of which no value was noted.
fn put_unnoted(
    alloc: Global,
    out: &mut WrittenRows,
    head: &RowHead,
    name: &[u8],
    area: i128,
) -> Result<(), NoMemory>
    ensures { OnOk result
        (out.new ≡ out.old ++ item_row (heading_of head.now) name.now (CellItem None area)) }
{
    let mut sum = Buffer::new();
    out.put(
        alloc,
        &[
            head.run,
            head.seed,
            head.outcome,
            head.time,
            name,
            b"",
            b"",
            b"",
            sum.format(area).as_bytes(),
            b"",
        ],
    )
}

/// Puts the row of a vertex.
fn put_count(
    alloc: Global,
    out: &mut WrittenRows,
    head: &RowHead,
    name: &[u8],
    occurrences: u64,
) -> Result<(), NoMemory>
    ensures { OnOk result
        (out.new ≡ out.old ++ item_row (heading_of head.now) name.now (CountItem occurrences)) }
{
    let mut count = Buffer::new();
    out.put(
        alloc,
        &[
            head.run,
            head.seed,
            head.outcome,
            head.time,
            name,
            b"",
            b"",
            b"",
            b"",
            count.format(occurrences).as_bytes(),
        ],
    )
}

/// Puts the row of an item.
fn put_item(
    alloc: Global,
    out: &mut WrittenRows,
    head: &RowHead,
    name: &[u8],
    item: Item,
) -> Result<(), NoMemory>
    ensures { OnOk result (out.new ≡ out.old ++ item_row (heading_of head.now) name.now item) }
{
    match item {
        Item::Cell {
            span: Some(span),
            area,
        } => put_noted(alloc, out, head, name, span, area),
        Item::Cell { span: None, area } => put_unnoted(alloc, out, head, name, area),
        Item::Count { occurrences } => put_count(alloc, out, head, name, occurrences),
    }
}

/// Puts the row of the first of these items, if there is one. Gives the others.
pub(crate) fn put_next<'i>(
    alloc: Global,
    out: &mut WrittenRows,
    head: &RowHead,
    name: &[u8],
    items: &'i [Item],
) -> Result<&'i [Item], NoMemory>
    ensures rows { OnOk result
        (out.new ≡ out.old ++ item_rows (heading_of head.now) (name.now ∷ []) items.now) }
    ensures left { IfOk result (λ left. left.now ≡ drop 1 items.now) }
{
    let [first, rest @ ..] = items else {
        return Ok(items);
    };
    put_item(alloc, out, head, name, *first)?;
    Ok(rest)
}
