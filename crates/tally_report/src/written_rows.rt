//! Rows that are written one after the other by one writer, since a writer is large: its buffer lies in it.

ghost use Rattle.std.specs.Prelude.{◌≡◌, ◌++◌, [], map, IfOk, OnOk, false};
ghost use Rattle.csv.specs.Writing.{default_writer, writer_setup, writer_under, writer_pending, fields_written, has_written};
ghost use Rattle.tally_report.specs.ReportText.{row_of_fields};

use csv::{Writer, WriterBuilder};
use sig_base::NoMemory;
use std::alloc::Global;
use std::marker::Model;

/// Rows of a report, seen as their text.
#[derive(Drop)]
pub(crate) struct WrittenRows {
    writer: Writer<Vec<u8>>,
}

impl Model for WrittenRows {
    ghost use Rattle.std.specs.Prelude.{◌≡◌, ℕ, List, ◌++◌, false};
    ghost use Rattle.csv.specs.Writing.{default_writer, writer_setup, writer_under, writer_pending, fields_written, has_written};

    ghost Value = { List ℕ };

    ghost view = { λ r. (writer_under r.writer).items ++ writer_pending r.writer };

    ghost invariant = { λ r.
        (writer_setup r.writer ≡ default_writer) × (fields_written r.writer ≡ 0)
        × (has_written r.writer ≡ false) };
}

/// A writer that has written nothing.
fn new_writer(alloc: Global) -> Writer<Vec<u8>>
    ensures text { (writer_under result).items ++ writer_pending result ≡ [] }
    ensures setup { writer_setup result ≡ default_writer }
    ensures fields { fields_written result ≡ 0 }
    ensures wrote { has_written result ≡ false }
{
    WriterBuilder::new().from_writer(Vec::new(alloc))
}

/// Puts a writer that has written nothing in place of one that failed. Not inlined, so that a row that is put has no part
/// in it.
#[inline(never)]
fn renew(writer: &mut Writer<Vec<u8>>, alloc: Global)
    ensures setup { writer_setup writer.new ≡ default_writer }
    ensures fields { fields_written writer.new ≡ 0 }
    ensures wrote { has_written writer.new ≡ false }
{
    *writer = new_writer(alloc);
}

impl WrittenRows {
    /// No row is written yet.
    pub fn begin(alloc: Global) -> WrittenRows
        ensures { result ≡ [] }
    {
        WrittenRows {
            writer: new_writer(alloc),
        }
    }

    /// Puts a row. Where memory lacks, those before are lost.
    pub fn put(&mut self, alloc: Global, fields: &[&[u8]]) -> Result<(), NoMemory>
        ensures { OnOk result (self.new ≡ self.old ++ row_of_fields (map (λ f. f.now) fields.now)) }
    {
        match self.writer.write_fields(fields) {
            Ok(()) => Ok(()),
            Err(_) => {
                renew(&mut self.writer, alloc);
                Err(NoMemory)
            }
        }
    }

    /// The text of the rows.
    pub fn into_text(self) -> Result<Vec<u8>, NoMemory>
        ensures { IfOk result (λ text. text.items ≡ self) }
    {
        match self.writer.into_inner() {
            Ok(text) => Ok(text),
            Err(_) => Err(NoMemory),
        }
    }
}
