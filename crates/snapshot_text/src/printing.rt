//! Prints a snapshot.

ghost use Rattle.std.specs.Prelude.{◌≡◌, ◌++◌, ◌≤◌, ℤ, codes, IfOk, OnOk};
ghost use Rattle.std.specs.Fmt.{signed_decimal};
ghost use Rattle.std.specs.List.{AllByRecursion, flat_map};
ghost use Rattle.model_core.specs.Run.Pending.{Entry as Scheduled};
ghost use Rattle.model_core.specs.Code.Views.{graph_of, variable_of};
ghost use Rattle.model_core.specs.Saved.SavedRun.{IsGood};
ghost use Rattle.model_core.specs.Text.SnapshotText.{comma_values, stream_lines, value_lines, noted_values, noted_line, carried_text, pending_line, snapshot_text};
ghost use Rattle.snapshot_text.specs.Inner.Lines.{stream_line, value_line, event_line, seed_lines, clock_lines, last_lines};

use crate::numbers::SEED_PART;
use crate::snapshot::Snapshot;
use event_list::Entry;
use model_core::{Model, Var};
use sig_base::{List, NoMemory, Text, put_bytes, put_counted, put_number, put_signed, put_texts};
use std::alloc::Global;

/// Adds values, each after a comma.
fn put_later_values(out: &mut Vec<u8>, values: &[i64]) -> Result<(), NoMemory>
    ensures { OnOk result
        (out.new.items
        ≡ out.old.items ++ flat_map (λ (y : ℤ). codes "," ++ signed_decimal y) values.now) }
{
    for value in values {
        put_bytes(out, b",")?;
        put_signed(out, *value)?;
    }
    Ok(())
}

/// Adds values with a comma between two.
fn put_values(out: &mut Vec<u8>, values: &[i64]) -> Result<(), NoMemory>
    ensures { OnOk result (out.new.items ≡ out.old.items ++ comma_values values.now) }
{
    let [first, rest @ ..] = values else {
        return Ok(());
    };
    put_signed(out, *first)?;
    put_later_values(out, rest)
}

/// Adds the line of a stream, if it gave words.
fn put_stream(out: &mut Vec<u8>, stream: u64, words: u64) -> Result<(), NoMemory>
    ensures { OnOk result (out.new.items ≡ out.old.items ++ stream_line stream words) }
{
    if words == 0 {
        return Ok(());
    }
    put_counted(out, b"stream ", stream)?;
    put_counted(out, b" ", words)?;
    put_bytes(out, b"\n")
}

/// Adds a line for each stream that gave words.
fn put_streams(out: &mut Vec<u8>, taken: &[u64]) -> Result<(), NoMemory>
    ensures { OnOk result (out.new.items ≡ out.old.items ++ stream_lines 0 taken.now) }
{
    for (stream, words) in taken.iter().enumerate() {
        put_stream(out, stream as u64, *words)?;
    }
    Ok(())
}

/// Adds the line of a variable with its values.
fn put_value(out: &mut Vec<u8>, var: &Var, values: &[i64]) -> Result<(), NoMemory>
    ensures { OnOk result
        (out.new.items ≡ out.old.items ++ value_line (variable_of var.now) values.now) }
{
    put_texts(out, &[b"value ", var.name.as_slice(), b" "])?;
    put_values(out, values)?;
    put_bytes(out, b"\n")
}

/// Adds a line for each variable, with the next of the values.
fn put_all_values(out: &mut Vec<u8>, model: &Model, values: &[i64]) -> Result<(), NoMemory>
    ensures { OnOk result
        (out.new.items ≡ out.old.items ++ value_lines (graph_of model.now).variables values.now) }
{
    let mut from = 0;
    for var in model.vars.as_slice() {
        let upto = from + var.size.max(1).min(values.len() - from);
        put_value(out, var, &values[from..upto])?;
        from = upto;
    }
    Ok(())
}

/// Adds values after a space, if there are any.
fn put_noted_values(out: &mut Vec<u8>, values: &[i64]) -> Result<(), NoMemory>
    ensures { OnOk result (out.new.items ≡ out.old.items ++ noted_values values.now) }
{
    if values.is_empty() {
        return Ok(());
    }
    put_bytes(out, b" ")?;
    put_values(out, values)
}

/// Adds the line of the values that were noted last, if there is one.
fn put_noted(out: &mut Vec<u8>, noted: &Option<List<i64>>) -> Result<(), NoMemory>
    ensures { OnOk result (out.new.items ≡ out.old.items ++ noted_line noted.now) }
{
    let Some(values) = noted else {
        return Ok(());
    };
    put_bytes(out, b"noted")?;
    put_noted_values(out, values.as_slice())?;
    put_bytes(out, b"\n")
}

/// Adds the values that an event carries in parentheses, or nothing where it carries none.
fn put_carried(out: &mut Vec<u8>, values: &[i64]) -> Result<(), NoMemory>
    ensures { OnOk result (out.new.items ≡ out.old.items ++ carried_text values.now) }
{
    if values.is_empty() {
        return Ok(());
    }
    put_bytes(out, b"(")?;
    put_values(out, values)?;
    put_bytes(out, b")")
}

/// Adds the line of a pending event, which occurs in so many ticks.
fn put_pending(out: &mut Vec<u8>, model: &Model, ticks: u64, entry: &Entry) -> Result<(), NoMemory>
    ensures { OnOk result
        (out.new.items ≡ out.old.items ++ event_line (graph_of model.now) ticks entry.now) }
{
    put_counted(out, b"pending ", ticks)?;
    put_counted(out, b" ", u64::from(entry.priority))?;
    put_texts(out, &[b" ", model.vertex_name(entry.vertex)])?;
    put_carried(out, entry.values.as_slice())?;
    put_bytes(out, b"\n")
}

/// Adds a line for each pending event.
fn put_all_pending(
    out: &mut Vec<u8>,
    model: &Model,
    clock: u64,
    entries: &[Entry],
) -> Result<(), NoMemory>
    requires { AllByRecursion (λ (e : Scheduled). clock ≤ e.time) entries.now }
    ensures { OnOk result
        (out.new.items
        ≡ out.old.items ++ flat_map (pending_line (graph_of model.now) clock) entries.now) }
{
    for entry in entries {
        put_pending(out, model, entry.time - clock, entry)?;
    }
    Ok(())
}

/// Adds the line of the seed, which is written in two parts, after the word that begins a snapshot.
fn put_seed(out: &mut Vec<u8>, high: u64, low: u64) -> Result<(), NoMemory>
    ensures { OnOk result (out.new.items ≡ out.old.items ++ seed_lines high low) }
{
    put_bytes(out, b"snapshot\nseed ")?;
    put_number(out, high)?;
    put_bytes(out, b" ")?;
    put_number(out, low)?;
    put_bytes(out, b"\n")?;
    Ok(())
}

/// Adds the lines of the clock and the number of events.
fn put_clock(out: &mut Vec<u8>, clock: u64, events: u64) -> Result<(), NoMemory>
    ensures { OnOk result (out.new.items ≡ out.old.items ++ clock_lines clock events) }
{
    put_counted(out, b"clk ", clock)?;
    put_counted(out, b"\nevents ", events)?;
    put_bytes(out, b"\n")
}

/// Adds the lines after these.
fn put_last_lines(out: &mut Vec<u8>, model: &Model, snapshot: &Snapshot) -> Result<(), NoMemory>
    requires { AllByRecursion
        (λ (e : Scheduled). snapshot.now.clock ≤ e.time) snapshot.now.pending }
    ensures { OnOk result
        (out.new.items ≡ out.old.items ++ last_lines (graph_of model.now) snapshot.now) }
{
    put_streams(out, snapshot.taken.as_slice())?;
    put_all_values(out, model, snapshot.values.as_slice())?;
    put_noted(out, &snapshot.noted)?;
    put_all_pending(out, model, snapshot.clock, snapshot.pending.as_slice())?;
    put_bytes(out, b"end\n")
}

/// Adds the lines of a snapshot that is good for the model.
fn put_snapshot(out: &mut Vec<u8>, model: &Model, snapshot: &Snapshot) -> Result<(), NoMemory>
    requires { IsGood (graph_of model.now) snapshot.now }
    ensures { OnOk result
        (out.new.items ≡ out.old.items ++ snapshot_text (graph_of model.now) snapshot.now) }
{
    put_seed(out, snapshot.seed / SEED_PART, snapshot.seed % SEED_PART)?;
    put_clock(out, snapshot.clock, snapshot.events)?;
    put_last_lines(out, model, snapshot)?;
    Ok(())
}

/// The text of a snapshot that is good for the model: a line for each part. The seed is written as its quotient by 2^32
/// and its rest, an event's time as the ticks from the clock on.
pub fn print_snapshot(alloc: Global, model: &Model, snapshot: &Snapshot) -> Result<Text, NoMemory>
    requires { IsGood (graph_of model.now) snapshot.now }
    ensures { IfOk result (λ text. text ≡ snapshot_text (graph_of model.now) snapshot.now) }
{
    let mut text = Text::from_vec(Vec::new(alloc));
    put_snapshot(text.as_mut_vec(), model, snapshot)?;
    Ok(text)
}
