//! The sentences of variables, tables and the watch list.

ghost use Rattle.std.specs.Prelude.{◌≡◌, ◌++◌, map, OnOk};
ghost use Rattle.std.specs.List.{flat_map};
ghost use Rattle.model_core.specs.Text.Canonical.{joined, after_commas, initial_truth, watched_name};
ghost use Rattle.model_core.specs.Code.Views.{graph_of, variable_of, weighted_of, table_of, watched_of};
ghost use Rattle.describe.specs.Description.{variable_phrase, kept_phrase, range_phrase, held_phrase, variable_sentence, row_phrase, table_sentence, watch_sentence};

use model_core::{Kind, Model, Var, Watch};
use sig_base::{NoMemory, Row, Table, put_bytes, put_counted, put_number, put_signed, put_texts};

/// Adds what the sentence of a variable is about: the variable, or the array with its number of cells.
fn put_subject(out: &mut Vec<u8>, var: &Var) -> Result<(), NoMemory>
    ensures { OnOk result
        (out.new.items ≡ out.old.items ++ variable_phrase var.now.name var.now.size) }
{
    if var.size == 0 {
        put_texts(out, &[b"The variable ", var.name.as_slice()])
    } else {
        put_texts(out, &[b"The array ", var.name.as_slice(), b" of "])?;
        put_number(out, var.size as u64)?;
        put_bytes(out, b" cells")
    }
}

/// That stores outside the range take the nearest bound, where they do.
fn kept_phrase(clip: bool) -> &'static [u8]
    ensures { result.now ≡ kept_phrase clip }
{
    if clip {
        b", kept within these bounds,"
    } else {
        b""
    }
}

/// The word for the initial value of a truth value.
fn initial_truth(initial: i64) -> &'static [u8]
    ensures { result.now ≡ initial_truth initial }
{
    if initial == 0 { b"false" } else { b"true" }
}

/// Adds a range with its bounds.
fn put_range(out: &mut Vec<u8>, lo: i64, hi: i64, clip: bool) -> Result<(), NoMemory>
    ensures { OnOk result (out.new.items ≡ out.old.items ++ range_phrase lo hi clip) }
{
    put_bytes(out, b" is a whole number from ")?;
    put_signed(out, lo)?;
    put_bytes(out, b" to ")?;
    put_signed(out, hi)?;
    put_bytes(out, kept_phrase(clip))
}

/// Adds what a variable holds, and its initial value.
fn put_held(out: &mut Vec<u8>, var: &Var) -> Result<(), NoMemory>
    ensures { OnOk result
        (out.new.items ≡ out.old.items ++ held_phrase (variable_of var.now) var.now.kind) }
{
    match var.kind {
        Kind::Truth => {
            put_texts(
                out,
                &[
                    b" is a truth value and starts at ",
                    initial_truth(var.initial),
                ],
            )
        }
        Kind::Range => {
            put_range(out, var.lo, var.hi, var.clip)?;
            put_bytes(out, b" and starts at ")?;
            put_signed(out, var.initial)
        }
    }
}

/// Adds the sentence of a variable.
fn put_variable(out: &mut Vec<u8>, var: &Var) -> Result<(), NoMemory>
    ensures { OnOk result
        (out.new.items ≡ out.old.items ++ variable_sentence (variable_of var.now)) }
{
    put_subject(out, var)?;
    put_held(out, var)?;
    put_bytes(out, b".\n")
}

/// Adds the sentences of variables.
pub(crate) fn put_variables(out: &mut Vec<u8>, vars: &[Var]) -> Result<(), NoMemory>
    ensures { OnOk result
        (out.new.items ≡ out.old.items ++ flat_map variable_sentence (map variable_of vars.now)) }
{
    for var in vars {
        put_variable(out, var)?;
    }
    Ok(())
}

/// Adds a value of a table with its weight.
fn put_row(out: &mut Vec<u8>, row: Row) -> Result<(), NoMemory>
    ensures { OnOk result (out.new.items ≡ out.old.items ++ row_phrase (weighted_of row)) }
{
    put_signed(out, row.value)?;
    put_counted(out, b" with weight ", row.weight)
}

/// Adds values of a table with their weights, each after a comma and a space.
fn put_later_rows(out: &mut Vec<u8>, rows: &[Row]) -> Result<(), NoMemory>
    ensures { OnOk result
        (out.new.items
        ≡ out.old.items ++ after_commas (map row_phrase (map weighted_of rows.now))) }
{
    for row in rows {
        put_bytes(out, b", ")?;
        put_row(out, *row)?;
    }
    Ok(())
}

/// Adds values of a table with their weights, with a comma and a space between two.
fn put_rows(out: &mut Vec<u8>, rows: &[Row]) -> Result<(), NoMemory>
    ensures { OnOk result
        (out.new.items ≡ out.old.items ++ joined (map row_phrase (map weighted_of rows.now))) }
{
    let [first, rest @ ..] = rows else {
        return Ok(());
    };
    put_row(out, *first)?;
    put_later_rows(out, rest)
}

/// Adds the sentence of a table.
fn put_table(out: &mut Vec<u8>, table: &Table) -> Result<(), NoMemory>
    ensures { OnOk result (out.new.items ≡ out.old.items ++ table_sentence (table_of table.now)) }
{
    put_texts(out, &[b"The table ", table.name.as_slice(), b" gives "])?;
    put_rows(out, table.rows.as_slice())?;
    put_bytes(out, b".\n")
}

/// Adds the sentences of tables.
pub(crate) fn put_tables(out: &mut Vec<u8>, tables: &[Table]) -> Result<(), NoMemory>
    ensures { OnOk result
        (out.new.items ≡ out.old.items ++ flat_map table_sentence (map table_of tables.now)) }
{
    for table in tables {
        put_table(out, table)?;
    }
    Ok(())
}

/// Adds the names of what is watched, each after a comma and a space.
fn put_later_watched(out: &mut Vec<u8>, model: &Model, watch: &[Watch]) -> Result<(), NoMemory>
    ensures { OnOk result
        (out.new.items
        ≡ out.old.items
        ++ after_commas (map (watched_name (graph_of model.now)) (map watched_of watch.now))) }
{
    for watched in watch {
        put_texts(out, &[b", ", model.watched_name(*watched)])?;
    }
    Ok(())
}

/// Adds the names of what is watched, with a comma and a space between two.
fn put_watched(out: &mut Vec<u8>, model: &Model, watch: &[Watch]) -> Result<(), NoMemory>
    ensures { OnOk result
        (out.new.items
        ≡ out.old.items
        ++ joined (map (watched_name (graph_of model.now)) (map watched_of watch.now))) }
{
    let [first, rest @ ..] = watch else {
        return Ok(());
    };
    put_bytes(out, model.watched_name(*first))?;
    put_later_watched(out, model, rest)
}

/// Adds the sentence of what is watched.
pub(crate) fn put_watch(out: &mut Vec<u8>, model: &Model, watch: &[Watch]) -> Result<(), NoMemory>
    ensures { OnOk result
        (out.new.items
        ≡ out.old.items
        ++ watch_sentence (map (watched_name (graph_of model.now)) (map watched_of watch.now))) }
{
    if watch.is_empty() {
        return put_bytes(out, b"Nothing is watched.\n");
    }
    put_bytes(out, b"Watched are ")?;
    put_watched(out, model, watch)?;
    put_bytes(out, b".\n")
}
