//! The lines of variables, tables and the watch list.

ghost use Rattle.std.specs.Prelude.{◌++◌, map, codes};
ghost use Rattle.std.specs.Fmt.{signed_decimal};
ghost use Rattle.std.specs.List.{flat_map};
ghost use Rattle.model_core.specs.Text.Canonical.{size_text, clip_text, initial_truth, kind_text, variable_line, row_text, table_line, watched_name, watch_names_line, joined};
ghost use Rattle.model_core.specs.Code.Views.{graph_of, variable_of, weighted_of, table_of, watched_of};

use crate::expressions::put_truth;
use crate::pen::{Pen, put_comma, put_number, put_signed};
use model_core::{Kind, Model, Var, Watch};
use sig_base::{Row, Table};

/// Puts the size of an array in brackets, or nothing where it is 0.
fn put_size<P: Pen>(out: &mut P, size: usize)
    ensures { P.adds out.old out.new (size_text size) }
{
    if size == 0 {
        return;
    }
    out.put_bytes(b"[");
    put_number(out, size as u64);
    out.put_bytes(b"]");
}

/// Puts the word `clip` where stores take the nearest bound.
fn put_clip<P: Pen>(out: &mut P, clip: bool)
    ensures { P.adds out.old out.new (clip_text clip) }
{
    if clip {
        out.put_bytes(b" clip");
    }
}

/// Puts the range of a variable.
fn put_range<P: Pen>(out: &mut P, var: &Var)
    ensures { P.adds out.old out.new
        (signed_decimal var.now.lo ++ codes ".." ++ signed_decimal var.now.hi
        ++ clip_text var.now.clip) }
{
    put_signed(out, var.lo);
    out.put_bytes(b"..");
    put_signed(out, var.hi);
    put_clip(out, var.clip);
}

/// Puts the initial value of a truth value.
fn put_initial_truth<P: Pen>(out: &mut P, initial: i64)
    ensures { P.adds out.old out.new (initial_truth initial) }
{
    put_truth(out, initial != 0);
}

/// Puts what a variable holds, and its initial value.
fn put_kind<P: Pen>(out: &mut P, var: &Var)
    ensures { P.adds out.old out.new (kind_text (variable_of var.now) var.now.kind) }
{
    match var.kind {
        Kind::Truth => {
            out.put_bytes(b"bool = ");
            put_initial_truth(out, var.initial);
        }
        Kind::Range => {
            put_range(out, var);
            out.put_bytes(b" = ");
            put_signed(out, var.initial);
        }
    }
}

/// Puts the line of a variable.
fn put_variable<P: Pen>(out: &mut P, var: &Var)
    ensures { P.adds out.old out.new (variable_line (variable_of var.now)) }
{
    out.put_bytes(b"var ");
    out.put_bytes(var.name.as_slice());
    put_size(out, var.size);
    out.put_bytes(b" : ");
    put_kind(out, var);
    out.put_bytes(b";\n");
}

/// Puts the lines of variables.
pub(crate) fn put_variables<P: Pen>(out: &mut P, vars: &[Var])
    ensures { P.adds out.old out.new (flat_map variable_line (map variable_of vars.now)) }
{
    for var in vars {
        put_variable(out, var);
    }
}

/// Puts a row of a table.
fn put_row<P: Pen>(out: &mut P, row: Row)
    ensures { P.adds out.old out.new (row_text (weighted_of row)) }
{
    put_signed(out, row.value);
    out.put_bytes(b" : ");
    put_number(out, row.weight);
    out.put_bytes(b"; ");
}

/// Puts the rows of a table.
fn put_rows<P: Pen>(out: &mut P, rows: &[Row])
    ensures { P.adds out.old out.new (flat_map row_text (map weighted_of rows.now)) }
{
    for row in rows {
        put_row(out, *row);
    }
}

/// Puts the line of a table.
fn put_table<P: Pen>(out: &mut P, table: &Table)
    ensures { P.adds out.old out.new (table_line (table_of table.now)) }
{
    out.put_bytes(b"table ");
    out.put_bytes(table.name.as_slice());
    out.put_bytes(b" { ");
    put_rows(out, table.rows.as_slice());
    out.put_bytes(b"}\n");
}

/// Puts the lines of tables.
pub(crate) fn put_tables<P: Pen>(out: &mut P, tables: &[Table])
    ensures { P.adds out.old out.new (flat_map table_line (map table_of tables.now)) }
{
    for table in tables {
        put_table(out, table);
    }
}

/// Puts the name of what is watched.
fn put_watched<P: Pen>(out: &mut P, model: &Model, watch: Watch)
    ensures { P.adds out.old out.new (watched_name (graph_of model.now) (watched_of watch)) }
{
    out.put_bytes(model.watched_name(watch));
}

/// Puts the names of what is watched, with a comma and a space between two.
fn put_watched_names<P: Pen>(out: &mut P, model: &Model, watch: &[Watch])
    ensures { P.adds out.old out.new
        (joined (map (watched_name (graph_of model.now)) (map watched_of watch.now))) }
{
    let [first, rest @ ..] = watch else {
        return;
    };
    put_watched(out, model, *first);
    for next in rest {
        put_comma(out);
        put_watched(out, model, *next);
    }
}

/// Puts the line of the watch list, or nothing where it is empty.
pub(crate) fn put_watch<P: Pen>(out: &mut P, model: &Model, watch: &[Watch])
    ensures { P.adds out.old out.new
        (watch_names_line (map (watched_name (graph_of model.now)) (map watched_of watch.now))) }
{
    if watch.is_empty() {
        return;
    }
    out.put_bytes(b"watch ");
    put_watched_names(out, model, watch);
    out.put_bytes(b";\n");
}
