//! The text of the uses in a model: a line for each variable.

ghost use Rattle.std.specs.Prelude.{◌≡◌, ◌++◌, ℕ, map, codes, OnOk};
ghost use Rattle.std.specs.List.{flat_map};
ghost use Rattle.model_core.specs.Text.Canonical.{vertex_name};
ghost use Rattle.model_core.specs.Code.Views.{graph_of};
ghost use Rattle.use_analysis.specs.UseRows.{uses_row, use_table};
ghost use Rattle.use_analysis.specs.UsesText.{users_text, yes_or_no, uses_line, uses_text};

use crate::table::{UseRow, use_table};
use model_core::Model;
use sig_base::{NoMemory, put_bytes, put_texts};
use std::alloc::Global;

/// Adds the names of vertices, each after a comma.
fn put_later_users(out: &mut Vec<u8>, model: &Model, vertices: &[usize]) -> Result<(), NoMemory>
    ensures { OnOk result
        (out.new.items
        ≡ out.old.items
        ++ flat_map (λ (w : ℕ). codes "," ++ vertex_name (graph_of model.now) w) vertices.now) }
{
    for vertex in vertices {
        put_texts(out, &[b",", model.vertex_name(*vertex)])?;
    }
    Ok(())
}

/// Adds the names of vertices with a comma between two, or a dash where there are none.
fn put_users(out: &mut Vec<u8>, model: &Model, vertices: &[usize]) -> Result<(), NoMemory>
    ensures { OnOk result
        (out.new.items ≡ out.old.items ++ users_text (graph_of model.now) vertices.now) }
{
    let [first, rest @ ..] = vertices else {
        return put_bytes(out, b"-");
    };
    put_bytes(out, model.vertex_name(*first))?;
    put_later_users(out, model, rest)
}

/// The word for whether a variable is watched.
fn yes_or_no(watched: bool) -> &'static [u8]
    ensures { result.now ≡ yes_or_no watched }
{
    if watched { b"yes" } else { b"no" }
}

/// Adds the line of the variable at a place, with its row of the table.
fn put_uses_line(out: &mut Vec<u8>, model: &Model, var: usize, row: &UseRow) -> Result<(), NoMemory>
    ensures { OnOk result
        (out.new.items ≡ out.old.items ++ uses_line (graph_of model.now) var (uses_row row.now)) }
{
    put_texts(out, &[model.variable_name(var), b" readers "])?;
    put_users(out, model, row.readers.as_slice())?;
    put_bytes(out, b" writers ")?;
    put_users(out, model, row.writers.as_slice())?;
    put_texts(out, &[b" watched ", yes_or_no(row.watched), b"\n"])
}

/// Adds a line for each row of the model's table.
fn put_rows(out: &mut Vec<u8>, model: &Model, rows: &[UseRow]) -> Result<(), NoMemory>
    requires { map uses_row rows.now ≡ use_table (graph_of model.now) }
    ensures { OnOk result (out.new.items ≡ out.old.items ++ uses_text (graph_of model.now)) }
{
    for (var, row) in rows.iter().enumerate() {
        put_uses_line(out, model, var, row)?;
    }
    Ok(())
}

/// Adds a line for each variable, in the order of declaration: its name, the vertices that read it and those that write
/// it, in the order of the text, and whether it is watched.
pub fn put_uses(alloc: Global, out: &mut Vec<u8>, model: &Model) -> Result<(), NoMemory>
    ensures { OnOk result (out.new.items ≡ out.old.items ++ uses_text (graph_of model.now)) }
{
    let table = use_table(alloc, model)?;
    put_rows(out, model, table.rows.as_slice())
}
