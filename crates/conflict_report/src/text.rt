//! The text of the conflicts in a model: a line for each pair.

ghost use Rattle.std.specs.Prelude.{◌≡◌, ◌++◌, IfOk, OnOk};
ghost use Rattle.std.specs.List.{flat_map};
ghost use Rattle.model_core.specs.Code.Views.{graph_of};
ghost use Rattle.conflict_report.specs.ConflictText.{reasons_text, conflict_line, conflict_text};

use crate::pairs::conflict_list;
use model_core::{Model, Pair, Reasons};
use sig_base::{NoMemory, Text, put_texts};
use std::alloc::Global;

/// The names of the reasons that hold, with a comma between two.
fn reasons_text(reasons: Reasons) -> &'static [u8]
    ensures { result.now ≡ reasons_text reasons }
{
    match (reasons.variables, reasons.streams, reasons.cancels) {
        (true, true, true) => b"variables,streams,cancels",
        (true, true, false) => b"variables,streams",
        (true, false, true) => b"variables,cancels",
        (true, false, false) => b"variables",
        (false, true, true) => b"streams,cancels",
        (false, true, false) => b"streams",
        (false, false, true) => b"cancels",
        (false, false, false) => b"",
    }
}

/// Adds the line of a pair: the names of both vertices, and the reasons.
fn put_line(out: &mut Vec<u8>, model: &Model, pair: Pair) -> Result<(), NoMemory>
    ensures { OnOk result
        (out.new.items ≡ out.old.items ++ conflict_line (graph_of model.now) pair) }
{
    let first = model.vertex_name(pair.a);
    let second = model.vertex_name(pair.b);
    put_texts(out, &[first, b" ", second, b" "])?;
    put_texts(out, &[reasons_text(pair.reasons), b"\n"])
}

/// Adds the lines of pairs.
fn put_lines(out: &mut Vec<u8>, model: &Model, pairs: &[Pair]) -> Result<(), NoMemory>
    ensures { OnOk result
        (out.new.items ≡ out.old.items ++ flat_map (conflict_line (graph_of model.now)) pairs.now) }
{
    for pair in pairs {
        put_line(out, model, *pair)?;
    }
    Ok(())
}

/// A line for each pair of vertices in conflict: both names, and the reasons with a comma between two.
pub fn conflict_text(alloc: Global, model: &Model) -> Result<Text, NoMemory>
    ensures { IfOk result (λ text. text ≡ conflict_text (graph_of model.now)) }
{
    let pairs = conflict_list(alloc, model)?;
    let mut out = Vec::new(alloc);
    put_lines(&mut out, model, pairs.as_slice())?;
    Ok(Text::from_vec(out))
}
