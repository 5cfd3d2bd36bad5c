//! The canonical text of a whole model.

ghost use Rattle.std.specs.Prelude.{◌++◌, codes, map};
ghost use Rattle.std.specs.List.{flat_map};
ghost use Rattle.model_core.specs.Text.Canonical.{variable_line, table_line, version_line, watch_line, canonical};
ghost use Rattle.model_core.specs.Code.Views.{graph_of, variable_of, table_of};

use crate::declarations::{put_tables, put_variables, put_watch};
use crate::pen::Pen;
use crate::vertices::put_vertices;
use model_core::{Model, needs_version_two};

/// Puts the line of the version, or nothing where the model doesn't need it.
fn put_version_line<P: Pen>(out: &mut P, needed: bool)
    ensures { P.adds out.old out.new (version_line needed) }
{
    if needed {
        out.put_bytes(b"version 2;\n");
    }
}

/// Puts the declarations, and before them the line of the version where that is needed.
pub(crate) fn put_declarations<P: Pen>(out: &mut P, model: &Model, version_two: bool)
    ensures { P.adds out.old out.new
        (version_line version_two ++ codes "model " ++ model.now.name ++ codes ";\n"
        ++ flat_map variable_line (map variable_of model.now.vars)
        ++ flat_map table_line (map table_of model.now.tables) ++ watch_line (graph_of model.now)) }
{
    put_version_line(out, version_two);
    out.put_bytes(b"model ");
    out.put_bytes(model.name.as_slice());
    out.put_bytes(b";\n");
    put_variables(out, model.vars.as_slice());
    put_tables(out, model.tables.as_slice());
    put_watch(out, model, model.watch.as_slice());
}

/// Puts the canonical text of a model.
pub(crate) fn put_model<P: Pen>(out: &mut P, model: &Model)
    ensures { P.adds out.old out.new (canonical (graph_of model.now)) }
{
    put_declarations(out, model, needs_version_two(model));
    put_vertices(out, model, model.vertices.as_slice());
    out.put_bytes(b"end\n");
}
