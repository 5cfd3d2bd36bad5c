//! Names of variables, vertices and tables, by their place. A place that nothing has prints as nothing.

ghost use Rattle.model_core.specs.Text.Canonical.{table_name, variable_name, vertex_name};
ghost use Rattle.model_core.specs.Code.Views.{graph_of};

use crate::pen::Pen;
use model_core::Model;

/// Puts the name of the variable at a place.
pub(crate) fn put_variable_name<P: Pen>(out: &mut P, model: &Model, var: usize)
    ensures { P.adds out.old out.new (variable_name (graph_of model.now) var) }
{
    out.put_bytes(model.variable_name(var));
}

/// Puts the name of the vertex at a place.
pub(crate) fn put_vertex_name<P: Pen>(out: &mut P, model: &Model, vertex: usize)
    ensures { P.adds out.old out.new (vertex_name (graph_of model.now) vertex) }
{
    out.put_bytes(model.vertex_name(vertex));
}

/// Puts the name of the table at a place.
pub(crate) fn put_table_name<P: Pen>(out: &mut P, model: &Model, table: usize)
    ensures { P.adds out.old out.new (table_name (graph_of model.now) table) }
{
    out.put_bytes(model.table_name(table));
}
