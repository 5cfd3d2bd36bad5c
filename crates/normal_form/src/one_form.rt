//! Whether two models have one normal form, but for names.

ghost use Rattle.std.specs.Prelude.{◌≡◌, IfOk, map};
ghost use Rattle.model_core.specs.Code.Views.{variable_of, table_of, vertex_of, graph_of};
ghost use Rattle.model_core.specs.Static.Reading.{IsValid};
ghost use Rattle.alike_laws.specs.Nameless.{variable_nameless, table_nameless, vertex_nameless, nameless};
ghost use Rattle.normal_form.specs.OneForm.{NormalForms, equal_but_names};

use crate::rounds::normal;
use model_core::{Model, Var, Vertex, copy_model, same_model};
use sig_base::{NoMemory, Table};
use std::alloc::Global;

/// Takes the names of variables away.
fn forget_variable_names(vars: &mut Vec<Var>)
    ensures { map variable_of vars.new.items
        ≡ map variable_nameless (map variable_of vars.old.items) }
{
    for var in vars.iter_mut() {
        var.name.as_mut_vec().clear();
    }
}

/// Takes the names of tables away.
fn forget_table_names(tables: &mut Vec<Table>)
    ensures { map table_of tables.new.items ≡ map table_nameless (map table_of tables.old.items) }
{
    for table in tables.iter_mut() {
        table.name.as_mut_vec().clear();
    }
}

/// Takes the names of vertices away.
fn forget_vertex_names(vertices: &mut Vec<Vertex>)
    ensures { map vertex_of vertices.new.items
        ≡ map vertex_nameless (map vertex_of vertices.old.items) }
{
    for vertex in vertices.iter_mut() {
        vertex.name.as_mut_vec().clear();
    }
}

/// Takes the names of a model and of its parts away.
fn forget_names(model: &mut Model)
    ensures { graph_of model.new ≡ nameless (graph_of model.old) }
{
    model.name.as_mut_vec().clear();
    forget_variable_names(model.vars.as_mut_vec());
    forget_table_names(model.tables.as_mut_vec());
    forget_vertex_names(model.vertices.as_mut_vec());
}

/// Whether two models are equal, whatever they and their parts are called.
fn same_but_names(first: Model, second: Model) -> bool
    ensures { result ≡ equal_but_names (graph_of first) (graph_of second) }
{
    let mut first = first;
    let mut second = second;
    forget_names(&mut first);
    forget_names(&mut second);
    same_model(&first, &second)
}

/// Whether the normal forms of two valid models are equal, whatever they and their parts are called.
pub fn have_one_form(alloc: Global, first: &Model, second: &Model) -> Result<bool, NoMemory>
    requires first_valid { IsValid (graph_of first.now) }
    requires second_valid { IsValid (graph_of second.now) }
    ensures { IfOk result
        (λ one. (forms : NormalForms (graph_of first.now) (graph_of second.now))
        × (one ≡ equal_but_names forms.first forms.second)) }
{
    let one = normal(alloc, copy_model(alloc, first)?)?;
    let other = normal(alloc, copy_model(alloc, second)?)?;
    Ok(same_but_names(one, other))
}
