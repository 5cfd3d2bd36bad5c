//! The variables that are needed because something may fault: a target or a parameter whose store isn't quiet. That is asked
//! only of variables that aren't marked, since bounds are dear.

ghost use Rattle.std.specs.Prelude.{◌≡◌, ℕ, ◌++◌, map, zip, OnOk};
ghost use Rattle.std.specs.List.{flat_map};
ghost use Rattle.model_core.specs.EventGraph.{Location, Expression, scalar_location};
ghost use Rattle.model_core.specs.Rules.BoundsOfParts.{quiet_set};
ghost use Rattle.model_core.specs.Code.Views.{graph_of, vertex_of, change_of, edge_of, location_of, expression_of};
ghost use Rattle.var_slicing.specs.Inner.Needing.{added_each};
ghost use Rattle.var_slicing.specs.Inner.Faulting.{fault_unless, faults_in_change, faults_in_edge, with_faults};

use marked_walks::is_marked;
use model_core::{Change, Edge, Expr, Model, Target, Vertex};
use range_bounds::{bounds, quiet_change, quiet_set, quiet_store};
use sig_base::NoMemory;

/// Adds the variable of a target whose index, right side or store may fault, unless it is marked.
fn add_faulting_target(
    out: &mut Vec<usize>,
    marks: &[bool],
    model: &Model,
    target: &Target,
    value: &Expr,
) -> Result<(), NoMemory>
    ensures { OnOk result
        (out.new.items
        ≡ out.old.items
        ++ fault_unless marks.now target.now.var
        (quiet_set (graph_of model.now) (location_of target.now) (expression_of value.now))) }
{
    if is_marked(marks, target.var) {
        return Ok(());
    }
    if !quiet_set(model, target, value) {
        out.push(target.var)?;
    }
    Ok(())
}

/// Adds the variables of such targets, unless they are marked.
fn add_faulting_targets(
    out: &mut Vec<usize>,
    marks: &[bool],
    model: &Model,
    targets: &[Target],
    values: &[Expr],
) -> Result<(), NoMemory>
    ensures { OnOk result
        (out.new.items
        ≡ out.old.items
        ++ flat_map (λ ((l, e) : Location × Expression). fault_unless marks.now l.variable
        (quiet_set (graph_of model.now) l e))
        (zip (map location_of targets.now) (map expression_of values.now))) }
{
    for (target, value) in targets.iter().zip(values) {
        add_faulting_target(out, marks, model, target, value)?;
    }
    Ok(())
}

/// Adds the variables of a change in which something that may fault is stored, unless they are marked.
fn add_faulting_change(
    out: &mut Vec<usize>,
    marks: &[bool],
    model: &Model,
    change: &Change,
) -> Result<(), NoMemory>
    ensures { OnOk result
        (out.new.items
        ≡ out.old.items ++ faults_in_change marks.now (graph_of model.now) (change_of change.now)) }
{
    match change {
        Change::Set { targets, values } => {
            add_faulting_targets(out, marks, model, targets.as_slice(), values.as_slice())
        }
        Change::Draw {
            target,
            stream: _,
            choice: _,
        } => {
            if is_marked(marks, target.var) || quiet_change(model, change) {
                return Ok(());
            }
            out.push(target.var)?;
            Ok(())
        }
    }
}

/// Adds the variables of changes in which something that may fault is stored, unless they are marked.
fn add_faulting_changes(
    out: &mut Vec<usize>,
    marks: &[bool],
    model: &Model,
    changes: &[Change],
) -> Result<(), NoMemory>
    ensures { OnOk result
        (out.new.items
        ≡ added_each (faults_in_change marks.now (graph_of model.now))
        (map change_of changes.now) out.old.items) }
{
    for change in changes {
        add_faulting_change(out, marks, model, change)?;
    }
    Ok(())
}

/// Adds a parameter for which a value that may fault is carried, or whose store may, unless it is marked.
fn add_faulting_value(
    out: &mut Vec<usize>,
    marks: &[bool],
    model: &Model,
    param: usize,
    value: &Expr,
) -> Result<(), NoMemory>
    ensures { OnOk result
        (out.new.items
        ≡ out.old.items
        ++ fault_unless marks.now param
        (quiet_set (graph_of model.now) (scalar_location param) (expression_of value.now))) }
{
    if is_marked(marks, param) {
        return Ok(());
    }
    let of = bounds(model, value);
    if !(of.quiet && quiet_store(model, param, &of)) {
        out.push(param)?;
    }
    Ok(())
}

/// Adds such parameters, unless they are marked.
fn add_faulting_values(
    out: &mut Vec<usize>,
    marks: &[bool],
    model: &Model,
    params: &[usize],
    values: &[Expr],
) -> Result<(), NoMemory>
    ensures { OnOk result
        (out.new.items
        ≡ out.old.items
        ++ flat_map (λ ((v, x) : ℕ × Expression). fault_unless marks.now v
        (quiet_set (graph_of model.now) (scalar_location v) x))
        (zip params.now (map expression_of values.now))) }
{
    for (param, value) in params.iter().zip(values) {
        add_faulting_value(out, marks, model, *param, value)?;
    }
    Ok(())
}

/// Adds such parameters of the target of a scheduling edge, unless they are marked.
fn add_faulting_carried(
    out: &mut Vec<usize>,
    marks: &[bool],
    model: &Model,
    edge: &Edge,
) -> Result<(), NoMemory>
    ensures { OnOk result
        (out.new.items
        ≡ out.old.items ++ faults_in_edge marks.now (graph_of model.now) (edge_of edge.now)) }
{
    if edge.form.is_scheduling() {
        add_faulting_values(
            out,
            marks,
            model,
            model.parameters_at(edge.target),
            edge.values.as_slice(),
        )
    } else {
        Ok(())
    }
}

/// Adds such parameters of the targets of scheduling edges, unless they are marked.
fn add_all_faulting_carried(
    out: &mut Vec<usize>,
    marks: &[bool],
    model: &Model,
    edges: &[Edge],
) -> Result<(), NoMemory>
    ensures { OnOk result
        (out.new.items
        ≡ added_each (faults_in_edge marks.now (graph_of model.now))
        (map edge_of edges.now) out.old.items) }
{
    for edge in edges {
        add_faulting_carried(out, marks, model, edge)?;
    }
    Ok(())
}

/// Adds the variables that aren't marked and in which something that may fault is stored, by the changes of these vertices or
/// as the parameters of their edges' targets.
pub(crate) fn add_faulting(
    out: &mut Vec<usize>,
    marks: &[bool],
    model: &Model,
    vertices: &[Vertex],
) -> Result<(), NoMemory>
    ensures { OnOk result
        (out.new.items
        ≡ with_faults marks.now (graph_of model.now) (map vertex_of vertices.now) out.old.items) }
{
    for vertex in vertices {
        add_faulting_changes(out, marks, model, vertex.changes.as_slice())?;
        add_all_faulting_carried(out, marks, model, vertex.edges.as_slice())?;
    }
    Ok(())
}
