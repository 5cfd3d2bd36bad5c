//! The variables in parts of a model, added to a list in the order in which they occur there.

ghost use Rattle.std.specs.Prelude.{◌≡◌, [], ◌++◌, map, OnOk};
ghost use Rattle.std.specs.List.{flat_map};
ghost use Rattle.std.specs.Option.{option_map_or};
ghost use Rattle.model_core.specs.EventGraph.{Location, delay_given};
ghost use Rattle.model_core.specs.Rules.Uses.{variables_in, location_reads, change_reads, change_writes, delay_reads, edge_reads, vertex_reads, vertex_writes};
ghost use Rattle.model_core.specs.Rules.Needed.{deciding_reads};
ghost use Rattle.model_core.specs.Code.Views.{expression_of, location_of, change_of, edge_delay_of, edge_kind_of, edge_of, vertex_of};

use model_core::{Change, Delay, Edge, EdgeForm, Expr, Target, Vertex};
use sig_base::NoMemory;

/// Adds the variables that occur in an expression.
pub fn add_variables(out: &mut Vec<usize>, expr: &Expr) -> Result<(), NoMemory>
    ensures { OnOk result (out.new.items ≡ out.old.items ++ variables_in (expression_of expr.now)) }
{
    match expr {
        Expr::Int(_) | Expr::Truth(_) | Expr::Clk => {}
        Expr::Scalar(v) => out.push(*v)?,
        Expr::Cell(v, index) => {
            out.push(*v)?;
            add_variables(out, index)?;
        }
        Expr::Neg(a) | Expr::Not(a) => add_variables(out, a)?,
        Expr::Binary(_, left, right) => {
            add_variables(out, left)?;
            add_variables(out, right)?;
        }
        Expr::If(test, yes, no) => {
            add_variables(out, test)?;
            add_variables(out, yes)?;
            add_variables(out, no)?;
        }
    }
    Ok(())
}

/// Adds the variables that occur in expressions.
pub fn add_all_variables(out: &mut Vec<usize>, exprs: &[Expr]) -> Result<(), NoMemory>
    ensures { OnOk result
        (out.new.items ≡ out.old.items ++ flat_map variables_in (map expression_of exprs.now)) }
{
    for expr in exprs {
        add_variables(out, expr)?;
    }
    Ok(())
}

/// Adds the variables that occur in the index of a target.
pub fn add_index_reads(out: &mut Vec<usize>, target: &Target) -> Result<(), NoMemory>
    ensures { OnOk result
        (out.new.items ≡ out.old.items ++ location_reads (location_of target.now)) }
{
    match &target.index {
        None => Ok(()),
        Some(index) => add_variables(out, index),
    }
}

/// Adds the variables that occur in the indexes of targets.
fn add_all_index_reads(out: &mut Vec<usize>, targets: &[Target]) -> Result<(), NoMemory>
    ensures { OnOk result
        (out.new.items ≡ out.old.items ++ flat_map location_reads (map location_of targets.now)) }
{
    for target in targets {
        add_index_reads(out, target)?;
    }
    Ok(())
}

/// Adds what a change reads.
fn add_change_reads(out: &mut Vec<usize>, change: &Change) -> Result<(), NoMemory>
    ensures { OnOk result (out.new.items ≡ out.old.items ++ change_reads (change_of change.now)) }
{
    match change {
        Change::Set { targets, values } => {
            add_all_index_reads(out, targets.as_slice())?;
            add_all_variables(out, values.as_slice())
        }
        Change::Draw {
            target,
            stream: _,
            choice: _,
        } => add_index_reads(out, target),
    }
}

/// Adds what changes read.
fn add_all_change_reads(out: &mut Vec<usize>, changes: &[Change]) -> Result<(), NoMemory>
    ensures { OnOk result
        (out.new.items ≡ out.old.items ++ flat_map change_reads (map change_of changes.now)) }
{
    for change in changes {
        add_change_reads(out, change)?;
    }
    Ok(())
}

/// Adds what a delay reads.
fn add_delay_reads(out: &mut Vec<usize>, delay: &Delay) -> Result<(), NoMemory>
    ensures { OnOk result (out.new.items ≡ out.old.items ++ delay_reads (edge_delay_of delay.now)) }
{
    match delay {
        Delay::Fixed(expr) => add_variables(out, expr),
        Delay::Drawn {
            stream: _,
            choice: _,
        } => Ok(()),
    }
}

/// Adds what the delay of an edge of this form reads.
fn add_timing_reads(out: &mut Vec<usize>, form: &EdgeForm) -> Result<(), NoMemory>
    ensures { OnOk result
        (out.new.items
        ≡ out.old.items ++ option_map_or delay_reads (delay_given (edge_kind_of form.now)) []) }
{
    match form {
        EdgeForm::Schedule { delay, priority: _ } => add_delay_reads(out, delay),
        EdgeForm::Urgent | EdgeForm::CancelNext | EdgeForm::CancelEqual | EdgeForm::CancelAll => {
            Ok(())
        }
    }
}

/// Adds what the condition and the delay of an edge read.
pub fn add_deciding_reads(out: &mut Vec<usize>, edge: &Edge) -> Result<(), NoMemory>
    ensures { OnOk result (out.new.items ≡ out.old.items ++ deciding_reads (edge_of edge.now)) }
{
    add_variables(out, &edge.condition)?;
    add_timing_reads(out, &edge.form)
}

/// Adds what an edge reads.
fn add_edge_reads(out: &mut Vec<usize>, edge: &Edge) -> Result<(), NoMemory>
    ensures { OnOk result (out.new.items ≡ out.old.items ++ edge_reads (edge_of edge.now)) }
{
    add_variables(out, &edge.condition)?;
    add_timing_reads(out, &edge.form)?;
    add_all_variables(out, edge.values.as_slice())
}

/// Adds what edges read.
fn add_all_edge_reads(out: &mut Vec<usize>, edges: &[Edge]) -> Result<(), NoMemory>
    ensures { OnOk result
        (out.new.items ≡ out.old.items ++ flat_map edge_reads (map edge_of edges.now)) }
{
    for edge in edges {
        add_edge_reads(out, edge)?;
    }
    Ok(())
}

/// Adds what a vertex reads.
pub fn add_vertex_reads(out: &mut Vec<usize>, vertex: &Vertex) -> Result<(), NoMemory>
    ensures { OnOk result (out.new.items ≡ out.old.items ++ vertex_reads (vertex_of vertex.now)) }
{
    add_all_change_reads(out, vertex.changes.as_slice())?;
    add_all_edge_reads(out, vertex.edges.as_slice())
}

/// Adds the variables that targets name.
pub(crate) fn add_target_vars(out: &mut Vec<usize>, targets: &[Target]) -> Result<(), NoMemory>
    ensures { OnOk result
        (out.new.items
        ≡ out.old.items ++ map (λ (l : Location). l.variable) (map location_of targets.now)) }
{
    for target in targets {
        out.push(target.var)?;
    }
    Ok(())
}

/// Adds what a change writes.
fn add_change_writes(out: &mut Vec<usize>, change: &Change) -> Result<(), NoMemory>
    ensures { OnOk result (out.new.items ≡ out.old.items ++ change_writes (change_of change.now)) }
{
    match change {
        Change::Set { targets, values: _ } => add_target_vars(out, targets.as_slice()),
        Change::Draw {
            target,
            stream: _,
            choice: _,
        } => Ok(out.push(target.var)?),
    }
}

/// Adds what changes write.
fn add_all_change_writes(out: &mut Vec<usize>, changes: &[Change]) -> Result<(), NoMemory>
    ensures { OnOk result
        (out.new.items ≡ out.old.items ++ flat_map change_writes (map change_of changes.now)) }
{
    for change in changes {
        add_change_writes(out, change)?;
    }
    Ok(())
}

/// Adds places as they are.
pub fn add_places(out: &mut Vec<usize>, places: &[usize]) -> Result<(), NoMemory>
    ensures { OnOk result (out.new.items ≡ out.old.items ++ places.now) }
{
    for place in places {
        out.push(*place)?;
    }
    Ok(())
}

/// Adds what a vertex writes.
pub fn add_vertex_writes(out: &mut Vec<usize>, vertex: &Vertex) -> Result<(), NoMemory>
    ensures { OnOk result (out.new.items ≡ out.old.items ++ vertex_writes (vertex_of vertex.now)) }
{
    add_places(out, vertex.params.as_slice())?;
    add_all_change_writes(out, vertex.changes.as_slice())
}
