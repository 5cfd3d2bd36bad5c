//! What is read of each value of a model that a change sets or an edge carries, and of each condition of an edge.

ghost use Rattle.std.specs.Prelude.{◌≡◌, nat_le, map, length, IfOk};
ghost use Rattle.model_core.specs.Code.Views.{expression_of, change_of, edge_of, vertex_of};
ghost use Rattle.model_core.specs.Rules.Uses.{variables_in};
ghost use Rattle.range_infer.specs.Inner.PartReads.{long_postfix, value_reads, each_reads, set_reads, carried_reads, parts_read};

use crate::postfix::{PostfixItem, value_postfix};
use model_core::{Change, Edge, Expr, Model, Vertex};
use sig_base::{List, NoMemory};
use std::alloc::Global;
use use_analysis::add_variables;

/// A value that reads variables so many times is long. A shorter one is evaluated sooner as a tree.
const LONG: usize = 16;

/// The variables that a value reads, and its postfix form, where it is long.
#[derive(Drop)]
pub(crate) struct ValueReads {
    pub(crate) vars: List<usize>,
    pub(crate) postfix: List<PostfixItem>,
}

/// The variables that the condition of an edge reads, and what is read of each value which it carries.
#[derive(Drop)]
pub(crate) struct EdgeReads {
    pub(crate) condition: List<usize>,
    pub(crate) values: List<ValueReads>,
}

/// What is read of each value which a change of a vertex sets, a list for each change, and of its edges.
#[derive(Drop)]
pub(crate) struct VertexReads {
    pub(crate) sets: List<List<ValueReads>>,
    pub(crate) carried: List<EdgeReads>,
}

/// The variables in an expression.
fn reads(alloc: Global, expr: &Expr) -> Result<List<usize>, NoMemory>
    ensures { IfOk result (λ reads. reads ≡ variables_in (expression_of expr.now)) }
{
    let mut reads = Vec::new(alloc);
    add_variables(&mut reads, expr)?;
    Ok(List::from_vec(reads))
}

/// Whether a value is long that reads variables so many times.
fn is_long(vars: usize) -> bool
    ensures { result ≡ nat_le LONG vars }
{
    LONG <= vars
}

/// The postfix form of a value that reads variables so many times, where it is long.
fn long_postfix(alloc: Global, value: &Expr, vars: usize) -> Result<List<PostfixItem>, NoMemory>
    requires { vars ≡ length (variables_in (expression_of value.now)) }
    ensures { IfOk result (λ items. items ≡ long_postfix (expression_of value.now)) }
{
    if is_long(vars) {
        value_postfix(alloc, value)
    } else {
        Ok(List::new(alloc))
    }
}

/// What is read of a value.
fn value_reads(alloc: Global, value: &Expr) -> Result<ValueReads, NoMemory>
    ensures { IfOk result (λ of_value. of_value ≡ value_reads (expression_of value.now)) }
{
    let vars = reads(alloc, value)?;
    let postfix = long_postfix(alloc, value, vars.len())?;
    Ok(ValueReads { vars, postfix })
}

fn each_reads(alloc: Global, values: &[Expr]) -> Result<List<ValueReads>, NoMemory>
    ensures { IfOk result (λ all. all ≡ each_reads (map expression_of values.now)) }
{
    let mut all = Vec::new(alloc);
    for value in values {
        all.push(value_reads(alloc, value)?)?;
    }
    Ok(List::from_vec(all))
}

/// What is read of each value that a change sets.
fn set_reads(alloc: Global, change: &Change) -> Result<List<ValueReads>, NoMemory>
    ensures { IfOk result (λ reads. reads ≡ set_reads (change_of change.now)) }
{
    match change {
        Change::Set { targets: _, values } => each_reads(alloc, values.as_slice()),
        Change::Draw {
            target: _,
            stream: _,
            choice: _,
        } => Ok(List::from_vec(Vec::new(alloc))),
    }
}

/// What is read of the condition of an edge and of each value that it carries.
fn carried_reads(alloc: Global, edge: &Edge) -> Result<EdgeReads, NoMemory>
    ensures { IfOk result (λ reads. reads ≡ carried_reads (edge_of edge.now)) }
{
    let condition = reads(alloc, &edge.condition)?;
    let values = each_reads(alloc, edge.values.as_slice())?;
    Ok(EdgeReads { condition, values })
}

fn all_set_reads(alloc: Global, changes: &[Change]) -> Result<List<List<ValueReads>>, NoMemory>
    ensures { IfOk result (λ all. all ≡ map set_reads (map change_of changes.now)) }
{
    let mut all = Vec::new(alloc);
    for change in changes {
        all.push(set_reads(alloc, change)?)?;
    }
    Ok(List::from_vec(all))
}

fn all_carried_reads(alloc: Global, edges: &[Edge]) -> Result<List<EdgeReads>, NoMemory>
    ensures { IfOk result (λ all. all ≡ map carried_reads (map edge_of edges.now)) }
{
    let mut all = Vec::new(alloc);
    for edge in edges {
        all.push(carried_reads(alloc, edge)?)?;
    }
    Ok(List::from_vec(all))
}

fn parts_read(alloc: Global, vertex: &Vertex) -> Result<VertexReads, NoMemory>
    ensures { IfOk result (λ reads. reads ≡ parts_read (vertex_of vertex.now)) }
{
    let sets = all_set_reads(alloc, vertex.changes.as_slice())?;
    let carried = all_carried_reads(alloc, vertex.edges.as_slice())?;
    Ok(VertexReads { sets, carried })
}

/// What is read of the changes and the edges of each vertex.
pub(crate) fn all_parts_read(alloc: Global, model: &Model) -> Result<List<VertexReads>, NoMemory>
    ensures { IfOk result (λ all. all ≡ map parts_read (map vertex_of model.now.vertices)) }
{
    let mut all = Vec::new(alloc);
    for vertex in model.vertices.as_slice() {
        all.push(parts_read(alloc, vertex)?)?;
    }
    Ok(List::from_vec(all))
}

/// How many changes and edges these vertices have.
pub(crate) fn part_count(reads: &[VertexReads]) -> usize {
    let mut count: usize = 0;
    for parts in reads {
        count = count.saturating_add(parts.sets.len().saturating_add(parts.carried.len()));
    }
    count
}
