//! Edges: their targets, the values that they carry, their delays, priorities and conditions.

ghost use Rattle.std.specs.Prelude.{◌≡◌, pos, true, [], Some, IfOk, map, List, Option};
ghost use Rattle.std.specs.List.{flat_map};
ghost use Rattle.std.specs.Option.{option_map};
ghost use Rattle.model_core.specs.declared.model.Kind.{Kind as KnownKind};
ghost use Rattle.model_core.specs.declared.model.Kind.TheVariants as kinds;
ghost use Rattle.model_core.specs.EventGraph.{Fixed, Number, Truth};
ghost use Rattle.model_core.specs.Code.Views.{expression_of, edge_delay_of, edge_kind_of, edge_of};
ghost use Rattle.model_core.specs.Code.WrittenViews.{written_expression, written_number, written_delay, written_edge_kind, written_edge};
ghost use Rattle.model_core.specs.Text.Numbering as numbering;
ghost use Rattle.model_core.specs.Text.Numbering.{each_numbered, written_or, natural};
ghost use Rattle.model_core.specs.Static.FaultOrder.{earliest_fault};
ghost use Rattle.model_core.specs.Static.Meanings.{meaning_of};
ghost use Rattle.model_core.specs.Static.PartFaults.{if_written, written_items, operand_faults, count_faults, priority_faults, carried_faults, delay_faults, schedule_faults, edge_faults};
ghost use Rattle.static_laws.specs.Checked.{CheckedPart, CheckedPlain};
ghost use Rattle.sig_types.specs.Inner.Stored.{taken_by};

use crate::changes::{source, values};
use crate::expressions::operand;
use crate::first_fault::FirstFault;
use crate::names::Names;
use crate::numbers::bounded;
use crate::uses::vertex;
use model_core::{
    Delay, Edge, EdgeForm, Expr, Kind, RawDelay, RawEdge, RawEdgeForm, RawExpr, RawNumber,
    StaticKind,
};
use sig_base::{List, NoMemory};
use std::alloc::Global;

/// The items of a list that may be left out.
pub fn items<T>(list: &Option<List<T>>) -> &[T]
    ensures { result.now ≡ written_items list.now }
{
    match list {
        Some(list) => list.as_slice(),
        None => &[],
    }
}

/// The condition of an edge: true where none is written.
fn condition(
    alloc: Global,
    names: &Names,
    raw: &Option<RawExpr>,
    fault: &mut FirstFault,
) -> Result<Expr, NoMemory>
    ensures { IfOk result
        (λ e. CheckedPart (meaning_of names.now) fault.old fault.new
        (if_written (operand_faults (meaning_of names.now) (Some kinds.Truth))
        (option_map written_expression raw.now))
        (λ d. written_or (numbering.expression d) (Truth true)
        (option_map written_expression raw.now)) (expression_of e)) }
{
    let Some(raw) = raw else {
        return Ok(Expr::Truth(true));
    };
    let expr = operand(alloc, names, Some(Kind::Truth), raw, fault)?;
    Ok(expr.part)
}

/// A delay.
#[tactic(auto, using(crate::proofs::EdgeParts::fixed_checked, crate::proofs::EdgeParts::drawn_checked))]
fn delay(
    alloc: Global,
    names: &Names,
    raw: &RawDelay,
    fault: &mut FirstFault,
) -> Result<Delay, NoMemory>
    ensures { IfOk result
        (λ w. (taken : List (List (Option KnownKind)))
        → CheckedPart (meaning_of names.now) fault.old fault.new
        (delay_faults (meaning_of names.now) taken (written_delay raw.now))
        (λ d. numbering.delay d (written_delay raw.now)) (edge_delay_of w)) }
{
    match raw {
        RawDelay::Fixed(raw) => {
            let expr = operand(alloc, names, Some(Kind::Range), raw, fault)?;
            Ok(Delay::Fixed(expr.part))
        }
        RawDelay::Drawn { stream, choice, .. } => {
            let (stream, choice) = source(names, stream, choice, fault);
            Ok(Delay::Drawn { stream, choice })
        }
    }
}

/// The delay of an edge: 0 where none is written.
fn after(
    alloc: Global,
    names: &Names,
    raw: &Option<RawDelay>,
    fault: &mut FirstFault,
) -> Result<Delay, NoMemory>
    ensures { IfOk result
        (λ w. (taken : List (List (Option KnownKind)))
        → CheckedPart (meaning_of names.now) fault.old fault.new
        (if_written (delay_faults (meaning_of names.now) taken) (option_map written_delay raw.now))
        (λ d. written_or (numbering.delay d) (Fixed (Number (pos 0)))
        (option_map written_delay raw.now)) (edge_delay_of w)) }
{
    match raw {
        Some(raw) => delay(alloc, names, raw, fault),
        None => Ok(Delay::Fixed(Expr::Int(0))),
    }
}

/// A priority: 5 where none is written.
fn priority_of(raw: &Option<RawNumber>, fault: &mut FirstFault) -> u8
    ensures { CheckedPlain fault.old fault.new
        (if_written priority_faults (option_map written_number raw.now))
        (written_or natural 5 (option_map written_number raw.now)) result }
{
    match raw {
        Some(raw) => bounded(raw, 1, 255, StaticKind::PriorityOutside, fault) as u8,
        None => 5,
    }
}

/// What an edge does.
fn form(
    alloc: Global,
    names: &Names,
    raw: &RawEdgeForm,
    fault: &mut FirstFault,
) -> Result<EdgeForm, NoMemory>
    ensures { IfOk result
        (λ f. (taken : List (List (Option KnownKind)))
        → CheckedPart (meaning_of names.now) fault.old fault.new
        (schedule_faults (meaning_of names.now) taken (written_edge_kind raw.now))
        (λ d. numbering.edge_kind d (written_edge_kind raw.now)) (edge_kind_of f)) }
{
    match raw {
        RawEdgeForm::Schedule { delay, priority } => {
            let delay = after(alloc, names, delay, fault)?;
            let priority = priority_of(priority, fault);
            Ok(EdgeForm::Schedule { delay, priority })
        }
        RawEdgeForm::Urgent => Ok(EdgeForm::Urgent),
        RawEdgeForm::CancelNext => Ok(EdgeForm::CancelNext),
        RawEdgeForm::CancelEqual => Ok(EdgeForm::CancelEqual),
        RawEdgeForm::CancelAll => Ok(EdgeForm::CancelAll),
    }
}

/// Reports that an edge carries another number of values than its target takes, or where it can carry none, any at all.
fn report_value_count(
    form: &RawEdgeForm,
    wanted: usize,
    given: usize,
    at: usize,
    fault: &mut FirstFault,
)
    ensures { fault.new
        ≡ earliest_fault fault.old (count_faults (written_edge_kind form.now) wanted given at) }
{
    match form {
        RawEdgeForm::CancelNext | RawEdgeForm::CancelAll => fault.note(
            given != 0,
            StaticKind::ValueCount,
            at,
        ),
        RawEdgeForm::Schedule { .. } | RawEdgeForm::Urgent | RawEdgeForm::CancelEqual => {
            fault.note(wanted != given, StaticKind::ValueCount, at);
        }
    }
}

/// What the vertex at a place takes.
fn taken_at(taken: &[List<Option<Kind>>], target: Option<usize>) -> Option<&List<Option<Kind>>>
    ensures { option_map (λ kinds. kinds.now) result ≡ (taken_by taken.now target) }
{
    taken.get(target?)
}

/// The values that an edge carries to the vertex at a place.
fn carried_values(
    alloc: Global,
    names: &Names,
    taken: &[List<Option<Kind>>],
    target: Option<usize>,
    raw: &RawEdge,
    fault: &mut FirstFault,
) -> Result<List<Expr>, NoMemory>
    ensures { IfOk result
        (λ es. CheckedPart (meaning_of names.now) fault.old fault.new
        (carried_faults (meaning_of names.now) taken.now (written_edge raw.now)
        (taken_by taken.now target))
        (λ d. written_or (each_numbered (numbering.expression d)) [] (written_edge raw.now).values)
        (map expression_of es)) }
{
    let raws = items(&raw.values);
    match taken_at(taken, target) {
        None => values(alloc, names, &[], raws, fault),
        Some(kinds) => {
            let kinds = kinds.as_slice();
            report_value_count(&raw.form, kinds.len(), raws.len(), raw.target.at, fault);
            values(alloc, names, kinds, raws, fault)
        }
    }
}

/// An edge, where the vertices take parameters of these kinds.
pub fn edge(
    alloc: Global,
    names: &Names,
    taken: &[List<Option<Kind>>],
    raw: &RawEdge,
    fault: &mut FirstFault,
) -> Result<Edge, NoMemory>
    ensures { IfOk result
        (λ e. CheckedPart (meaning_of names.now) fault.old fault.new
        (edge_faults (meaning_of names.now) taken.now (written_edge raw.now))
        (λ d. numbering.edge d (written_edge raw.now)) (edge_of e)) }
{
    let target = vertex(names, &raw.target, fault);
    let values = carried_values(alloc, names, taken, target, raw, fault)?;
    let form = form(alloc, names, &raw.form, fault)?;
    let condition = condition(alloc, names, &raw.condition, fault)?;
    Ok(Edge {
        target: target.unwrap_or(0),
        values,
        condition,
        form,
    })
}

/// The edges of a vertex.
pub fn edges(
    alloc: Global,
    names: &Names,
    taken: &[List<Option<Kind>>],
    raws: &[RawEdge],
    fault: &mut FirstFault,
) -> Result<List<Edge>, NoMemory>
    ensures { IfOk result
        (λ es. CheckedPart (meaning_of names.now) fault.old fault.new
        (flat_map (edge_faults (meaning_of names.now) taken.now) (map written_edge raws.now))
        (λ d. each_numbered (numbering.edge d) (map written_edge raws.now)) (map edge_of es)) }
{
    let mut edges = Vec::with_capacity(alloc, raws.len())?;
    for raw in raws {
        let edge = edge(alloc, names, taken, raw, fault)?;
        edges.push(edge)?;
    }
    Ok(List::from_vec(edges))
}
