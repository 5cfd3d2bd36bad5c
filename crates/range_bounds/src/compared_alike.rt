//! Urgent edges whose conditions compare one and the same with numbers: the numbers alone decide which exclude each other.
#![tactic(auto, using(model_core::proofs::SignedBits::signed_bits))]

ghost use Rattle.std.specs.Prelude.{◌≡◌, map, Some};
ghost use Rattle.std.specs.List.{list_all};
ghost use Rattle.std.specs.Option.{IfSome, is_some, option_map};
ghost use Rattle.model_core.specs.EventGraph.{Expression, Binary};
ghost use Rattle.model_core.specs.Rules.Exclusive.{comparison_of};
ghost use Rattle.model_core.specs.Rules.UrgentEdges.{each_pair};
ghost use Rattle.model_core.specs.Code.Views.{graph_of, edge_of, expression_of, operator_of};
ghost use Rattle.range_bounds.specs.LiveEdges.{is_live};
ghost use Rattle.range_bounds.specs.Inner.ComparedAlike.{live_conditions, left_operand, first_left, short_literal, comparison_with, compares_this, all_compare_this, all_compare_alike, never_both, AreCompared};

use crate::exclusion::{is_comparison, is_same, literal_number, some_meets_both};
use crate::expressions::refuted;
use crate::urgency::is_urgent;
use arrayvec::ArrayVec;
use model_core::{Edge, Expr, Model, Op};
use sig_base::EDGES_MAX;

/// How something is compared with a number.
#[derive(Clone, Copy)]
pub(crate) struct Compared {
    pub(crate) op: Op,
    pub(crate) number: i64,
}

impl Default for Compared {
    fn default() -> Compared {
        Compared {
            op: Op::Eq,
            number: 0,
        }
    }
}

/// Whether an edge is urgent and its condition isn't refuted. Any other one excludes all edges.
pub(crate) fn is_live(model: &Model, edge: &Edge) -> bool
    ensures { result ≡ is_live (graph_of model.now) (edge_of edge.now) }
{
    is_urgent(edge) && !refuted(model, &edge.condition)
}

/// What an operator of two operands has on its left.
fn left_operand(expr: &Expr) -> Option<&Expr>
    ensures { option_map (λ e. expression_of e.now) result ≡ left_operand (expression_of expr.now) }
{
    match expr {
        Expr::Binary(_, left, _) => Some(left),
        _ => None,
    }
}

/// What the first of these edges that is live compares with something, if it does.
fn first_left<'e>(model: &Model, edges: &'e [Edge]) -> Option<&'e Expr>
    ensures { option_map (λ e. expression_of e.now) result
        ≡ first_left (live_conditions (graph_of model.now) (map edge_of edges.now)) }
{
    for edge in edges {
        if is_live(model, edge) {
            return left_operand(&edge.condition);
        }
    }
    None
}

/// The number of a literal with a sign or without, if that has 64 bits.
fn short_literal(expr: &Expr) -> Option<i64>
    ensures { result ≡ short_literal (expression_of expr.now) }
{
    i64::try_from(literal_number(expr)?).ok()
}

/// How `operand op number` compares this with a number, if it does.
fn operands_compare(op: Op, operand: &Expr, number: &Expr, left: &Expr) -> Option<Compared>
    ensures is { IfSome result
        (λ c. comparison_of
        (Binary (operator_of op) (expression_of operand.now) (expression_of number.now))
        ≡ Some (comparison_with (expression_of left.now) c)) }
    ensures found { is_some result
        ≡ compares_this (expression_of left.now)
        (Binary (operator_of op) (expression_of operand.now) (expression_of number.now)) }
{
    if !is_comparison(op) || !is_same(operand, left) {
        return None;
    }
    let number = short_literal(number)?;
    Some(Compared { op, number })
}

/// How a condition compares this with a number, if it does.
fn comparison(condition: &Expr, left: &Expr) -> Option<Compared>
    ensures is { IfSome result
        (λ c. comparison_of (expression_of condition.now)
        ≡ Some (comparison_with (expression_of left.now) c)) }
    ensures found { is_some result
        ≡ compares_this (expression_of left.now) (expression_of condition.now) }
{
    match condition {
        Expr::Binary(op, operand, number) => operands_compare(*op, operand, number, left),
        _ => None,
    }
}

/// How the conditions of the live ones of these edges compare this with numbers, if all do.
fn comparisons_of(
    model: &Model,
    left: &Expr,
    edges: &[Edge],
) -> Option<ArrayVec<Compared, EDGES_MAX>>
    ensures are { IfSome result
        (λ all. AreCompared (graph_of model.now) (expression_of left.now)
        (map edge_of edges.now) all.items) }
    ensures found { is_some result
        ≡ all_compare_this (expression_of left.now)
        (live_conditions (graph_of model.now) (map edge_of edges.now)) }
{
    let mut all = ArrayVec::new();
    for edge in edges {
        if is_live(model, edge) {
            if all.try_push(comparison(&edge.condition, left)?).is_err() {
                return None;
            }
        }
    }
    Some(all)
}

/// How the conditions of the live ones of these edges compare one and the same with numbers, if all do.
pub(crate) fn compared_alike(model: &Model, edges: &[Edge]) -> Option<ArrayVec<Compared, EDGES_MAX>>
    ensures are { IfSome result
        (λ all. (left : Expression)
        × AreCompared (graph_of model.now) left (map edge_of edges.now) all.items) }
    ensures found { is_some result
        ≡ all_compare_alike (live_conditions (graph_of model.now) (map edge_of edges.now)) }
{
    comparisons_of(model, first_left(model, edges)?, edges)
}

/// Whether no whole number meets both.
fn is_apart(a: Compared, b: Compared) -> bool
    ensures { result ≡ never_both a b }
{
    match (a.op, b.op) {
        (Op::Eq, Op::Eq) => a.number != b.number,
        _ => !some_meets_both(a.op, a.number as i128, b.op, b.number as i128),
    }
}

/// Whether no whole number meets this and one of the others.
fn is_apart_from_all(one: Compared, others: &[Compared]) -> bool
    ensures { result ≡ list_all (never_both one) others.now }
{
    for other in others {
        if !is_apart(one, *other) {
            return false;
        }
    }
    true
}

/// Whether no whole number meets two of these.
pub(crate) fn all_are_apart(all: &[Compared]) -> bool
    ensures { result ≡ each_pair never_both all.now }
{
    for place in 0..all.len() {
        if !is_apart_from_all(all[place], &all[place + 1..]) {
            return false;
        }
    }
    true
}
