//! The edges of a made vertex, in one of four forms.

ghost use Rattle.std.specs.Prelude.{◌≡◌, ◌<◌, [], ◌∷◌, map, IfOk};
ghost use Rattle.model_core.specs.EventGraph.{Number, Scalar, Binary};
ghost use Rattle.model_core.specs.Code.Views.{operator_of, expression_of, edge_of};
ghost use Rattle.model_gen.specs.Generated.{timed_edge, immediate_edge, edge_onward, edges_by_half, edges_by_bound, generated_edges};

use model_core::{Delay, Edge, EdgeForm, Expr, Op};
use sig_base::{List, NoMemory};
use std::alloc::Global;

/// The place of GAP among the variables.
pub(crate) const GAP: usize = 8;

/// An edge that schedules a vertex after a delay, with the usual priority, where a condition holds.
fn timed_edge(alloc: Global, target: usize, delay: Expr, condition: Expr) -> Edge
    ensures { edge_of result ≡ timed_edge target (expression_of delay) (expression_of condition) }
{
    Edge {
        target,
        values: List::new(alloc),
        condition,
        form: EdgeForm::Schedule {
            delay: Delay::Fixed(delay),
            priority: 5,
        },
    }
}

/// An edge that schedules a vertex at once.
fn immediate_edge(alloc: Global, target: usize) -> Edge
    ensures { edge_of result ≡ immediate_edge target }
{
    Edge {
        target,
        values: List::new(alloc),
        condition: Expr::Truth(true),
        form: EdgeForm::Urgent,
    }
}

/// The edge to the next vertex, or from the last vertex back to the first.
fn edge_onward(alloc: Global, place: usize, vertices: usize) -> Edge
    requires { place < vertices }
    ensures { edge_of result ≡ edge_onward vertices place }
{
    if place + 1 < vertices {
        immediate_edge(alloc, place + 1)
    } else {
        timed_edge(alloc, 0, Expr::Int(2), Expr::Truth(true))
    }
}

/// A counter compared with a number.
fn counter_test(alloc: Global, op: Op, counter: usize, number: i64) -> Result<Expr, NoMemory>
    ensures { IfOk result
        (λ test. expression_of test ≡ Binary (operator_of op) (Scalar counter) (Number number)) }
{
    Expr::binary(alloc, op, Expr::Scalar(counter), Expr::Int(number))
}

/// Two edges.
fn both(alloc: Global, first: Edge, second: Edge) -> Result<List<Edge>, NoMemory>
    ensures { IfOk result (λ edges. map edge_of edges ≡ edge_of first ∷ edge_of second ∷ []) }
{
    let mut edges = List::of_one(alloc, first)?;
    edges.push(second)?;
    Ok(edges)
}

/// Two edges, of which the first is taken while the first counter is below 50.
fn edges_by_half(alloc: Global, target: usize) -> Result<List<Edge>, NoMemory>
    ensures { IfOk result (λ edges. map edge_of edges ≡ edges_by_half target) }
{
    let below = counter_test(alloc, Op::Lt, 0, 50)?;
    let first = timed_edge(alloc, target, Expr::Int(3), below);
    let reached = counter_test(alloc, Op::Ge, 0, 50)?;
    both(alloc, first, timed_edge(alloc, 0, Expr::Int(9), reached))
}

/// Two edges, of which the first is never taken, since the second counter is never above 99.
fn edges_by_bound(
    alloc: Global,
    place: usize,
    vertices: usize,
    target: usize,
) -> Result<List<Edge>, NoMemory>
    requires { place < vertices }
    ensures { IfOk result (λ edges. map edge_of edges ≡ edges_by_bound vertices place target) }
{
    let above = counter_test(alloc, Op::Gt, 1, 99)?;
    let first = timed_edge(alloc, target, Expr::Int(1), above);
    let within = counter_test(alloc, Op::Lt, 1, 100)?;
    let onward = (place + 1) % vertices;
    both(
        alloc,
        first,
        timed_edge(alloc, onward, Expr::Scalar(GAP), within),
    )
}

/// The edges of the vertex at a place of so many, in this form. Some lead to the vertex `target`.
pub(crate) fn edges_by_form(
    alloc: Global,
    place: usize,
    vertices: usize,
    form: usize,
    target: usize,
) -> Result<List<Edge>, NoMemory>
    requires { place < vertices }
    ensures { IfOk result
        (λ edges. map edge_of edges ≡ generated_edges vertices place form target) }
{
    if form == 0 {
        let edge = timed_edge(alloc, target, Expr::Scalar(GAP), Expr::Truth(true));
        List::of_one(alloc, edge)
    } else if form == 1 {
        List::of_one(alloc, edge_onward(alloc, place, vertices))
    } else if form == 2 {
        edges_by_half(alloc, target)
    } else {
        edges_by_bound(alloc, place, vertices, target)
    }
}
