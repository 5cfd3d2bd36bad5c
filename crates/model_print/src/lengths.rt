//! Lengths of canonical texts, in one walk and without memory.

ghost use Rattle.std.specs.Prelude.{◌≡◌, ◌++◌, ◌-◌, ◌<◌, ◌^◌, false, length, map, min};
ghost use Rattle.std.specs.List.{flat_map};
ghost use Rattle.model_core.specs.Text.Canonical.{canonical, expression_text, change_line, edge_line, vertex_lines};
ghost use Rattle.model_core.specs.Rules.Fuse.{fused};
ghost use Rattle.model_core.specs.Rules.Merge.{is_watched_vertex, set_parameters};
ghost use Rattle.model_core.specs.Rules.Prune.{pruned};
ghost use Rattle.model_core.specs.Code.Views.{graph_of, expression_of, change_of, edge_of, vertex_of};

use crate::expressions::put_expression;
use crate::fused_model::put_model_fused;
use crate::model::put_model;
use crate::model_without_edge::put_model_without;
use crate::pen::Count;
use crate::vertices::{put_body, put_change, put_edge, put_set, put_vertex};
use model_core::{Change, Edge, Expr, Model, Vertex};

/// How many bytes the canonical text of a model has, or 2^64 - 1 where it has more.
pub fn printed_length(model: &Model) -> u64
    ensures { result ≡ min (length (canonical (graph_of model.now))) (2 ^ 64 - 1) }
{
    let mut count = Count { bytes: 0 };
    put_model(&mut count, model);
    count.total()
}

/// How many bytes the canonical text of an expression of the model has, or 2^64 - 1 where it has more.
pub fn expr_length(expr: &Expr, model: &Model) -> u64
    ensures { result
        ≡ min (length (expression_text (graph_of model.now) (expression_of expr.now)))
        (2 ^ 64 - 1) }
{
    let mut count = Count { bytes: 0 };
    put_expression(&mut count, model, expr);
    count.total()
}

/// How many bytes the line of a change of the model has, with its blanks and its line end, or 2^64 - 1 where it has more.
pub fn change_length(change: &Change, model: &Model) -> u64
    ensures { result
        ≡ min (length (change_line (graph_of model.now) (change_of change.now))) (2 ^ 64 - 1) }
{
    let mut count = Count { bytes: 0 };
    put_change(&mut count, model, change);
    count.total()
}

/// How many bytes the line of an edge of the model has, with its blanks and its line end, or 2^64 - 1 where it has more.
pub fn edge_length(edge: &Edge, model: &Model) -> u64
    ensures { result
        ≡ min (length (edge_line (graph_of model.now) (edge_of edge.now))) (2 ^ 64 - 1) }
{
    let mut count = Count { bytes: 0 };
    put_edge(&mut count, model, edge);
    count.total()
}

/// How many bytes the lines of a vertex of the model have, or 2^64 - 1 where they have more.
pub fn vertex_length(vertex: &Vertex, model: &Model) -> u64
    ensures { result
        ≡ min (length (vertex_lines (graph_of model.now) (vertex_of vertex.now))) (2 ^ 64 - 1) }
{
    let mut count = Count { bytes: 0 };
    put_vertex(&mut count, model, vertex);
    count.total()
}

/// How many bytes the canonical text of a model has without the edge at this place of the vertex at this place, or
/// 2^64 - 1 where it has more.
pub fn length_without_edge(model: &Model, vertex: usize, edge: usize) -> u64
    ensures { result
        ≡ min (length (canonical (pruned (graph_of model.now) vertex edge))) (2 ^ 64 - 1) }
{
    let mut count = Count { bytes: 0 };
    put_model_without(&mut count, model, vertex, edge);
    count.total()
}

/// How many bytes the line has by which parameters of the model take these values, with its blanks and its line end: none
/// where there are no parameters. 2^64 - 1 where it has more.
pub fn set_length(params: &[usize], values: &[Expr], model: &Model) -> u64
    ensures { result
        ≡ min (length
        (flat_map (change_line (graph_of model.now))
        (set_parameters params.now (map expression_of values.now)))) (2 ^ 64 - 1) }
{
    let mut count = Count { bytes: 0 };
    put_set(&mut count, model, params, values);
    count.total()
}

/// How many bytes the lines of the changes and edges of a vertex of the model have, or 2^64 - 1 where they have more.
pub fn body_length(vertex: &Vertex, model: &Model) -> u64
    ensures { result
        ≡ min (length
        (flat_map (change_line (graph_of model.now)) (map change_of vertex.now.changes)
        ++ flat_map (edge_line (graph_of model.now)) (map edge_of vertex.now.edges))) (2 ^ 64 - 1) }
{
    let mut count = Count { bytes: 0 };
    put_body(&mut count, model, vertex);
    count.total()
}

/// How many bytes the canonical text has where the vertex at `keep` takes the place of the one at `gone` after it,
/// or 2^64 - 1 where it has more.
pub fn fused_length(model: &Model, keep: usize, gone: usize) -> u64
    requires first { keep < gone }
    requires unwatched { is_watched_vertex (graph_of model.now) gone ≡ false }
    ensures { result
        ≡ min (length (canonical (fused (graph_of model.now) keep gone))) (2 ^ 64 - 1) }
{
    let mut count = Count { bytes: 0 };
    put_model_fused(&mut count, model, keep, gone);
    count.total()
}
