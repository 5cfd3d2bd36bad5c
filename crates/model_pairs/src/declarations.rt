//! Whether two models declare the same, as far as a comparison of their runs needs it.

ghost use Rattle.std.specs.Prelude.{◌≡◌, not, map, IfOk};
ghost use Rattle.std.specs.Option.{option_map};
ghost use Rattle.model_core.specs.Run.State.{variable_at};
ghost use Rattle.model_core.specs.Text.Lexing.{same_bytes};
ghost use Rattle.model_core.specs.Code.Views.{graph_of, watched_of};
ghost use Rattle.model_pairs.specs.DeclaredApart.{first_beside, lists_differ, watched_differ, shapes_differ, names_differ, ranges_differ, same_kind, parameters_apart, declared_apart};
ghost use Rattle.model_pairs.specs.Inner.BothSeen.{both_watched};

use crate::declared_lines::{first_vertex_line, line_at, watch_line, watched_line};
use crate::line_pair::LinePair;
use model_core::{Kind, Model, Watch};
use sig_base::NoMemory;
use std::alloc::Global;

/// The kind of the variable at a place, and that of numbers where there is none.
fn kind_at(model: &Model, var: usize) -> Kind
    ensures { result ≡ (variable_at (graph_of model.now) var).kind }
{
    match model.vars.as_slice().get(var) {
        Some(found) => found.kind,
        None => Kind::Range,
    }
}

/// The size of the variable at a place, and that of a scalar where there is none.
fn size_at(model: &Model, var: usize) -> usize
    ensures { result ≡ (variable_at (graph_of model.now) var).size }
{
    match model.vars.as_slice().get(var) {
        Some(found) => found.size,
        None => 0,
    }
}

/// The least value of the variable at a place, and 0 where there is none.
fn lo_at(model: &Model, var: usize) -> i64
    ensures { result ≡ (variable_at (graph_of model.now) var).lo }
{
    match model.vars.as_slice().get(var) {
        Some(found) => found.lo,
        None => 0,
    }
}

/// The greatest value of the variable at a place, and 0 where there is none.
fn hi_at(model: &Model, var: usize) -> i64
    ensures { result ≡ (variable_at (graph_of model.now) var).hi }
{
    match model.vars.as_slice().get(var) {
        Some(found) => found.hi,
        None => 0,
    }
}

/// Whether two variables hold values of one kind.
fn same_kind(a: Kind, b: Kind) -> bool
    ensures { result ≡ same_kind a b }
{
    match a {
        Kind::Truth => match b {
            Kind::Truth => true,
            Kind::Range => false,
        },
        Kind::Range => match b {
            Kind::Truth => false,
            Kind::Range => true,
        },
    }
}

/// Whether two names differ.
fn bytes_differ(a: &[u8], b: &[u8]) -> bool
    ensures { result ≡ not (same_bytes a.now b.now) }
{
    a != b
}

/// Whether two watched things differ in their names, or as one is a variable and the other a vertex.
fn watched_differ(m: &Model, m2: &Model, a: Watch, b: Watch) -> bool
    ensures { result ≡ watched_differ (graph_of m.now) (graph_of m2.now) (watched_of a)
        (watched_of b) }
{
    match a {
        Watch::Variable { var: v } => match b {
            Watch::Variable { var: w } => bytes_differ(m.variable_name(v), m2.variable_name(w)),
            Watch::Event { vertex: _ } => true,
        },
        Watch::Event { vertex: v } => match b {
            Watch::Variable { var: _ } => true,
            Watch::Event { vertex: w } => bytes_differ(m.vertex_name(v), m2.vertex_name(w)),
        },
    }
}

/// Whether two watched variables differ in their kinds or sizes.
fn shapes_differ(m: &Model, m2: &Model, a: Watch, b: Watch) -> bool
    ensures { result ≡ shapes_differ (graph_of m.now) (graph_of m2.now) (watched_of a)
        (watched_of b) }
{
    match a {
        Watch::Variable { var: v } => match b {
            Watch::Variable { var: w } => {
                !(same_kind(kind_at(m, v), kind_at(m2, w)) && size_at(m, v) == size_at(m2, w))
            }
            Watch::Event { vertex: _ } => false,
        },
        Watch::Event { vertex: _ } => false,
    }
}

/// Whether two parameters differ in their names.
fn names_differ(m: &Model, m2: &Model, v: usize, w: usize) -> bool
    ensures { result ≡ names_differ (graph_of m.now) (graph_of m2.now) v w }
{
    bytes_differ(m.variable_name(v), m2.variable_name(w))
}

/// Whether two parameters differ in their kinds or ranges.
fn ranges_differ(m: &Model, m2: &Model, v: usize, w: usize) -> bool
    ensures { result ≡ ranges_differ (graph_of m.now) (graph_of m2.now) v w }
{
    !(same_kind(kind_at(m, v), kind_at(m2, w))
        && lo_at(m, v) == lo_at(m2, w)
        && hi_at(m, v) == hi_at(m2, w))
}

/// The first two watched things, at one place of two watch lists, of other names.
fn first_other_watched(m: &Model, m2: &Model) -> Option<(Watch, Watch)>
    ensures { option_map both_watched result
        ≡ first_beside (watched_differ (graph_of m.now) (graph_of m2.now))
        (map watched_of m.now.watch) (map watched_of m2.now.watch) }
{
    for (a, b) in m.watch.as_slice().iter().zip(m2.watch.as_slice()) {
        if watched_differ(m, m2, *a, *b) {
            return Some((*a, *b));
        }
    }
    None
}

/// The first two watched variables, at one place of two watch lists, of other kinds or sizes.
fn first_other_shape(m: &Model, m2: &Model) -> Option<(Watch, Watch)>
    ensures { option_map both_watched result
        ≡ first_beside (shapes_differ (graph_of m.now) (graph_of m2.now))
        (map watched_of m.now.watch) (map watched_of m2.now.watch) }
{
    for (a, b) in m.watch.as_slice().iter().zip(m2.watch.as_slice()) {
        if shapes_differ(m, m2, *a, *b) {
            return Some((*a, *b));
        }
    }
    None
}

/// The first two parameters, at one place of two lists, of other names.
fn first_other_name(
    m: &Model,
    m2: &Model,
    params: &[usize],
    params2: &[usize],
) -> Option<(usize, usize)>
    ensures { result
        ≡ first_beside (names_differ (graph_of m.now) (graph_of m2.now)) params.now params2.now }
{
    for (v, w) in params.iter().zip(params2) {
        if names_differ(m, m2, *v, *w) {
            return Some((*v, *w));
        }
    }
    None
}

/// The first two parameters, at one place of two lists, of other kinds or ranges.
fn first_other_range(
    m: &Model,
    m2: &Model,
    params: &[usize],
    params2: &[usize],
) -> Option<(usize, usize)>
    ensures { result
        ≡ first_beside (ranges_differ (graph_of m.now) (graph_of m2.now)) params.now params2.now }
{
    for (v, w) in params.iter().zip(params2) {
        if ranges_differ(m, m2, *v, *w) {
            return Some((*v, *w));
        }
    }
    None
}

/// The lines of the first parameters that differ, of the first vertices of two models.
fn parameters_apart(alloc: Global, m: &Model, m2: &Model) -> Result<Option<LinePair>, NoMemory>
    ensures { IfOk result
        (λ found. found ≡ parameters_apart (graph_of m.now) (graph_of m2.now)) }
{
    let params = m.parameters_at(0);
    let params2 = m2.parameters_at(0);
    if params.len() != params2.len() || first_other_name(m, m2, params, params2).is_some() {
        let first = first_vertex_line(alloc, m)?;
        let second = first_vertex_line(alloc, m2)?;
        return Ok(Some(LinePair { first, second }));
    }
    let Some((v, w)) = first_other_range(m, m2, params, params2) else {
        return Ok(None);
    };
    let first = line_at(alloc, m, v)?;
    let second = line_at(alloc, m2, w)?;
    Ok(Some(LinePair { first, second }))
}

/// The first lines that differ of what two models declare: their watch lists, the kinds and sizes of their watched variables,
/// and the parameters of their first vertices. There are none if the models declare the same.
pub fn declared_apart(alloc: Global, m: &Model, m2: &Model) -> Result<Option<LinePair>, NoMemory>
    ensures { IfOk result (λ found. found ≡ declared_apart (graph_of m.now) (graph_of m2.now)) }
{
    if m.watch.as_slice().len() != m2.watch.as_slice().len()
        || first_other_watched(m, m2).is_some()
    {
        let first = watch_line(alloc, m)?;
        let second = watch_line(alloc, m2)?;
        return Ok(Some(LinePair { first, second }));
    }
    let Some((a, b)) = first_other_shape(m, m2) else {
        return parameters_apart(alloc, m, m2);
    };
    let first = watched_line(alloc, m, a)?;
    let second = watched_line(alloc, m2, b)?;
    Ok(Some(LinePair { first, second }))
}
