//! The vertices of a model.

ghost use Rattle.std.specs.Prelude.{◌≡◌, cond, [], map, IfOk, IfErr, OnOk};
ghost use Rattle.sig_base.specs.declared.limits.TheConstants.{PARAMETERS_MAX_VERSION_1};
ghost use Rattle.model_core.specs.Code.Views.{change_of, edge_of, vertex_of};
ghost use Rattle.model_core.specs.Code.WrittenViews.{written_name, written_vertex};
ghost use Rattle.model_core.specs.Text.Format.{at_least_one};
ghost use Rattle.model_core.specs.Text.Language.{vertex_format};
ghost use Rattle.model_core.specs.Text.Written.{WrittenName};
ghost use Rattle.model_core.specs.Text.Numbering.{each_numbered, numbered_parameter};
ghost use Rattle.model_core.specs.Static.FaultOrder.{earliest_fault};
ghost use Rattle.model_core.specs.Static.Meanings.{meaning_of};
ghost use Rattle.model_core.specs.Static.RuleTable.{too_many};
ghost use Rattle.model_core.specs.Static.PartFaults.{written_items};
ghost use Rattle.text_laws.specs.LanguageReader.{language_reader};
ghost use Rattle.static_laws.specs.Checked.{CheckedPart};
ghost use Rattle.one_pass.specs.Inner.AllFaults.{all_beginning_faults};
ghost use Rattle.one_pass.specs.Inner.ReadParts.{BeginAlike, ReadBody, ReadVertex, ReadVertices};
ghost use Rattle.one_pass.specs.Inner.ToEnd.{to_end, LeavesStuck};

use crate::beginnings::begin_alike;
use crate::endings::reason;
use crate::not_read::NotRead;
use crate::parts::take_all;
use model_core::{Change, Edge, Kind, RawName, RawVertex, Symbol, Vertex};
use model_read::{Cursor, Repeated, read_vertex_beginning};
use sig_base::{CHANGES_MAX, EDGES_MAX, List, Name, PARAMETERS_MAX_VERSION_1};
use sig_types::{FirstFault, Names, items, parameters, report_long_name, report_too_many};
use std::alloc::Global;

/// Reports what the parameters of a vertex break in a text that isn't of version 2.
fn report_later_parameters(is_two: bool, params: &[RawName], fault: &mut FirstFault)
    ensures { fault.new ≡ earliest_fault fault.old
        (cond is_two [] (too_many PARAMETERS_MAX_VERSION_1
        (map (λ (n : WrittenName). n.at) (map written_name params.now)))) }
{
    if !is_two {
        report_too_many(PARAMETERS_MAX_VERSION_1, params, fault);
    }
}

/// The parameters of a vertex that begins as expected.
fn expected_parameters(
    alloc: Global,
    names: &Names,
    is_two: bool,
    begun: &RawVertex,
    expected: &RawVertex,
    fault: &mut FirstFault,
) -> Result<List<usize>, NotRead>
    ensures alike { OnOk result
        (BeginAlike (written_vertex begun.now) (written_vertex expected.now)) }
    ensures checked { IfOk result
        (λ ps. CheckedPart (meaning_of names.now) fault.old fault.new
        (all_beginning_faults is_two (meaning_of names.now) (written_vertex begun.now))
        (λ d. each_numbered (numbered_parameter d)
        (written_items (written_vertex begun.now).parameters)) ps) }
{
    if !begin_alike(begun, expected) {
        return Err(NotRead::Unsure);
    }
    report_long_name(&begun.name, fault);
    let params = parameters(alloc, names, items(&begun.params), fault)?;
    report_later_parameters(is_two, items(&begun.params), fault);
    Ok(params)
}

/// The changes and edges of a vertex.
#[derive(Drop)]
struct VertexBody {
    changes: List<Change>,
    edges: List<Edge>,
}

/// Reads the changes and edges of a vertex, and what ends it.
fn body(
    alloc: Global,
    cursor: &mut Cursor<'_>,
    names: &Names,
    taken: &[List<Option<Kind>>],
    is_two: bool,
    fault: &mut FirstFault,
) -> Result<VertexBody, NotRead>
    ensures { IfOk result
        (λ b. ReadBody is_two (meaning_of names.now) taken.now fault.old fault.new cursor.old
        cursor.new (map change_of b.changes) (map edge_of b.edges)) }
{
    let changes = take_all(alloc, cursor, names, taken, is_two, fault)?;
    let edges = take_all(alloc, cursor, names, taken, is_two, fault)?;
    cursor.symbol(Symbol::CloseBrace)?;
    if changes.len() > CHANGES_MAX || edges.len() > EDGES_MAX {
        return Err(NotRead::Unsure);
    }
    Ok(VertexBody { changes, edges })
}

/// The name of a vertex, of which the rest is let go.
fn name_of(vertex: RawVertex) -> Name
    ensures { result ≡ vertex.name.name }
{
    vertex.name.name
}

/// Reads a vertex, which must begin as expected.
fn vertex(
    alloc: Global,
    cursor: &mut Cursor<'_>,
    names: &Names,
    taken: &[List<Option<Kind>>],
    is_two: bool,
    expected: &RawVertex,
    fault: &mut FirstFault,
) -> Result<Vertex, NotRead>
    ensures { IfOk result
        (λ v. ReadVertex is_two (meaning_of names.now) taken.now
        (written_vertex expected.now) fault.old fault.new cursor.old cursor.new (vertex_of v)) }
{
    let begun = read_vertex_beginning(alloc, cursor)?;
    let params = expected_parameters(alloc, names, is_two, &begun, expected, fault)?;
    let name = name_of(begun);
    let body = body(alloc, cursor, names, taken, is_two, fault)?;
    Ok(Vertex {
        name,
        params,
        changes: body.changes,
        edges: body.edges,
    })
}

/// Reads vertices, one or more, which must begin as expected. A vertex that isn't read is left, and what comes from there on is
/// read as it is written: where that is stuck, so is the text.
pub(crate) fn vertices(
    alloc: Global,
    cursor: &mut Cursor<'_>,
    names: &Names,
    taken: &[List<Option<Kind>>],
    is_two: bool,
    expected: &[RawVertex],
    fault: &mut FirstFault,
) -> Result<List<Vertex>, NotRead>
    ensures ok { IfOk result
        (λ vs. ReadVertices is_two (meaning_of names.now) taken.now
        (map written_vertex expected.now) fault.old fault.new cursor.old cursor.new
        (map vertex_of vs)) }
    ensures unexpected { IfErr result
        (λ e. LeavesStuck e cursor.new
        (to_end (language_reader (at_least_one vertex_format) cursor.old))) }
{
    if !RawVertex::begins(cursor) {
        return Err(NotRead::Unsure);
    }
    let mut vertices = Vec::with_capacity(alloc, expected.len())?;
    for begun in expected {
        if !RawVertex::begins(cursor) {
            return Err(reason(alloc, cursor));
        }
        let from = cursor.again();
        match vertex(alloc, cursor, names, taken, is_two, begun, fault) {
            Ok(read) => vertices.push(read)?,
            Err(NotRead::NoMemory) => return Err(NotRead::NoMemory),
            Err(NotRead::Unexpected | NotRead::Unsure) => {
                *cursor = from;
                return Err(reason(alloc, cursor));
            }
        }
    }
    if RawVertex::begins(cursor) {
        return Err(reason(alloc, cursor));
    }
    Ok(List::from_vec(vertices))
}
