//! Reads and checks a whole model text.

ghost use Rattle.std.specs.Prelude.{◌≡◌, map, Option, None, IfOk, IfErr};
ghost use Rattle.sig_base.specs.declared.limits.TheConstants.{OPENINGS_MAX};
ghost use Rattle.model_core.specs.Code.Views.{vertex_of, graph_of};
ghost use Rattle.model_core.specs.Code.WrittenViews.{written_vertex, written_model};
ghost use Rattle.model_core.specs.Text.Format.{at_least_one};
ghost use Rattle.model_core.specs.Text.Language.{vertex_format};
ghost use Rattle.model_core.specs.Text.Openings.{too_deep_at};
ghost use Rattle.model_core.specs.Static.FaultOrder.{StaticFault, earliest_fault};
ghost use Rattle.model_core.specs.Static.Meanings.{meaning_of};
ghost use Rattle.model_core.specs.Static.PartFaults.{kinds_taken};
ghost use Rattle.model_core.specs.Static.ModelFaults.{model_meaning};
ghost use Rattle.text_laws.specs.FormatReader.{took};
ghost use Rattle.text_laws.specs.LanguageReader.{language_reader, text_read};
ghost use Rattle.model_lex.specs.PiecesOfText.{pieces_lexemes};
ghost use Rattle.model_read.specs.Beginnings.{with_vertices, model_beginning};
ghost use Rattle.static_laws.specs.DeclaredFaults.{faults_of_declared};
ghost use Rattle.one_pass.specs.ReadModel.{AreAccepted, AreRefused};
ghost use Rattle.one_pass.specs.Inner.AllFaults.{declared_version_faults};
ghost use Rattle.one_pass.specs.Inner.ReadParts.{ReadVertices, ReadVerticesAfter, ReadText};
ghost use Rattle.one_pass.specs.Inner.ToEnd.{to_end, LeavesStuck};

use crate::beginnings::beginnings;
use crate::endings::ending;
use crate::not_read::NotRead;
use crate::one_pass_error::OnePassError;
use crate::vertices::vertices;
use model_core::{Model, RawModel, RawVertex, Vertex};
use model_lex::{Pieces, pieces_are_in_text};
use model_read::{Cursor, first_too_deep, read_model_beginning};
use sig_base::{List, OPENINGS_MAX};
use sig_types::{
    FirstFault, Names, check_lists, declared, is_version_two, items, parameter_kinds,
    report_long_text, report_version,
};
use std::alloc::Global;

/// Reads the vertices, which must begin as expected.
fn expected_vertices(
    alloc: Global,
    cursor: &mut Cursor<'_>,
    names: &Names,
    is_two: bool,
    expected: &[RawVertex],
    fault: &mut FirstFault,
) -> Result<List<Vertex>, NotRead>
    ensures ok { IfOk result
        (λ vs. ReadVertices is_two (meaning_of names.now)
        (map (kinds_taken (meaning_of names.now)) (map written_vertex expected.now))
        (map written_vertex expected.now) fault.old fault.new cursor.old cursor.new
        (map vertex_of vs)) }
    ensures unexpected { IfErr result
        (λ e. LeavesStuck e cursor.new
        (to_end (language_reader (at_least_one vertex_format) cursor.old))) }
{
    let taken = parameter_kinds(alloc, names, expected)?;
    vertices(
        alloc,
        cursor,
        names,
        taken.as_slice(),
        is_two,
        expected,
        fault,
    )
}

/// Reads the vertices of a model among these names.
fn among_names(
    alloc: Global,
    cursor: &mut Cursor<'_>,
    names: &Names,
    begun: RawModel,
    fault: &mut FirstFault,
) -> Result<Model, NotRead>
    ensures ok { IfOk result (λ model. meaning_of names.now ≡ model_meaning (written_model begun)
        → (start : Option StaticFault)
        → fault.old ≡ earliest_fault start (faults_of_declared (written_model begun))
        → ReadVerticesAfter (written_model begun) start fault.new cursor.old cursor.new
        (graph_of model)) }
    ensures unexpected { IfErr result
        (λ e. LeavesStuck e cursor.new
        (to_end (language_reader (at_least_one vertex_format) cursor.old))) }
{
    let is_two = is_version_two(&begun.version);
    let lists = check_lists(
        alloc,
        names,
        begun.vars,
        begun.tables,
        items(&begun.watch),
        fault,
    )?;
    let vertices = expected_vertices(
        alloc,
        cursor,
        names,
        is_two,
        begun.vertices.as_slice(),
        fault,
    )?;
    Ok(Model {
        name: begun.name.name,
        vars: lists.vars,
        tables: lists.tables,
        watch: lists.watch,
        vertices,
    })
}

/// Reads the vertices of a model whose declarations are read, as are the beginnings of its vertices.
fn after_declarations(
    alloc: Global,
    cursor: &mut Cursor<'_>,
    begun: RawModel,
    fault: &mut FirstFault,
) -> Result<Model, NotRead>
    ensures ok { IfOk result
        (λ model. ReadVerticesAfter (written_model begun) fault.old fault.new cursor.old cursor.new
        (graph_of model)) }
    ensures unexpected { IfErr result
        (λ e. LeavesStuck e cursor.new
        (to_end (language_reader (at_least_one vertex_format) cursor.old))) }
{
    let names = declared(alloc, &begun, fault)?;
    among_names(alloc, cursor, &names, begun, fault)
}

/// Reads the declarations of a model whose vertices begin so, and reports what its version doesn't allow there.
fn declarations(
    alloc: Global,
    cursor: &mut Cursor<'_>,
    expected: List<RawVertex>,
    fault: &mut FirstFault,
) -> Result<RawModel, NotRead>
    ensures reads { IfOk result
        (λ m. language_reader model_beginning cursor.old
        ≡ took (with_vertices (written_model m)) cursor.new) }
    ensures version { IfOk result
        (λ m. fault.new ≡ earliest_fault fault.old (declared_version_faults (written_model m))) }
    ensures unexpected { IfErr result
        (λ e. LeavesStuck e cursor.new (language_reader model_beginning cursor.old)) }
{
    let begun = read_model_beginning(alloc, cursor)?;
    report_version(&begun, fault);
    Ok(RawModel {
        vertices: expected,
        ..begun
    })
}

/// Reads a model text whose vertices begin so, and nothing after it.
fn text(
    alloc: Global,
    cursor: &mut Cursor<'_>,
    expected: List<RawVertex>,
    fault: &mut FirstFault,
) -> Result<Model, NotRead>
    requires { fault.old ≡ None }
    ensures ok { IfOk result
        (λ model. ReadText cursor.old cursor.new fault.new (graph_of model)) }
    ensures unexpected { IfErr result (λ e. LeavesStuck e cursor.new (text_read cursor.old)) }
{
    let begun = declarations(alloc, cursor, expected, fault)?;
    let model = after_declarations(alloc, cursor, begun, fault)?;
    let end_at = ending(cursor)?;
    report_long_text(&model, end_at, fault);
    Ok(model)
}

/// Reads all of the pieces, which are those that the cursor has.
fn whole(
    alloc: Global,
    pieces: &Pieces<'_>,
    cursor: &mut Cursor<'_>,
    fault: &mut FirstFault,
) -> Result<Model, NotRead>
    requires { fault.old ≡ None }
    ensures ok { IfOk result
        (λ model. ReadText cursor.old cursor.new fault.new (graph_of model)) }
    ensures unexpected { IfErr result (λ e. LeavesStuck e cursor.new (text_read cursor.old)) }
{
    pieces_are_in_text();
    let expected = beginnings(alloc, pieces.text, pieces.list.as_slice())?;
    text(alloc, cursor, expected, fault)
}

/// The model that pieces spell of which no part has too many openings, or what is wrong with them.
fn with_few_openings(alloc: Global, pieces: &Pieces<'_>) -> Result<Model, OnePassError>
    requires { too_deep_at OPENINGS_MAX (pieces_lexemes pieces.now) ≡ None }
    ensures ok { IfOk result (λ model. AreAccepted (pieces_lexemes pieces.now) (graph_of model)) }
    ensures refused { IfErr result
        (λ e. AreRefused pieces.now.text.now (pieces_lexemes pieces.now) e) }
{
    let mut cursor = Cursor::from_place(pieces, 0);
    let mut fault = FirstFault::new();
    match whole(alloc, pieces, &mut cursor, &mut fault) {
        Ok(model) => match fault.first_fault() {
            None => Ok(model),
            Some(found) => Err(OnePassError::Fault {
                kind: found.kind,
                at: found.at,
            }),
        },
        Err(NotRead::Unexpected) => Err(OnePassError::Unexpected {
            at: cursor.place(pieces.text.len()),
        }),
        Err(NotRead::Unsure) => Err(OnePassError::Unsure),
        Err(NotRead::NoMemory) => Err(OnePassError::NoMemory),
    }
}

/// The model that all of the pieces spell, where it keeps every static rule, and else what is wrong with them. `Unsure` says
/// nothing of the pieces: `model_read` with `sig_types` says what is wrong with them.
pub fn read_model(alloc: Global, pieces: &Pieces<'_>) -> Result<Model, OnePassError>
    ensures ok { IfOk result (λ model. AreAccepted (pieces_lexemes pieces.now) (graph_of model)) }
    ensures refused { IfErr result
        (λ e. AreRefused pieces.now.text.now (pieces_lexemes pieces.now) e) }
{
    match first_too_deep(pieces.list.as_slice(), OPENINGS_MAX) {
        Some(at) => Err(OnePassError::TooDeep { at }),
        None => with_few_openings(alloc, pieces),
    }
}
