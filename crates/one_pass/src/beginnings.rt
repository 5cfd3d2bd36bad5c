//! The names and parameters of vertices, found before the vertices are read.

ghost use Rattle.std.specs.Prelude.{◌≡◌, ◌↔◌, map};
ghost use Rattle.std.specs.Bool.{IsTrue};
ghost use Rattle.model_core.specs.Code.WrittenViews.{written_name, written_vertex};
ghost use Rattle.model_read.specs.InText.{AreInText};
ghost use Rattle.one_pass.specs.Inner.ReadParts.{BeginAlike};

use model_core::{RawName, RawVertex, Word};
use model_lex::{Piece, PieceKind};
use model_read::{Cursor, Stop, read_vertex_beginning};
use sig_base::{List, NoMemory};
use sig_types::items;
use std::alloc::Global;

/// What follows each word `vertex`, up to the vertex's changes, before the first that no vertex begins with. The reader sees
/// whether that is what the text spells.
pub(crate) fn beginnings(
    alloc: Global,
    text: &[u8],
    tokens: &[Piece],
) -> Result<List<RawVertex>, NoMemory>
    requires { AreInText text.now tokens.now }
{
    let mut begun = List::new(alloc);
    for (place, token) in tokens.iter().enumerate() {
        if token.kind == PieceKind::Word(Word::Vertex) {
            let mut cursor = Cursor::new(text, &tokens[place..]);
            match read_vertex_beginning(alloc, &mut cursor) {
                Ok(vertex) => begun.push(vertex)?,
                Err(Stop::Unexpected) => return Ok(begun),
                Err(Stop::NoMemory) => return Err(NoMemory),
            }
        }
    }
    Ok(begun)
}

/// Whether two names have the same bytes, at the same place.
fn same_name(a: &RawName, b: &RawName) -> bool
    ensures { IsTrue result ↔ written_name a.now ≡ written_name b.now }
{
    a.at == b.at && a.name.as_slice() == b.name.as_slice()
}

/// Whether two lists have the same names, at the same places.
fn same_names(a: &[RawName], b: &[RawName]) -> bool
    ensures { IsTrue result ↔ map written_name a.now ≡ map written_name b.now }
{
    if a.len() != b.len() {
        return false;
    }
    for place in 0..a.len() {
        if !same_name(&a[place], &b[place]) {
            return false;
        }
    }
    true
}

/// Whether two vertices have the same name and parameters, at the same places.
pub(crate) fn begin_alike(v: &RawVertex, w: &RawVertex) -> bool
    ensures { IsTrue result ↔ BeginAlike (written_vertex v.now) (written_vertex w.now) }
{
    v.at == w.at && same_name(&v.name, &w.name) && same_names(items(&v.params), items(&w.params))
}
