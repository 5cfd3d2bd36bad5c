//! The end of a text, and where a text that wasn't read stops to be one.

ghost use Rattle.model_core.specs.Text.Format.{Many};
ghost use Rattle.model_core.specs.Text.Language.{vertex_format};
ghost use Rattle.text_laws.specs.LanguageReader.{language_reader};
ghost use Rattle.model_read.specs.ReadCalls.{Returned};
ghost use Rattle.one_pass.specs.Inner.ToEnd.{end_read, to_end, LeavesStuck};

use crate::not_read::NotRead;
use model_core::{RawVertex, Word};
use model_read::{Cursor, Stop, many};
use sig_base::List;
use std::alloc::Global;

/// Reads the word `end`, and nothing after it. Gives its place.
pub(crate) fn ending(cursor: &mut Cursor<'_>) -> Result<usize, Stop>
    ensures { Returned (λ at. at) result cursor.new (end_read cursor.old) }
{
    let at = cursor.word(Word::End)?;
    cursor.end()?;
    Ok(at)
}

/// Reads vertices as they are written, as many as come, and the end of the text. Gives the place of its word `end`.
fn vertices_to_end(alloc: Global, cursor: &mut Cursor<'_>) -> Result<usize, Stop>
    ensures { Returned (λ at. at) result cursor.new
        (to_end (language_reader (Many vertex_format) cursor.old)) }
{
    let _vertices: List<RawVertex> = many(alloc, cursor)?;
    ending(cursor)
}

/// Why no more vertices were read, where these tokens are left after the last one that was.
pub(crate) fn reason(alloc: Global, cursor: &mut Cursor<'_>) -> NotRead
    ensures { LeavesStuck result cursor.new
        (to_end (language_reader (Many vertex_format) cursor.old)) }
{
    match vertices_to_end(alloc, cursor) {
        Ok(_) => NotRead::Unsure,
        Err(stop) => NotRead::from(stop),
    }
}
