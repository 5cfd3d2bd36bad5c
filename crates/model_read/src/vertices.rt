//! The vertices of a model.

ghost use Rattle.std.specs.Prelude.{map};
ghost use Rattle.std.specs.Option.{option_map};
ghost use Rattle.model_core.specs.declared.token.Symbol.TheVariants.{OpenParenthesis, CloseParenthesis};
ghost use Rattle.model_core.specs.Code.WrittenViews.{written_name, written_vertex};
ghost use Rattle.model_core.specs.Text.Written.{WrittenVertex};
ghost use Rattle.model_core.specs.Text.Format.{mark, any_name, ◌*>◌, ◌<*◌, maybe, separated};
ghost use Rattle.model_core.specs.Text.Language.{vertex_format};
ghost use Rattle.text_laws.specs.LanguageReader.{language_reader};
ghost use Rattle.model_read.specs.Beginnings.{with_body, vertex_beginning};
ghost use Rattle.model_read.specs.ReadCalls.{Returned};
ghost use Rattle.text_laws.specs.SomeTokens.{vertex-some};

use crate::cursor::Cursor;
use crate::phrase::{Phrase, Repeated, many, separated};
use crate::stop::Stop;
use model_core::{RawName, RawVertex, Symbol, Word};
use sig_base::{HeldValue, List};
use std::alloc::Global;

/// Reads the parameters of a vertex, where they are written.
fn parameters(alloc: Global, cursor: &mut Cursor<'_>) -> Result<Option<List<RawName>>, Stop>
    ensures { Returned (option_map (map written_name)) result cursor.new
        (language_reader
        (maybe (mark OpenParenthesis *> separated any_name <* mark CloseParenthesis)) cursor.old) }
{
    let Some(_) = cursor.symbol_if_next(Symbol::OpenParenthesis) else {
        return Ok(None);
    };
    let names = separated(alloc, cursor)?;
    cursor.symbol(Symbol::CloseParenthesis)?;
    Ok(Some(names))
}

/// Reads what comes before the changes of a vertex. The vertex that it gives has neither changes nor edges.
#[tactic(auto, unfolding(crate::specs::Beginnings::vertex_beginning))]
pub fn read_vertex_beginning(alloc: Global, cursor: &mut Cursor<'_>) -> Result<RawVertex, Stop>
    ensures { Returned (λ v. with_body (written_vertex v)) result cursor.new
        (language_reader vertex_beginning cursor.old) }
{
    let at = cursor.word(Word::Vertex)?;
    let name = cursor.name(alloc)?;
    let params = parameters(alloc, cursor)?;
    cursor.symbol(Symbol::OpenBrace)?;
    Ok(RawVertex {
        at,
        name,
        params,
        changes: List::new(alloc),
        edges: List::new(alloc),
    })
}

impl<'t> Phrase<'t> for RawVertex {
    ghost Plain = { WrittenVertex };

    ghost plain = { written_vertex };

    ghost format = { vertex_format };

    #[tactic(auto, unfolding(model_core::specs::Text::Language::vertex_format, crate::specs::Beginnings::vertex_beginning))]
    fn read(alloc: Global, cursor: &mut Cursor<'t>) -> Result<RawVertex, Stop> {
        let begun = HeldValue::of(read_vertex_beginning(alloc, cursor)?);
        let changes = many(alloc, cursor)?;
        let edges = many(alloc, cursor)?;
        cursor.symbol(Symbol::CloseBrace)?;
        Ok(RawVertex {
            changes,
            edges,
            ..begun.free()
        })
    }

    ghost some_tokens = { vertex-some };
}

impl<'t> Repeated<'t> for RawVertex {
    #[tactic(auto, unfolding(model_core::specs::Text::Language::vertex_format))]
    fn begins(cursor: &Cursor<'_>) -> bool {
        cursor.begins_word(Word::Vertex)
    }
}
