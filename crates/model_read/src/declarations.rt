//! The declarations, before the vertices: variables, tables and the watch list.

ghost use Rattle.std.specs.Prelude.{refl, map};
ghost use Rattle.std.specs.Option.{option_map};
ghost use Rattle.model_core.specs.declared.token.Symbol.TheVariants.{OpenBracket, CloseBracket};
ghost use Rattle.model_core.specs.Code.WrittenViews.{written_name, written_number, written_variable, written_row, written_table};
ghost use Rattle.model_core.specs.Text.Written.{WrittenName, WrittenVariable, WrittenRow, WrittenTable};
ghost use Rattle.model_core.specs.Text.Format.{mark, any_name, any_number, ◌*>◌, ◌<*◌, maybe};
ghost use Rattle.model_core.specs.Text.Language.{variable_format, row_format, table_format, watch_format};
ghost use Rattle.text_laws.specs.LanguageReader.{language_reader};
ghost use Rattle.model_read.specs.ReadCalls.{Returned};
ghost use Rattle.text_laws.specs.SomeTokens.{variable-some, row-some, table-some};

use crate::cursor::Cursor;
use crate::phrase::{Phrase, Repeated, at_least_one, separated};
use crate::signed::{kind, literal, signed};
use crate::stop::Stop;
use model_core::{RawName, RawNumber, RawRow, RawTable, RawVar, Symbol, Word};
use sig_base::List;
use std::alloc::Global;

/// Reads the number of cells of an array, where one is written.
fn size(cursor: &mut Cursor<'_>) -> Result<Option<RawNumber>, Stop>
    ensures { Returned (option_map written_number) result cursor.new
        (language_reader (maybe (mark OpenBracket *> any_number <* mark CloseBracket)) cursor.old) }
{
    let Some(_) = cursor.symbol_if_next(Symbol::OpenBracket) else {
        return Ok(None);
    };
    let size = cursor.number()?;
    cursor.symbol(Symbol::CloseBracket)?;
    Ok(Some(size))
}

/// Reads the watch list, where one is written.
#[tactic(auto, unfolding(model_core::specs::Text::Language::watch_format))]
pub(crate) fn watch(alloc: Global, cursor: &mut Cursor<'_>) -> Result<Option<List<RawName>>, Stop>
    ensures { Returned (option_map (map written_name)) result cursor.new
        (language_reader (maybe watch_format) cursor.old) }
{
    let Some(_) = cursor.word_if_next(Word::Watch) else {
        return Ok(None);
    };
    let names = separated(alloc, cursor)?;
    cursor.symbol(Symbol::Semicolon)?;
    Ok(Some(names))
}

impl<'t> Phrase<'t> for RawName {
    ghost Plain = { WrittenName };

    ghost plain = { written_name };

    ghost format = { any_name };

    fn read(alloc: Global, cursor: &mut Cursor<'t>) -> Result<RawName, Stop> {
        cursor.name(alloc)
    }

    ghost some_tokens = { refl };
}

impl<'t> Phrase<'t> for RawVar {
    ghost Plain = { WrittenVariable };

    ghost plain = { written_variable };

    ghost format = { variable_format };

    #[tactic(auto, unfolding(model_core::specs::Text::Language::variable_format))]
    fn read(alloc: Global, cursor: &mut Cursor<'t>) -> Result<RawVar, Stop> {
        let at = cursor.word(Word::Var)?;
        let name = cursor.name(alloc)?;
        let size = size(cursor)?;
        cursor.symbol(Symbol::Colon)?;
        let kind = kind(cursor)?;
        cursor.symbol(Symbol::Equal)?;
        let initial = literal(cursor)?;
        cursor.symbol(Symbol::Semicolon)?;
        Ok(RawVar {
            at,
            name,
            size,
            kind,
            initial,
        })
    }

    ghost some_tokens = { variable-some };
}

impl<'t> Repeated<'t> for RawVar {
    #[tactic(auto, unfolding(model_core::specs::Text::Language::variable_format))]
    fn begins(cursor: &Cursor<'_>) -> bool {
        cursor.begins_word(Word::Var)
    }
}

impl<'t> Phrase<'t> for RawRow {
    ghost Plain = { WrittenRow };

    ghost plain = { written_row };

    ghost format = { row_format };

    #[tactic(auto, unfolding(model_core::specs::Text::Language::row_format))]
    fn read(_alloc: Global, cursor: &mut Cursor<'t>) -> Result<RawRow, Stop> {
        let value = signed(cursor)?;
        cursor.symbol(Symbol::Colon)?;
        let weight = cursor.number()?;
        cursor.symbol(Symbol::Semicolon)?;
        Ok(RawRow {
            at: value.at,
            value,
            weight,
        })
    }

    ghost some_tokens = { row-some };
}

impl<'t> Repeated<'t> for RawRow {
    #[tactic(auto, unfolding(model_core::specs::Text::Language::row_format, model_core::specs::Text::Language::signed_format))]
    fn begins(cursor: &Cursor<'_>) -> bool {
        cursor.begins_symbol(Symbol::Minus) || cursor.begins_number()
    }
}

impl<'t> Phrase<'t> for RawTable {
    ghost Plain = { WrittenTable };

    ghost plain = { written_table };

    ghost format = { table_format };

    #[tactic(auto, unfolding(model_core::specs::Text::Language::table_format))]
    fn read(alloc: Global, cursor: &mut Cursor<'t>) -> Result<RawTable, Stop> {
        let at = cursor.word(Word::Table)?;
        let name = cursor.name(alloc)?;
        cursor.symbol(Symbol::OpenBrace)?;
        let rows = at_least_one(alloc, cursor)?;
        cursor.symbol(Symbol::CloseBrace)?;
        Ok(RawTable { at, name, rows })
    }

    ghost some_tokens = { table-some };
}

impl<'t> Repeated<'t> for RawTable {
    #[tactic(auto, unfolding(model_core::specs::Text::Language::table_format))]
    fn begins(cursor: &Cursor<'_>) -> bool {
        cursor.begins_word(Word::Table)
    }
}
