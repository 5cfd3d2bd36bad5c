//! Phrases: the parts of a text that come in lists. Reading such lists is proved here, once for all of them.

ghost use Rattle.std.specs.Prelude.{◌≡◌, false, map};
ghost use Rattle.model_core.specs.declared.token.Symbol.TheVariants.{Comma};
ghost use Rattle.model_core.specs.Text.Format.{Many, mark, ◌*>◌, at_least_one, separated};
ghost use Rattle.model_core.specs.Text.Expressions.{LanguageFormat};
ghost use Rattle.text_laws.specs.FirstTokens.{nullable, first_sorts, begins_among};
ghost use Rattle.text_laws.specs.LanguageReader.{level_lookahead, language_reader};
ghost use Rattle.model_read.specs.ReadCalls.{Returned};
ghost use Rattle.text_laws.specs.FormatReader.{with_front};

use crate::cursor::Cursor;
use crate::stop::Stop;
use model_core::Symbol;
use sig_base::List;
use std::alloc::Global;

/// A part of a text that a list may have many of.
pub trait Phrase<'t>: Drop {
    // What is written.
    ghost Plain: { Type 0 };

    // What a phrase represents.
    ghost plain: { Self → Plain };

    // Which tokens spell it.
    ghost format: { LanguageFormat Plain };

    // It has a token at least.
    ghost some_tokens: { nullable format ≡ false };

    /// Reads a phrase.
    fn read(alloc: Global, cursor: &mut Cursor<'t>) -> Result<Self, Stop>
        ensures { Returned plain result cursor.new (language_reader format cursor.old) };
}

/// A phrase whose first token shows that it comes.
pub trait Repeated<'t>: Phrase<'t> {
    /// Whether a phrase comes.
    fn begins(cursor: &Cursor<'_>) -> bool
        ensures { result ≡ begins_among (first_sorts level_lookahead Self.format) cursor.now };
}

/// The list of the items, with no room for more.
pub fn packed<T>(items: List<T>) -> List<T>
    ensures { result ≡ items }
{
    let mut items = items.into_vec();
    items.shrink_to_fit();
    List::from_vec(items)
}

/// Reads phrases as long as one comes, after those that were read.
fn and_more<'t, T: Repeated<'t>>(
    alloc: Global,
    cursor: &mut Cursor<'t>,
    items: List<T>,
) -> Result<List<T>, Stop>
    ensures { Returned (map T.plain) result cursor.new
        (with_front (map T.plain items) (language_reader (Many T.format) cursor.old)) }
{
    let mut all = items;
    while T::begins(cursor) {
        all.push(T::read(alloc, cursor)?)?;
    }
    Ok(packed(all))
}

/// Reads any number of phrases.
pub fn many<'t, T: Repeated<'t>>(alloc: Global, cursor: &mut Cursor<'t>) -> Result<List<T>, Stop>
    ensures { Returned (map T.plain) result cursor.new
        (language_reader (Many T.format) cursor.old) }
{
    and_more(alloc, cursor, List::new(alloc))
}

/// Reads one or more phrases.
pub(crate) fn at_least_one<'t, T: Repeated<'t>>(
    alloc: Global,
    cursor: &mut Cursor<'t>,
) -> Result<List<T>, Stop>
    ensures { Returned (map T.plain) result cursor.new
        (language_reader (at_least_one T.format) cursor.old) }
{
    let first = List::of_one(alloc, T::read(alloc, cursor)?)?;
    and_more(alloc, cursor, first)
}

/// Reads a comma and the phrase after it.
fn next<'t, T: Phrase<'t>>(alloc: Global, cursor: &mut Cursor<'t>) -> Result<T, Stop>
    ensures { Returned T.plain result cursor.new
        (language_reader (mark Comma *> T.format) cursor.old) }
{
    cursor.symbol(Symbol::Comma)?;
    T::read(alloc, cursor)
}

/// Reads a comma and a phrase as long as a comma comes, after the phrases that were read.
fn and_others<'t, T: Phrase<'t>>(
    alloc: Global,
    cursor: &mut Cursor<'t>,
    items: List<T>,
) -> Result<List<T>, Stop>
    ensures { Returned (map T.plain) result cursor.new
        (with_front (map T.plain items)
        (language_reader (Many (mark Comma *> T.format)) cursor.old)) }
{
    let mut all = items;
    while cursor.begins_symbol(Symbol::Comma) {
        all.push(next(alloc, cursor)?)?;
    }
    Ok(packed(all))
}

/// Reads one or more phrases, separated by commas.
pub fn separated<'t, T: Phrase<'t>>(alloc: Global, cursor: &mut Cursor<'t>) -> Result<List<T>, Stop>
    ensures { Returned (map T.plain) result cursor.new
        (language_reader (separated T.format) cursor.old) }
{
    let first = List::of_one(alloc, T::read(alloc, cursor)?)?;
    and_others(alloc, cursor, first)
}
