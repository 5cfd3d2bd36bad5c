//! Whether tokens are a snapshot, and where they stop to begin one. The tokens are passed over, and nothing is kept of
//! them.

ghost use Rattle.std.specs.Prelude.{◌≡◌, ℕ, drop, None, Some};
ghost use Rattle.model_core.specs.declared.token.Symbol.TheVariants as symbols;
ghost use Rattle.model_core.specs.Text.Format.{Many, mark, reserved, this_name, any_name, any_number, ◌*>◌, maybe, separated};
ghost use Rattle.model_core.specs.Text.Language.{signed_format};
ghost use Rattle.model_core.specs.Text.SnapshotGrammar.{WrittenSnapshot, stream_format, value_format, noted_format, exact_format, carried_format, carries_format, pending_format, snapshot_format, IsSnapshot, IsNoSnapshotAt};
ghost use Rattle.model_lex.specs.PiecesOfText.{pieces_lexemes};
ghost use Rattle.snapshot_text.specs.Inner.Skimming.{skims, skims_whole, Passed};

use crate::parts::{RawCarried, RawPending, RawStream, RawValue};
use model_core::{RawSigned, Symbol, Word};
use model_lex::Pieces;
use model_read::{Cursor, Phrase, Repeated, Stop};

/// A phrase that can be passed over.
trait Skimmed<'t>: Phrase<'t> {
    /// Passes over the phrase.
    fn skim(cursor: &mut Cursor<'t>) -> Result<(), Stop>
        ensures { Passed result cursor.new (skims Self.format cursor.old) };
}

/// Passes over any number of phrases.
fn skim_many<'t, T: Skimmed<'t> + Repeated<'t>>(cursor: &mut Cursor<'t>) -> Result<(), Stop>
    ensures { Passed result cursor.new (skims (Many T.format) cursor.old) }
{
    while T::begins(cursor) {
        T::skim(cursor)?;
    }
    Ok(())
}

/// Passes over a comma and the phrase after it.
fn skim_next<'t, T: Skimmed<'t>>(cursor: &mut Cursor<'t>) -> Result<(), Stop>
    ensures { Passed result cursor.new (skims (mark symbols.Comma *> T.format) cursor.old) }
{
    skim_symbol(cursor, Symbol::Comma)?;
    T::skim(cursor)
}

/// Passes over a comma and a phrase as long as a comma comes.
fn skim_others<'t, T: Skimmed<'t>>(cursor: &mut Cursor<'t>) -> Result<(), Stop>
    ensures { Passed result cursor.new (skims (Many (mark symbols.Comma *> T.format)) cursor.old) }
{
    while cursor.begins_symbol(Symbol::Comma) {
        skim_next::<T>(cursor)?;
    }
    Ok(())
}

/// Passes over one or more phrases, separated by commas.
fn skim_separated<'t, T: Skimmed<'t>>(cursor: &mut Cursor<'t>) -> Result<(), Stop>
    ensures { Passed result cursor.new (skims (separated T.format) cursor.old) }
{
    T::skim(cursor)?;
    skim_others::<T>(cursor)
}

/// Passes over the name with this spelling.
fn skim_name_so(cursor: &mut Cursor<'_>, spelling: &[u8]) -> Result<(), Stop>
    ensures { Passed result cursor.new (skims (this_name spelling.now) cursor.old) }
{
    cursor.this_name(spelling)?;
    Ok(())
}

/// Passes over a name.
fn skim_name(cursor: &mut Cursor<'_>) -> Result<(), Stop>
    ensures { Passed result cursor.new (skims any_name cursor.old) }
{
    cursor.spelling()?;
    Ok(())
}

/// Passes over a number.
fn skim_number(cursor: &mut Cursor<'_>) -> Result<(), Stop>
    ensures { Passed result cursor.new (skims any_number cursor.old) }
{
    cursor.number()?;
    Ok(())
}

/// Passes over the symbol.
fn skim_symbol(cursor: &mut Cursor<'_>, symbol: Symbol) -> Result<(), Stop>
    ensures { Passed result cursor.new (skims (mark symbol) cursor.old) }
{
    cursor.symbol(symbol)?;
    Ok(())
}

/// Passes over the reserved word.
fn skim_word(cursor: &mut Cursor<'_>, word: Word) -> Result<(), Stop>
    ensures { Passed result cursor.new (skims (reserved word) cursor.old) }
{
    cursor.word(word)?;
    Ok(())
}

impl<'t> Skimmed<'t> for RawSigned {
    #[tactic(auto, unfolding(model_core::specs::Text::Language::signed_format))]
    fn skim(cursor: &mut Cursor<'t>) -> Result<(), Stop> {
        if cursor.begins_symbol(Symbol::Minus) {
            skim_symbol(cursor, Symbol::Minus)?;
        }
        skim_number(cursor)
    }
}

impl<'t> Skimmed<'t> for RawCarried<'t> {
    #[tactic(auto, unfolding(model_core::specs::Text::SnapshotGrammar::carried_format))]
    fn skim(cursor: &mut Cursor<'t>) -> Result<(), Stop> {
        if cursor.begins_symbol(Symbol::Minus) {
            skim_symbol(cursor, Symbol::Minus)?;
        }
        skim_digits(cursor)
    }
}

/// Passes over digits.
#[tactic(auto, unfolding(model_core::specs::Text::SnapshotGrammar::exact_format))]
fn skim_digits(cursor: &mut Cursor<'_>) -> Result<(), Stop>
    ensures { Passed result cursor.new (skims exact_format cursor.old) }
{
    cursor.digits()?;
    Ok(())
}

impl<'t> Skimmed<'t> for RawStream {
    #[tactic(auto, unfolding(model_core::specs::Text::SnapshotGrammar::stream_format))]
    fn skim(cursor: &mut Cursor<'t>) -> Result<(), Stop> {
        skim_name_so(cursor, b"stream")?;
        skim_number(cursor)?;
        skim_number(cursor)
    }
}

impl<'t> Skimmed<'t> for RawValue<'t> {
    #[tactic(auto, unfolding(model_core::specs::Text::SnapshotGrammar::value_format))]
    fn skim(cursor: &mut Cursor<'t>) -> Result<(), Stop> {
        skim_name_so(cursor, b"value")?;
        skim_name(cursor)?;
        skim_separated::<RawSigned>(cursor)
    }
}

impl<'t> Skimmed<'t> for RawPending<'t> {
    #[tactic(auto, unfolding(model_core::specs::Text::SnapshotGrammar::pending_format))]
    fn skim(cursor: &mut Cursor<'t>) -> Result<(), Stop> {
        skim_name_so(cursor, b"pending")?;
        skim_number(cursor)?;
        skim_number(cursor)?;
        skim_name(cursor)?;
        skim_carried(cursor)
    }
}

/// Passes over the values that an event carries, where it carries some.
#[tactic(auto, unfolding(model_core::specs::Text::SnapshotGrammar::carries_format))]
fn skim_carried(cursor: &mut Cursor<'_>) -> Result<(), Stop>
    ensures { Passed result cursor.new (skims (maybe carries_format) cursor.old) }
{
    if !cursor.begins_symbol(Symbol::OpenParenthesis) {
        return Ok(());
    }
    skim_symbol(cursor, Symbol::OpenParenthesis)?;
    skim_separated::<RawCarried>(cursor)?;
    skim_symbol(cursor, Symbol::CloseParenthesis)
}

/// Passes over signed numbers, where some come.
#[tactic(auto, unfolding(model_core::specs::Text::Language::signed_format))]
fn skim_some_signed(cursor: &mut Cursor<'_>) -> Result<(), Stop>
    ensures { Passed result cursor.new (skims (maybe (separated signed_format)) cursor.old) }
{
    if !cursor.begins_symbol(Symbol::Minus) && !cursor.begins_number() {
        return Ok(());
    }
    skim_separated::<RawSigned>(cursor)
}

/// Passes over the values that were noted last, where they are written.
#[tactic(auto, unfolding(model_core::specs::Text::SnapshotGrammar::noted_format))]
fn skim_noted(cursor: &mut Cursor<'_>) -> Result<(), Stop>
    ensures { Passed result cursor.new (skims (maybe noted_format) cursor.old) }
{
    if !cursor.begins_spelled(b"noted") {
        return Ok(());
    }
    skim_name_so(cursor, b"noted")?;
    skim_some_signed(cursor)
}

/// Passes over a snapshot.
#[tactic(auto, unfolding(model_core::specs::Text::SnapshotGrammar::snapshot_format))]
fn skim_snapshot(cursor: &mut Cursor<'_>) -> Result<(), Stop>
    ensures { Passed result cursor.new (skims snapshot_format cursor.old) }
{
    skim_name_so(cursor, b"snapshot")?;
    skim_name_so(cursor, b"seed")?;
    skim_number(cursor)?;
    skim_number(cursor)?;
    skim_word(cursor, Word::Clk)?;
    skim_number(cursor)?;
    skim_name_so(cursor, b"events")?;
    skim_number(cursor)?;
    skim_many::<RawStream>(cursor)?;
    skim_many::<RawValue>(cursor)?;
    skim_noted(cursor)?;
    skim_many::<RawPending>(cursor)?;
    skim_word(cursor, Word::End)
}

/// Passes over a snapshot after which no token is left.
fn skim_whole(cursor: &mut Cursor<'_>) -> Result<(), Stop>
    ensures { Passed result cursor.new (skims_whole snapshot_format cursor.old) }
{
    skim_snapshot(cursor)?;
    if cursor.len() > 0 {
        return Err(Stop::Unexpected);
    }
    Ok(())
}

/// Where the pieces from a place on stop to begin a snapshot, and `None` exactly where they all together are one. A
/// place is here the number of pieces before it; the byte named is the first from which no continuation makes a
/// snapshot: that of a piece, or the text's length. No openings are counted.
pub fn snapshot_fault_pieces(pieces: &Pieces<'_>, from: usize) -> Option<usize>
    ensures none { result ≡ None
        → (w : WrittenSnapshot) × IsSnapshot (drop from (pieces_lexemes pieces.now)) w }
    ensures some { (at : ℕ) → result ≡ Some at
        → IsNoSnapshotAt pieces.now.text.now (drop from (pieces_lexemes pieces.now)) at }
{
    let mut cursor = Cursor::from_place(pieces, from);
    match skim_whole(&mut cursor) {
        Ok(()) => None,
        Err(_) => Some(cursor.place(pieces.text.len())),
    }
}
