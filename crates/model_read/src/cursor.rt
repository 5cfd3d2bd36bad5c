//! The tokens of a text that are left to read.

ghost use Rattle.std.specs.Prelude.{◌≡◌, ◌≢◌, ℕ, ◌+◌, ◌≤◌, true, false, None, List, drop, length, map, slice_range, IfOk, IfErr};
ghost use Rattle.std.specs.Option.{option_map, is_some, IfSome};
ghost use Rattle.model_core.specs.declared.token.Word.TheVariants.{Not};
ghost use Rattle.model_core.specs.Code.WrittenViews.{written_name, written_number};
ghost use Rattle.model_core.specs.Text.Format.{AName, ASpelled, ANumber, AWord, ASymbol, reserved, mark, this_name, any_name, any_number, maybe};
ghost use Rattle.model_core.specs.Text.FirstWrong.{wrong_place};
ghost use Rattle.model_core.specs.Text.SnapshotGrammar.{exact_format};
ghost use Rattle.text_laws.specs.FirstTokens.{begins_as};
ghost use Rattle.text_laws.specs.FormatReader.{took, stuck, whole_read};
ghost use Rattle.text_laws.specs.LanguageReader.{language_reader};
ghost use Rattle.model_read.specs.ReadCalls.{Returned};
ghost use Rattle.text_laws.specs.Ladder.{infix_at, at_levels, after_operator};
ghost use Rattle.model_read.specs.Infixes.{infix_of};
ghost use Rattle.model_read.specs.Inner.PieceSorts.{sort_of_kind, of_kind};
ghost use Rattle.model_read.specs.Spelled.{spelled_name, digits_written};

use crate::operators::{CONJUNCTIONS, Infix, infix_of};
use crate::stop::Stop;
use model_core::{RawName, RawNumber, Symbol, Word};
use model_lex::{Piece, PieceKind, Pieces, literal_value, pieces_are_in_text};
use sig_base::Name;
use std::alloc::Global;
use std::marker::Model;

/// A name or digits as they are in a text, and the byte at which they begin, counted from 0.
#[derive(Clone, Copy)]
pub struct Spelling<'t> {
    pub bytes: &'t [u8],
    pub at: usize,
}

/// The bytes of a piece of the text.
#[inline(always)]
fn bytes_of<'t>(text: &'t [u8], piece: &Piece) -> &'t [u8]
    requires { piece.now.from + piece.now.length ≤ length text.now }
    ensures { result.now ≡ slice_range text.now piece.now.from (piece.now.from + piece.now.length) }
{
    let from = piece.from as usize;
    &text[from..from + piece.length as usize]
}

/// The pieces from a place on. After the last there are none.
fn pieces_from(pieces: &[Piece], from: usize) -> &[Piece]
    ensures { result.now ≡ drop from pieces.now }
{
    &pieces[from.min(pieces.len())..]
}

/// The tokens of a text that are left to read, which contracts see as the plain list of what they represent.
#[derive(Drop)]
pub struct Cursor<'t> {
    text: &'t [u8],
    tokens: &'t [Piece],
}

impl<'t> Model for Cursor<'t> {
    ghost use Rattle.std.specs.Prelude.{List, map};
    ghost use Rattle.model_core.specs.Text.Lexing.{Lexeme};
    ghost use Rattle.model_lex.specs.PieceViews.{piece_of};

    ghost Value = { List Lexeme };

    ghost view = { λ c. map (piece_of c.text.now) c.tokens.now };

    ghost use Rattle.model_read.specs.InText.{AreInText};

    ghost invariant = { λ c. AreInText c.text.now c.tokens.now };
}

impl<'t> Cursor<'t> {
    ghost use Rattle.model_lex.specs.PieceViews.{piece_of};
    ghost use Rattle.model_lex.specs.PiecesOfText.{pieces_lexemes};
    ghost use Rattle.model_read.specs.InText.{AreInText};

    /// The tokens, all of which are left to read.
    pub fn new(text: &'t [u8], tokens: &'t [Piece]) -> Cursor<'t>
        requires { AreInText text.now tokens.now }
        ensures { result ≡ map (piece_of text.now) tokens.now }
    {
        Cursor { text, tokens }
    }

    /// The pieces of a text from a place on, all of which are left to read. A place is here the number of pieces before it.
    pub fn from_place(pieces: &'t Pieces<'_>, from: usize) -> Cursor<'t>
        ensures { result ≡ drop from (pieces_lexemes pieces.now) }
    {
        pieces_are_in_text();
        Cursor::new(pieces.text, pieces_from(pieces.list.as_slice(), from))
    }

    /// The same tokens, to be read again.
    pub fn again(&self) -> Cursor<'t>
        ensures { result ≡ self.now }
    {
        Cursor {
            text: self.text,
            tokens: self.tokens,
        }
    }

    /// The byte at which the next token begins, or where none is left the number `end`.
    pub fn place(&self, end: usize) -> usize
        ensures { (text : List ℕ) → end ≡ length text → result ≡ wrong_place text self.now }
    {
        match self.tokens {
            [] => end,
            [first, ..] => first.from as usize,
        }
    }

    /// How many tokens are left.
    pub fn len(&self) -> usize
        ensures { result ≡ length self.now }
    {
        self.tokens.len()
    }

    /// Whether the next token is the reserved word.
    pub fn begins_word(&self, word: Word) -> bool
        ensures { result ≡ begins_as (AWord word) self.now }
    {
        matches!(self.tokens, [first, ..] if first.kind == PieceKind::Word(word))
    }

    /// Whether the next token is the symbol.
    pub fn begins_symbol(&self, symbol: Symbol) -> bool
        ensures { result ≡ begins_as (ASymbol symbol) self.now }
    {
        matches!(self.tokens, [first, ..] if first.kind == PieceKind::Symbol(symbol))
    }

    /// Whether the next token is a number.
    pub fn begins_number(&self) -> bool
        ensures { result ≡ begins_as ANumber self.now }
    {
        matches!(self.tokens, [first, ..] if first.kind == PieceKind::Number)
    }

    /// Whether the next token is a name.
    pub fn begins_name(&self) -> bool
        ensures { result ≡ begins_as AName self.now }
    {
        matches!(self.tokens, [first, ..] if first.kind == PieceKind::Name)
    }

    /// Whether the next token is the name with this spelling.
    pub fn begins_spelled(&self, spelling: &[u8]) -> bool
        ensures { result ≡ begins_as (ASpelled spelling.now) self.now }
    {
        let [first, ..] = self.tokens else {
            return false;
        };
        first.kind == PieceKind::Name && bytes_of(self.text, first) == spelling
    }

    /// Refuses any token that is left.
    pub fn end(&self) -> Result<(), Stop>
        ensures { Returned (λ u. u) result self.now (whole_read record {} self.now) }
    {
        match self.tokens {
            [] => Ok(()),
            [_, ..] => Err(Stop::Unexpected),
        }
    }

    /// Takes the next token, where it is of this kind, and gives its place.
    #[inline(always)]
    fn take_if(&mut self, kind: PieceKind) -> Option<usize>
        ensures reads { language_reader (maybe (of_kind kind)) self.old ≡ took result self.new }
        ensures taken { IfSome result
            (λ at. language_reader (of_kind kind) self.old ≡ took at self.new) }
        ensures shorter { IfSome result (λ at. length self.new + 1 ≤ length self.old) }
        ensures missing { result ≡ None
            → (language_reader (of_kind kind) self.old ≡ stuck self.new) × (self.new ≡ self.old) }
        ensures comes { is_some result ≡ begins_as (sort_of_kind kind) self.old }
    {
        match self.tokens {
            [first, rest @ ..] if first.kind == kind => {
                self.tokens = rest;
                Some(first.from as usize)
            }
            _ => None,
        }
    }

    /// Takes the reserved word, where it comes next, and gives its place.
    pub(crate) fn word_if_next(&mut self, word: Word) -> Option<usize>
        ensures reads { language_reader (maybe (reserved word)) self.old ≡ took result self.new }
        ensures taken { IfSome result
            (λ at. language_reader (reserved word) self.old ≡ took at self.new) }
        ensures shorter { IfSome result (λ at. length self.new + 1 ≤ length self.old) }
        ensures missing { result ≡ None
            → (language_reader (reserved word) self.old ≡ stuck self.new) × (self.new ≡ self.old) }
        ensures comes { is_some result ≡ begins_as (AWord word) self.old }
    {
        self.take_if(PieceKind::Word(word))
    }

    /// Takes the reserved word, and gives its place.
    pub fn word(&mut self, word: Word) -> Result<usize, Stop>
        ensures reads { Returned (λ at. at) result self.new
            (language_reader (reserved word) self.old) }
        ensures shorter { IfOk result (λ at. length self.new + 1 ≤ length self.old) }
        ensures unexpected { IfErr result (λ e. e ≡ Stop.Unexpected) }
    {
        self.word_if_next(word).ok_or(Stop::Unexpected)
    }

    /// Takes the symbol, where it comes next, and gives its place.
    pub(crate) fn symbol_if_next(&mut self, symbol: Symbol) -> Option<usize>
        ensures taken { IfSome result
            (λ at. language_reader (mark symbol) self.old ≡ took at self.new) }
        ensures shorter { IfSome result (λ at. length self.new + 1 ≤ length self.old) }
        ensures missing { result ≡ None
            → (language_reader (mark symbol) self.old ≡ stuck self.new) × (self.new ≡ self.old) }
        ensures comes { is_some result ≡ begins_as (ASymbol symbol) self.old }
    {
        self.take_if(PieceKind::Symbol(symbol))
    }

    /// Takes the symbol, and gives its place.
    pub fn symbol(&mut self, symbol: Symbol) -> Result<usize, Stop>
        ensures reads { Returned (λ at. at) result self.new
            (language_reader (mark symbol) self.old) }
        ensures shorter { IfOk result (λ at. length self.new + 1 ≤ length self.old) }
        ensures unexpected { IfErr result (λ e. e ≡ Stop.Unexpected) }
    {
        self.symbol_if_next(symbol).ok_or(Stop::Unexpected)
    }

    /// Takes the name with this spelling, and gives its place.
    pub fn this_name(&mut self, spelling: &[u8]) -> Result<usize, Stop>
        ensures reads { Returned (λ at. at) result self.new
            (language_reader (this_name spelling.now) self.old) }
        ensures shorter { IfOk result (λ at. length self.new + 1 ≤ length self.old) }
        ensures unexpected { IfErr result (λ e. e ≡ Stop.Unexpected) }
    {
        match self.tokens {
            [first, rest @ ..] if self.begins_spelled(spelling) => {
                self.tokens = rest;
                Ok(first.from as usize)
            }
            _ => Err(Stop::Unexpected),
        }
    }

    /// The operator between two operands that comes next, if one does.
    fn next_infix(&self) -> Option<Infix>
        ensures { option_map infix_of result ≡ infix_at self.now }
    {
        match self.tokens {
            [] => None,
            [first, ..] => infix_of(first.kind),
        }
    }

    /// Whether an operator between two operands comes next, of a level below `under`.
    pub(crate) fn goes_on(&self, under: usize) -> bool
        ensures yes { result ≡ true → at_levels 0 under (infix_at self.now) ≢ None }
        ensures no { result ≡ false → at_levels 0 under (infix_at self.now) ≡ None }
    {
        match self.next_infix() {
            None => false,
            Some(infix) => infix.level < under,
        }
    }

    /// Whether `not` comes next, and may come before an operand of operators of the level `under`.
    pub fn begins_negation(&self, under: usize) -> bool
        ensures yes { result ≡ true → (3 ≤ under) × (begins_as (AWord Not) self.now ≡ true) }
        ensures no { result ≡ false → 3 ≤ under → begins_as (AWord Not) self.now ≡ false }
    {
        under >= CONJUNCTIONS && self.begins_word(Word::Not)
    }

    /// Leaves out the next token.
    fn skip(&mut self)
        ensures { self.new ≡ drop 1 self.old }
    {
        if let [_, rest @ ..] = self.tokens {
            self.tokens = rest;
        }
    }

    /// Takes the operator between two operands that comes next, if its level is `least` or higher, and below `under`.
    pub fn infix(&mut self, least: usize, under: usize) -> Option<Infix>
        ensures takes { option_map infix_of result ≡ at_levels least under (infix_at self.old) }
        ensures leaves { self.new
            ≡ after_operator (at_levels least under (infix_at self.old)) self.old }
        ensures below { IfSome result (λ i. i.level + 1 ≤ under) }
        ensures shorter { IfSome result (λ i. length self.new + 1 ≤ length self.old) }
        ensures no_longer { length self.new ≤ length self.old }
    {
        let infix = self.next_infix()?;
        if infix.level < least || infix.level >= under {
            return None;
        }
        self.skip();
        Some(infix)
    }

    /// Takes a number.
    pub fn number(&mut self) -> Result<RawNumber, Stop>
        ensures reads { Returned written_number result self.new
            (language_reader any_number self.old) }
        ensures shorter { IfOk result (λ n. length self.new + 1 ≤ length self.old) }
        ensures unexpected { IfErr result (λ e. e ≡ Stop.Unexpected) }
    {
        if let [first, rest @ ..] = self.tokens
            && let PieceKind::Number = first.kind
        {
            let value = literal_value(bytes_of(self.text, first));
            self.tokens = rest;
            return Ok(RawNumber {
                value,
                at: first.from as usize,
            });
        }
        Err(Stop::Unexpected)
    }

    /// Takes a number, whose digits are left where they are.
    #[tactic(auto, unfolding(model_core::specs::Text::SnapshotGrammar::exact_format))]
    pub fn digits(&mut self) -> Result<Spelling<'t>, Stop>
        ensures reads { Returned digits_written result self.new
            (language_reader exact_format self.old) }
        ensures shorter { IfOk result (λ n. length self.new + 1 ≤ length self.old) }
        ensures unexpected { IfErr result (λ e. e ≡ Stop.Unexpected) }
    {
        if let [first, rest @ ..] = self.tokens
            && let PieceKind::Number = first.kind
        {
            let bytes = bytes_of(self.text, first);
            self.tokens = rest;
            return Ok(Spelling {
                bytes,
                at: first.from as usize,
            });
        }
        Err(Stop::Unexpected)
    }

    /// Takes a name, whose bytes are left where they are.
    pub fn spelling(&mut self) -> Result<Spelling<'t>, Stop>
        ensures reads { Returned spelled_name result self.new (language_reader any_name self.old) }
        ensures shorter { IfOk result (λ n. length self.new + 1 ≤ length self.old) }
        ensures unexpected { IfErr result (λ e. e ≡ Stop.Unexpected) }
    {
        if let [first, rest @ ..] = self.tokens
            && let PieceKind::Name = first.kind
        {
            let bytes = bytes_of(self.text, first);
            self.tokens = rest;
            return Ok(Spelling {
                bytes,
                at: first.from as usize,
            });
        }
        Err(Stop::Unexpected)
    }

    /// Takes a name.
    pub fn name(&mut self, alloc: Global) -> Result<RawName, Stop>
        ensures reads { Returned written_name result self.new (language_reader any_name self.old) }
        ensures shorter { IfOk result (λ n. length self.new + 1 ≤ length self.old) }
    {
        let spelling = self.spelling()?;
        let bytes = Vec::from_slice(alloc, spelling.bytes)?;
        Ok(RawName {
            name: Name::from_vec(bytes),
            at: spelling.at,
        })
    }
}
