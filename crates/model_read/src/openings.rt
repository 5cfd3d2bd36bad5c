//! The limit on openings in each part of a text, counted before the grammar is tried.

ghost use Rattle.std.specs.Prelude.{◌≡◌, ◌<◌, ◌≤◌, ℕ, List, length, map, slice_index_or, take, true};
ghost use Rattle.std.specs.Option.{IfSome};
ghost use Rattle.model_lex.specs.declared.piece.Piece.{Piece};
ghost use Rattle.model_lex.specs.PieceViews.{piece_kind, piece_of};
ghost use Rattle.model_core.specs.Text.Lexing.{Mark};
ghost use Rattle.model_core.specs.Text.Openings.{ends_part, too_deep_at, front_to_end};
ghost use Rattle.model_read.specs.Inner.CountedTokens.{IsCounted};

use model_core::{Symbol, Word};
use model_lex::{Piece, PieceKind};

/// Whether a token of the kind ends a part of a text.
fn ends_part(kind: PieceKind) -> bool
    ensures { (bytes : List ℕ) → result ≡ ends_part (piece_kind bytes kind) }
{
    match kind {
        PieceKind::Symbol(Symbol::Semicolon | Symbol::OpenBrace | Symbol::CloseBrace) => true,
        PieceKind::Symbol(_) | PieceKind::Name | PieceKind::Number | PieceKind::Word(_) => false,
    }
}

/// How a count of openings takes a token: as the end of a part, as an opening, or as neither.
#[derive(Clone, Copy)]
enum OpeningStep {
    End,
    Opening,
    Other,
}

/// How a count of openings takes a symbol.
#[inline(always)]
fn count_of_symbol(symbol: Symbol) -> OpeningStep
    ensures { IsCounted result (Mark symbol) }
{
    match symbol {
        Symbol::Equal
        | Symbol::NotEqual
        | Symbol::Below
        | Symbol::AtMost
        | Symbol::Above
        | Symbol::AtLeast
        | Symbol::Plus
        | Symbol::Minus
        | Symbol::Times
        | Symbol::Over
        | Symbol::Percent
        | Symbol::OpenParenthesis
        | Symbol::OpenBracket => OpeningStep::Opening,
        Symbol::Semicolon | Symbol::OpenBrace | Symbol::CloseBrace => OpeningStep::End,
        Symbol::Comma
        | Symbol::Colon
        | Symbol::Becomes
        | Symbol::To
        | Symbol::CloseParenthesis
        | Symbol::CloseBracket => OpeningStep::Other,
    }
}

/// How a count of openings takes a token of the kind.
#[inline(always)]
fn count_of(kind: PieceKind) -> OpeningStep
    ensures { (bytes : List ℕ) → IsCounted result (piece_kind bytes kind) }
{
    match kind {
        PieceKind::Symbol(symbol) => count_of_symbol(symbol),
        PieceKind::Word(Word::Or | Word::And | Word::Not | Word::If | Word::Min | Word::Max) => {
            OpeningStep::Opening
        }
        PieceKind::Word(_) | PieceKind::Name | PieceKind::Number => OpeningStep::Other,
    }
}

/// The last token that ends a part and has at most so many tokens before it.
fn last_end(tokens: &[Piece], limit: usize) -> Option<usize>
    ensures { IfSome result (λ place. (place ≤ limit) × (place < length tokens.now)
        × ((bytes : List ℕ) (d : Piece)
        → ends_part (piece_kind bytes (slice_index_or tokens.now place d).kind) ≡ true)) }
{
    let mut place = tokens.len();
    if place > limit {
        place = limit;
    }
    while place > 0 {
        place -= 1;
        if ends_part(tokens[place].kind) {
            return Some(place);
        }
    }
    None
}

/// The byte, from 0, of the first opening that is one more than the limit in its part. Tokens are passed over up to the last
/// end of a part that so many can't reach, and counted where a part is longer.
pub fn first_too_deep(tokens: &[Piece], limit: usize) -> Option<usize>
    ensures { (text : List ℕ) → result ≡ too_deep_at limit (map (piece_of text) tokens.now) }
{
    let mut at = 0;
    while let Some(end) = last_end(&tokens[at..], limit) {
        at += end + 1;
    }
    counted_too_deep(&tokens[at..], limit)
}

/// The same by a count of the openings of each part.
fn counted_too_deep(tokens: &[Piece], limit: usize) -> Option<usize>
    ensures { (text : List ℕ) → result ≡ too_deep_at limit (map (piece_of text) tokens.now) }
{
    let mut room = limit;
    for token in tokens {
        match count_of(token.kind) {
            OpeningStep::Opening => {
                if room == 0 {
                    return Some(token.from as usize);
                }
                room -= 1;
            }
            OpeningStep::End => room = limit,
            OpeningStep::Other => {}
        }
    }
    None
}

/// How many tokens there are up to and with the first word `end`, or in all where there is none.
pub(crate) fn front_length(tokens: &[Piece]) -> usize
    ensures inside { result ≤ length tokens.now }
    ensures front { (text : List ℕ)
        → map (piece_of text) (take result tokens.now)
        ≡ front_to_end (map (piece_of text) tokens.now) }
{
    for (place, token) in tokens.iter().enumerate() {
        if token.kind == PieceKind::Word(Word::End) {
            return place + 1;
        }
    }
    tokens.len()
}
