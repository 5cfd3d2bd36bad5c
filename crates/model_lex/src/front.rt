//! One step through a text: blanks and comments are passed over, and a token is added to a list.

ghost use Rattle.std.specs.Prelude.{◌≡◌, ◌≢◌, ◌<◌, ◌+◌, ◌^◌, ◌∷◌, ◌++◌, [], ℕ, Err, drop, length, map, IfOk, OnOk, vec_len, vec_capacity};
ghost use Rattle.model_core.specs.Text.Lexing.{Neither, symbol_among, all_symbols};
ghost use Rattle.model_lex.specs.PieceViews.{piece_of};
ghost use Rattle.model_lex.specs.Inner.Fronts.{front_at, symbol_as_front, Passes};

use crate::classes::{Class, class_of};
use crate::lex_error::LexError;
use crate::piece::{Piece, PieceKind};
use crate::runs::{comment_length, digits_length, word_length};
use crate::symbols::{symbol_of_one, symbol_of_two};
use crate::words::word_kind;
use model_core::Symbol;
use sig_base::NoMemory;

/// Passes over what the text has at a place, and returns the place after it. A token, the longest one, is
/// added. Inlined with what it calls, since each token and each blank takes a call.
#[inline(always)]
pub(crate) fn pass_over(list: &mut Vec<Piece>, text: &[u8], at: usize) -> Result<usize, LexError>
    requires inside { at < length text.now }
    requires short_text { length text.now < 2 ^ 32 }
    ensures passes { IfOk result
        (λ to. Passes at (front_at (drop at text.now)) (map (piece_of text.now) list.old.items)
        (map (piece_of text.now) list.new.items) to) }
    ensures bad_byte { (place : ℕ) → result ≡ Err (LexError.BadByte place)
        → (place ≡ at) × (front_at (drop at text.now) ≡ Neither) }
{
    let bytes = &text[at..];
    let left = bytes.len();
    let first = bytes[0];
    // Most blanks are spaces, and many bytes are, so these need no table.
    if first == b' ' {
        return Ok(at + 1);
    }
    match class_of(first) {
        Class::Blank => Ok(at + 1),
        Class::Comment => Ok(at + comment_length(bytes)),
        Class::Name => add(list, PieceKind::Name, at, word_length(bytes), left),
        Class::Word => {
            let length = word_length(bytes);
            add(list, word_kind(&bytes[..length]), at, length, left)
        }
        Class::Digit => {
            let length = digits_length(bytes);
            add(list, PieceKind::Number, at, length, left)
        }
        Class::Pair => match symbol_front(bytes) {
            Some((length, symbol)) => add(list, PieceKind::Symbol(symbol), at, length, left),
            None => Err(LexError::BadByte { at }),
        },
        Class::Alone(symbol) => add(list, PieceKind::Symbol(symbol), at, 1, left),
        Class::Nothing => Err(LexError::BadByte { at }),
    }
}

/// The longest symbol that the bytes begin with, and before it its length.
fn symbol_front(bytes: &[u8]) -> Option<(usize, Symbol)>
    requires { 0 < length bytes.now }
    ensures { symbol_as_front result ≡ symbol_among all_symbols bytes.now }
{
    let first = bytes[0];
    let second = if bytes.len() > 1 { bytes[1] } else { 0 };
    if let Some(symbol) = symbol_of_two(first, second) {
        Some((2, symbol))
    } else if let Some(symbol) = symbol_of_one(first) {
        Some((1, symbol))
    } else {
        None
    }
}

/// Adds the token of so many bytes at a place, where `left` bytes of the text are left, and returns the place after it.
#[inline(always)]
fn add(
    list: &mut Vec<Piece>,
    kind: PieceKind,
    at: usize,
    length: usize,
    left: usize,
) -> Result<usize, LexError>
    requires left { 0 < left }
    requires inside { at + length < 2 ^ 32 }
    ensures added { IfOk result
        (λ to. (to ≡ at + length)
        × (list.new.items
        ≡ list.old.items ++ record { from = at; length = length; kind = kind } ∷ [])) }
    ensures no_memory { (place : ℕ) → result ≢ Err (LexError.BadByte place) }
{
    if list.len() == list.capacity() {
        make_room(list, left)?;
    }
    list.push_reserved(Piece {
        from: at as u32,
        length: length as u32,
        kind,
    });
    Ok(at + length)
}

/// How many tokens a list has room for at first.
const FIRST_ROOM: usize = 64;

/// Makes room in a full list for as many tokens more as it has, but for no more than there are bytes left, since each token
/// takes one at least.
#[cold]
fn make_room(list: &mut Vec<Piece>, left: usize) -> Result<(), NoMemory>
    requires { 0 < left }
    ensures items { list.new.items ≡ list.old.items }
    ensures room { OnOk result (vec_len list.new < vec_capacity list.new) }
{
    list.reserve_exact(list.len().max(FIRST_ROOM).min(left))?;
    Ok(())
}
