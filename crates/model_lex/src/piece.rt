//! The tokens of a text in few bytes: the kind of each, and its place. Its spelling stays in the text.

ghost use Rattle.std.specs.Prelude.{◌≡◌, ◌+◌, ◌≤◌, length};
ghost use Rattle.model_core.specs.Code.TokenViews.{lexeme_of};
ghost use Rattle.model_lex.specs.PieceViews.{piece_of};

use crate::numbers::literal_value;
use model_core::{Symbol, Token, TokenKind, Word};

/// The kind of a piece of a text.
#[derive(Clone, Copy, PartialEq, Eq)]
pub enum PieceKind {
    /// A word that isn't reserved.
    Name,
    /// A reserved word.
    Word(Word),
    /// Digits. Their value is read from the text where it is asked for.
    Number,
    /// A symbol of one or two bytes.
    Symbol(Symbol),
}

/// A token of a text: the byte at which it begins, counted from 0, how many bytes it has, and what it is.
#[derive(Clone, Copy)]
pub struct Piece {
    pub from: u32,
    pub length: u32,
    pub kind: PieceKind,
}

// A text has up to as many pieces as bytes, so what one takes is most of what reading takes.
const _: () = prove!(size_of::<Piece>() == 12);

/// The token that a piece of the text is.
pub(crate) fn token_of(text: &[u8], piece: Piece) -> Token
    requires { piece.from + piece.length ≤ length text.now }
    ensures { lexeme_of text.now result ≡ piece_of text.now piece }
{
    let from = piece.from as usize;
    let to = from + piece.length as usize;
    let kind = match piece.kind {
        PieceKind::Name => TokenKind::Name,
        PieceKind::Word(word) => TokenKind::Word(word),
        PieceKind::Number => TokenKind::Number(literal_value(&text[from..to])),
        PieceKind::Symbol(symbol) => TokenKind::Symbol(symbol),
    };
    Token { kind, from, to }
}
