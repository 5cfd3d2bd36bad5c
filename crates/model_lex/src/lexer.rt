//! Cuts a text into its tokens.

ghost use Rattle.std.specs.Prelude.{◌≡◌, ◌<◌, ◌^◌, ℕ, length, map, Ok, Err, IfOk};
ghost use Rattle.model_core.specs.Text.Lexing.{tokens_of};
ghost use Rattle.model_core.specs.Code.TokenViews.{lexeme_of};
ghost use Rattle.model_lex.specs.Inner.Fronts.{Gives};
ghost use Rattle.model_lex.specs.Lexemes.{lexemes};
ghost use Rattle.model_lex.specs.PieceViews.{piece_of};
ghost use Rattle.model_lex.specs.PiecesOfText.{pieces_lexemes};

use crate::front::pass_over;
use crate::lex_error::LexError;
use crate::order::pieces_are_in_text;
use crate::piece::{Piece, token_of};
use crate::piece_list::Pieces;
use crate::token_list::Tokens;
use model_core::Token;
use sig_base::{List, NoMemory};
use std::alloc::Global;

/// The tokens of the text, the longest one each time. `BadByte` comes exactly where some byte outside a comment
/// begins no token, with the place of the first such byte. For a text of 4 GiB or more, whose tokens can take over 160 GiB,
/// `NoMemory` comes at once.
pub fn tokens<'t>(alloc: Global, text: &'t [u8]) -> Result<Tokens<'t>, LexError>
    ensures ok { IfOk result
        (λ t. (t.text.now ≡ text.now) × (tokens_of text.now ≡ Ok (lexemes t))) }
    ensures bad_byte { (at : ℕ) → result ≡ Err (LexError.BadByte at) → tokens_of text.now ≡ Err at }
{
    let pieces = pieces(alloc, text)?;
    let list = tokens_of_pieces(alloc, &pieces)?;
    Ok(Tokens { text, list, pieces })
}

/// The pieces of a text as tokens.
fn tokens_of_pieces(alloc: Global, pieces: &Pieces<'_>) -> Result<List<Token>, NoMemory>
    ensures { IfOk result
        (λ list. map (lexeme_of pieces.now.text.now) list ≡ pieces_lexemes pieces.now) }
{
    pieces_are_in_text();
    let mut list = List::from_vec(Vec::with_capacity(alloc, pieces.list.len())?);
    for piece in pieces.list.as_slice() {
        list.push(token_of(pieces.text, *piece))?;
    }
    Ok(list)
}

/// A text of more bytes has places that a piece can't say.
const BYTES_MAX: usize = 4_294_967_295;

/// The same in 12 bytes a token, with the same errors.
pub fn pieces<'t>(alloc: Global, text: &'t [u8]) -> Result<Pieces<'t>, LexError>
    ensures ok { IfOk result
        (λ t. (t.text.now ≡ text.now) × (tokens_of text.now ≡ Ok (pieces_lexemes t))) }
    ensures bad_byte { (at : ℕ) → result ≡ Err (LexError.BadByte at) → tokens_of text.now ≡ Err at }
{
    if text.len() > BYTES_MAX {
        return Err(LexError::NoMemory);
    }
    let list = piece_list(alloc, text)?;
    Ok(Pieces { text, list })
}

/// The pieces of the text.
fn piece_list(alloc: Global, text: &[u8]) -> Result<List<Piece>, LexError>
    requires { length text.now < 2 ^ 32 }
    ensures { Gives (map (piece_of text.now)) result (tokens_of text.now) }
{
    let mut list = Vec::new(alloc);
    let mut at = 0;
    while at < text.len() {
        at = pass_over(&mut list, text, at)?;
    }
    Ok(List::from_vec(list))
}
