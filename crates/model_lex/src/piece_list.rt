//! A text with its tokens as pieces.

ghost use Rattle.std.specs.Prelude.{◌≡◌, map, Ok};
ghost use Rattle.model_core.specs.Text.Lexing.{tokens_of};
ghost use Rattle.model_lex.specs.PieceViews.{piece_of};
ghost use Rattle.model_lex.specs.LexemeSets.{lexemes-prop};

use crate::piece::Piece;
use sig_base::List;

/// A text and the pieces that are its tokens, in order.
#[derive(Drop)]
pub struct Pieces<'t> {
    pub text: &'t [u8],
    pub list: List<Piece>,
    pub ghost are_its: { tokens_of text.now ≡ Ok (map (piece_of text.now) list) } by { lexemes-prop (tokens_of text.now) (Ok (map (piece_of text.now) list)) },
}
