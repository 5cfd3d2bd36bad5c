//! A text with its tokens, as values and as pieces.

ghost use Rattle.std.specs.Prelude.{◌≡◌, map, Ok};
ghost use Rattle.model_core.specs.Text.Lexing.{tokens_of};
ghost use Rattle.model_core.specs.Code.TokenViews.{lexeme_of};
ghost use Rattle.model_lex.specs.LexemeSets.{lexemes-prop, bytes-prop};

use crate::piece_list::Pieces;
use model_core::Token;
use sig_base::List;

/// A text and its tokens, in order; and the same tokens as pieces, which are what is read.
#[derive(Drop)]
pub struct Tokens<'t> {
    pub text: &'t [u8],
    pub list: List<Token>,
    pub pieces: Pieces<'t>,
    pub ghost are_its: { tokens_of text.now ≡ Ok (map (lexeme_of text.now) list) } by { lexemes-prop (tokens_of text.now) (Ok (map (lexeme_of text.now) list)) },
    pub ghost in_one_text: { pieces.text.now ≡ text.now } by { bytes-prop pieces.text.now text.now },
}
