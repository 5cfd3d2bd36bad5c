//! The readers of whole texts for users with a list of tokens. They read the pieces beside the list.

ghost use Rattle.std.specs.Prelude.{◌≡◌, ℕ, ◌≤◌, None, Some, Err, length, drop, IfOk};
ghost use Rattle.sig_base.specs.declared.limits.TheConstants.{OPENINGS_MAX};
ghost use Rattle.model_core.specs.Code.WrittenViews.{written_model};
ghost use Rattle.model_core.specs.Text.Language.{IsText, BeginsWithText};
ghost use Rattle.model_core.specs.Text.FirstWrong.{IsUnexpectedAt};
ghost use Rattle.model_core.specs.Text.Openings.{front_to_end, too_deep_at, HasFewOpenings};
ghost use Rattle.model_lex.specs.Lexemes.{lexemes};

use crate::text::{parse_front_pieces, parse_pieces};
use model_core::RawModel;
use model_lex::{ParseError, Tokens, pieces_are_the_tokens};
use std::alloc::Global;

/// The model that all of the tokens spell, with its names, numbers and places as they are written.
///
/// `TooDeep` comes first: it names the first opening that is more than a part may have. `Unexpected` names the first byte
/// from which no continuation makes a model text: that of a token, or the text's length.
pub fn parse(alloc: Global, tokens: &Tokens<'_>) -> Result<RawModel, ParseError>
    // What is read is spelled, with few openings.
    ensures ok { IfOk result
        (λ m. IsText (lexemes tokens.now) (written_model m)
        × HasFewOpenings OPENINGS_MAX (lexemes tokens.now)) }
    // What is refused is spelled by no model, and this is where the tokens stop to begin one.
    ensures unexpected { (at : ℕ) → result ≡ Err (ParseError.Unexpected at)
        → (too_deep_at OPENINGS_MAX (lexemes tokens.now) ≡ None)
        × IsUnexpectedAt tokens.now.text.now (lexemes tokens.now) at }
    ensures too_deep { (at : ℕ) → result ≡ Err (ParseError.TooDeep at)
        → too_deep_at OPENINGS_MAX (lexemes tokens.now) ≡ Some at }
{
    pieces_are_the_tokens();
    parse_pieces(alloc, &tokens.pieces)
}

/// The model that the tokens from the place on begin with, and the place after its word `end`. A place is here the number
/// of tokens before it.
///
/// The errors are those of `parse`, for the tokens from the place up to and with the first word `end` there, or for all
/// of them where there is none.
pub fn parse_front(
    alloc: Global,
    tokens: &Tokens<'_>,
    from: usize,
) -> Result<(RawModel, usize), ParseError>
    requires { from ≤ length tokens.now.list }
    // What is read is there, with few openings, and what is left are the tokens from the answer's place on.
    ensures ok { IfOk result
        (λ r. BeginsWithText (drop from (lexemes tokens.now)) (written_model r.0)
        (drop r.1 (lexemes tokens.now))
        × HasFewOpenings OPENINGS_MAX (front_to_end (drop from (lexemes tokens.now)))) }
    ensures inside { IfOk result (λ r. r.1 ≤ length tokens.now.list) }
    ensures unexpected { (at : ℕ) → result ≡ Err (ParseError.Unexpected at)
        → (too_deep_at OPENINGS_MAX (front_to_end (drop from (lexemes tokens.now))) ≡ None)
        × IsUnexpectedAt tokens.now.text.now (front_to_end (drop from (lexemes tokens.now))) at }
    ensures too_deep { (at : ℕ) → result ≡ Err (ParseError.TooDeep at)
        → too_deep_at OPENINGS_MAX (front_to_end (drop from (lexemes tokens.now))) ≡ Some at }
{
    pieces_are_the_tokens();
    parse_front_pieces(alloc, &tokens.pieces, from)
}
