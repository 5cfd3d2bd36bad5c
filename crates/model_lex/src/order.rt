//! Laws of the tokens of a text: how it is cut into them, and in which order they are.

ghost use Rattle.std.specs.Prelude.{◌≡◌, ◌+◌, ◌↔◌, ◌<◌, ◌≤◌, ℕ, List, Result, Ok, All, length};
ghost use Rattle.model_core.specs.Text.Lexing.{Lexeme, tokens_of};
ghost use Rattle.model_lex.specs.TextCut.{IsCut};
ghost use Rattle.model_lex.specs.TokenOrder.{TokensInOrder};
ghost use Rattle.model_lex.specs.Lexemes.{lexemes};
ghost use Rattle.model_lex.specs.PiecesOfText.{pieces_lexemes};
ghost use Rattle.model_lex.specs.declared.token_list.Tokens.{Tokens};
ghost use Rattle.model_lex.specs.declared.piece_list.Pieces.{Pieces};

/// A text is cut, front by front, into its tokens or up to its first byte that begins none, and into nothing
/// else.
pub fn texts_are_cut()
    ensures { (text : List ℕ) (r : Result (List Lexeme) ℕ) → IsCut 0 text r ↔ (tokens_of text ≡ r) }
{}

/// The law that the tokens follow one another in their text, each of at least a byte.
pub fn tokens_are_in_order()
    ensures in_order { (text : List ℕ) (ls : List Lexeme) → tokens_of text ≡ Ok ls
        → TokensInOrder 0 ls (length text) }
    // So a reader may take the bytes of any token out of the text.
    ensures in_text { (t : Tokens)
        → All (λ k. (k.from < k.to) × (k.to ≤ length t.text.now)) t.list }
{}

/// The law that each piece of a text has at least a byte, and ends where the text ends, or before.
pub fn pieces_are_in_text()
    ensures { (t : Pieces)
        → All (λ p. (0 < p.length) × (p.from + p.length ≤ length t.text.now)) t.list }
{}

/// The law that the pieces beside tokens are these tokens, in the same text.
pub fn pieces_are_the_tokens()
    ensures text { (t : Tokens) → t.pieces.text.now ≡ t.text.now }
    ensures same { (t : Tokens) → pieces_lexemes t.pieces ≡ lexemes t }
    ensures as_many { (t : Tokens) → length t.pieces.list ≡ length t.list }
{}
