//! The reader of certificates for those who have the tokens as a list: what is read are the pieces beside them.

ghost use Rattle.std.specs.Prelude.{◌≡◌, ◌≤◌, ℕ, drop, length, map, IfOk, Err};
ghost use Rattle.model_core.specs.Code.Views.{application_of};
ghost use Rattle.model_core.specs.Text.CertificateText.{IsCertificate, IsNoCertificateAt};
ghost use Rattle.model_lex.specs.Lexemes.{lexemes};

use crate::reading::read_certificate_pieces;
use model_core::Application;
use model_lex::{ParseError, Tokens, pieces_are_the_tokens};
use sig_base::List;
use std::alloc::Global;

/// Reads the tokens from a place on, which all together must be one certificate, as its applications. A place is here the
/// number of tokens before it.
///
/// `Unexpected` has the first byte from which no continuation makes a certificate: that of a token, or the text's length.
/// No openings are counted.
pub fn read_certificate(
    alloc: Global,
    tokens: &Tokens<'_>,
    from: usize,
) -> Result<List<Application>, ParseError>
    requires { from ≤ length tokens.now.list }
    // What is read is a certificate of these applications.
    ensures ok { IfOk result
        (λ applications. IsCertificate (drop from (lexemes tokens.now))
        (map application_of applications)) }
    // What is refused is none, and this is where the tokens stop to begin one.
    ensures unexpected { (at : ℕ) → result ≡ Err (ParseError.Unexpected at)
        → IsNoCertificateAt tokens.now.text.now (drop from (lexemes tokens.now)) at }
    ensures never_too_deep { (at : ℕ) → result ≡ Err (ParseError.TooDeep at) → ⊥ }
{
    pieces_are_the_tokens();
    read_certificate_pieces(alloc, &tokens.pieces, from)
}
