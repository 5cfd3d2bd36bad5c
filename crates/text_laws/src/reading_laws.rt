//! Laws of the grammars of model texts and of certificates, and of what texts read as. The functions have empty bodies: what they
//! ensure holds of all tokens and texts.

ghost use Rattle.std.specs.Prelude.{◌≡◌, ◌⊎◌, ◌++◌, ℕ, ◌≤◌, List, length, None};
ghost use Rattle.sig_base.specs.declared.limits.TheConstants.{TEXT_MAX, DOCUMENT_MAX};
ghost use Rattle.model_core.specs.EventGraph.{EventGraph};
ghost use Rattle.model_core.specs.Static.Reading.{Reads, ReadsDocument};
ghost use Rattle.model_core.specs.Text.Lexing.{Lexeme};
ghost use Rattle.model_core.specs.Text.Written.{WrittenModel};
ghost use Rattle.model_core.specs.Text.Language.{text_format, IsText, BeginsWithText};
ghost use Rattle.model_core.specs.Text.FirstWrong.{FirstWrong, IsUnexpectedAt};
ghost use Rattle.model_core.specs.Text.Openings.{front_to_end, too_deep_at, HasFewOpenings};
ghost use Rattle.model_core.specs.Text.ModelText.{SpellsText};
ghost use Rattle.model_core.specs.Text.CertificateText.{IsCertificate, IsNoCertificateAt};
ghost use Rattle.model_core.specs.Rules.Reduction.{RuleApplication};

/// Tokens spell one text at most, and whether they spell one is decided. Where they don't, there is one first wrong place.
pub fn texts_have_one_reading()
    ensures one_reading { (tokens : List Lexeme) (m n : WrittenModel) → IsText tokens m
        → IsText tokens n → m ≡ n }
    ensures one_model { (text : List ℕ) (m n : WrittenModel) → SpellsText text m → SpellsText text n
        → m ≡ n }
    ensures one_front { (tokens : List Lexeme) (m n : WrittenModel) (left rest : List Lexeme)
        → BeginsWithText tokens m left → BeginsWithText tokens n rest → (m ≡ n) × (left ≡ rest) }
    ensures spelled_or_unexpected { (text : List ℕ) (tokens : List Lexeme)
        → ((m : WrittenModel) × IsText tokens m) ⊎ ((at : ℕ) × IsUnexpectedAt text tokens at) }
    ensures one_first_wrong { (tokens r s : List Lexeme) → FirstWrong text_format tokens r
        → FirstWrong text_format tokens s → r ≡ s }
    ensures one_place { (text : List ℕ) (tokens : List Lexeme) (i j : ℕ)
        → IsUnexpectedAt text tokens i → IsUnexpectedAt text tokens j → i ≡ j }
{}

/// Tokens begin with a text exactly where they are one up to and with their first word `end`, and where they aren't one so
/// far, the first wrong token is the same.
pub fn texts_end_with_their_word()
    ensures text_is_front { (tokens : List Lexeme) (m : WrittenModel) (left : List Lexeme)
        → BeginsWithText tokens m left
        → (tokens ≡ front_to_end tokens ++ left) × IsText (front_to_end tokens) m }
    ensures front_is_text { (tokens : List Lexeme) (m : WrittenModel) (left : List Lexeme)
        → tokens ≡ front_to_end tokens ++ left → IsText (front_to_end tokens) m
        → BeginsWithText tokens m left }
    ensures wrong_in_front { (tokens rest : List Lexeme)
        → ((m : WrittenModel) → IsText (front_to_end tokens) m → ⊥)
        → FirstWrong text_format tokens rest
        → FirstWrong text_format (front_to_end tokens) (front_to_end rest) }
{}

/// No opening is one too many exactly where each part has at most as many as the limit.
pub fn openings_have_a_limit()
    ensures none { (limit : ℕ) (tokens : List Lexeme) → too_deep_at limit tokens ≡ None
        → HasFewOpenings limit tokens }
    ensures none_too_deep { (limit : ℕ) (tokens : List Lexeme) → HasFewOpenings limit tokens
        → too_deep_at limit tokens ≡ None }
{}

/// Tokens are one certificate at most, and whether they are one is decided. Where they aren't, there is one first wrong
/// place.
pub fn certificates_have_one_reading()
    ensures one_certificate { (tokens : List Lexeme) (a b : List RuleApplication)
        → IsCertificate tokens a → IsCertificate tokens b → a ≡ b }
    ensures certificate_or_none { (text : List ℕ) (tokens : List Lexeme)
        → ((a : List RuleApplication) × IsCertificate tokens a)
        ⊎ ((at : ℕ) × IsNoCertificateAt text tokens at) }
    ensures one_wrong_place { (text : List ℕ) (tokens : List Lexeme) (i j : ℕ)
        → IsNoCertificateAt text tokens i → IsNoCertificateAt text tokens j → i ≡ j }
{}

/// A text reads as one model at most.
pub fn texts_read_as_one_model()
    ensures { (text : List ℕ) (g h : EventGraph) → Reads text g → Reads text h → g ≡ h }
{}

/// A text that reads as a model, and a document that reads as two, are within their limits.
pub fn what_reads_is_within_its_limit()
    ensures text { (text : List ℕ) (g : EventGraph) → Reads text g → length text ≤ TEXT_MAX }
    ensures document { (text : List ℕ) (original : EventGraph)
        (applications : List RuleApplication) (reduced : EventGraph)
        → ReadsDocument text original applications reduced → length text ≤ DOCUMENT_MAX }
{}
