//! Laws of printing and reading back: the models, certificates and documents that a text spells can be written again. The
//! functions have empty bodies.
#![tactic(auto)]

ghost use Rattle.std.specs.Prelude.{◌≡◌, ◌↔◌, ◌++◌, ℕ, List, length, Some, Ok};
ghost use Rattle.std.specs.List.{AllByRecursion};
ghost use Rattle.model_core.specs.EventGraph.{EventGraph};
ghost use Rattle.model_core.specs.Rules.Reduction.{RuleApplication};
ghost use Rattle.model_core.specs.Rules.Certificate.{certificate};
ghost use Rattle.model_core.specs.Text.Lexing.{Lexeme, tokens_from, tokens_of};
ghost use Rattle.model_core.specs.Text.CertificateText.{IsCertificate};
ghost use Rattle.model_core.specs.Text.Written.{WrittenModel};
ghost use Rattle.model_core.specs.Text.Numbering.{numbered};
ghost use Rattle.model_core.specs.Text.Canonical.{canonical};
ghost use Rattle.model_core.specs.Text.ModelText.{SpellsText};
ghost use Rattle.model_core.specs.Text.DocumentText.{BeginsWithModel};
ghost use Rattle.model_core.specs.Static.ModelFaults.{Accepted};
ghost use Rattle.model_core.specs.Static.OwnRules.{KeepsStaticRules};
ghost use Rattle.model_core.specs.Static.Reading.{Reads, IsValid, ReadsDocument};
ghost use Rattle.model_core.specs.Static.WrittenByKind.{VariablesByKind};
ghost use Rattle.model_core.specs.Text.Spellable.{IsSpellable, ReadsBack, SpellableApplication};
ghost use Rattle.static_laws.specs.FitsVersion.{FitsVersion};

/// The model that a text spells is one that a text can write, and keeps its limit on openings in its canonical text too.
pub fn spelled_models_are_spellable()
    ensures spellable { (text : List ℕ) (w : WrittenModel) (g : EventGraph) → SpellsText text w
        → numbered w ≡ Some g → IsSpellable g }
{}

/// The canonical text of a model that a text can write spells that model, where each name is declared once and truth
/// values begin as false or true. Each variable is written there as its kind has it, and the text is of a version that can
/// write the model.
pub fn canonical_texts_read_back()
    ensures read_back { (g : EventGraph) → IsSpellable g → ReadsBack g
        → (w : WrittenModel) × SpellsText (canonical g) w × (numbered w ≡ Some g)
        × VariablesByKind w × FitsVersion w.version g }
{}

/// A model is valid exactly where it keeps the static rules by itself and its parts are what a text can write. The canonical
/// text of a valid model reads back as that model.
pub fn validity_is_by_parts()
    ensures by_parts { (g : EventGraph) → IsValid g ↔ KeepsStaticRules g × IsSpellable g }
    ensures reads_back { (g : EventGraph) → IsValid g → Reads (canonical g) g }
{}

/// The canonical text of a valid model, at the front of any text whose other tokens are known, reads as that model.
pub fn canonical_texts_read_in_front()
    ensures { (g : EventGraph) (rest : List ℕ) (left : List Lexeme) → KeepsStaticRules g
        → IsSpellable g → tokens_from (length (canonical g)) 0 rest ≡ Ok left
        → (w : WrittenModel) × (tokens : List Lexeme)
        × (tokens_of (canonical g ++ rest) ≡ Ok tokens) × BeginsWithModel tokens w left
        × Accepted w g }
{}

/// The certificate of applications that a certificate can write reads back as these applications.
pub fn certificates_read_back()
    ensures { (applications : List RuleApplication)
        → AllByRecursion SpellableApplication applications
        → (tokens : List Lexeme) × (tokens_of (certificate applications) ≡ Ok tokens)
        × IsCertificate tokens applications }
{}

/// The two models that a document reads as are valid.
pub fn documents_have_valid_models()
    ensures original { (text : List ℕ) (g : EventGraph) (applications : List RuleApplication)
        (h : EventGraph) → ReadsDocument text g applications h → IsValid g }
    ensures reduced { (text : List ℕ) (g : EventGraph) (applications : List RuleApplication)
        (h : EventGraph) → ReadsDocument text g applications h → IsValid h }
{}
