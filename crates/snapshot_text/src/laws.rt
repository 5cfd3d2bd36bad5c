//! Laws of the text of a snapshot. The functions do nothing: what they ensure holds of all tokens and saved runs.

ghost use Rattle.std.specs.Prelude.{◌≡◌, ◌⊎◌, ◌++◌, ℕ, List, None, Ok};
ghost use Rattle.model_core.specs.EventGraph.{EventGraph};
ghost use Rattle.model_core.specs.Text.Lexing.{Lexeme, tokens_from};
ghost use Rattle.model_core.specs.Text.Written.{WrittenModel};
ghost use Rattle.model_core.specs.Text.Canonical.{canonical};
ghost use Rattle.model_core.specs.Text.Spellable.{IsSpellable};
ghost use Rattle.model_core.specs.Static.OwnRules.{KeepsStaticRules};
ghost use Rattle.model_core.specs.Static.ModelFaults.{Accepted};
ghost use Rattle.model_core.specs.Saved.SavedRun.{SavedRun, IsGood};
ghost use Rattle.model_core.specs.Text.SnapshotText.{snapshot_text};
ghost use Rattle.model_core.specs.Saved.GoodSnapshots.{bad_at, saved_run};
ghost use Rattle.model_core.specs.Text.SavedDocument.{SpellsSaved};
ghost use Rattle.model_core.specs.Text.SnapshotGrammar.{WrittenSnapshot, IsSnapshot, IsNoSnapshotAt};

use round_trip::canonical_texts_read_in_front;

/// Tokens are one snapshot at most, and whether they are one is decided. Where they aren't, there is one first wrong
/// place.
pub fn snapshots_have_one_reading()
    ensures one_snapshot { (tokens : List Lexeme) (a b : WrittenSnapshot) → IsSnapshot tokens a
        → IsSnapshot tokens b → a ≡ b }
    ensures snapshot_or_none { (text : List ℕ) (tokens : List Lexeme)
        → ((a : WrittenSnapshot) × IsSnapshot tokens a)
        ⊎ ((at : ℕ) × IsNoSnapshotAt text tokens at) }
    ensures one_wrong_place { (text : List ℕ) (tokens : List Lexeme) (i j : ℕ)
        → IsNoSnapshotAt text tokens i → IsNoSnapshotAt text tokens j → i ≡ j }
{}

/// The text of a good saved run of a valid model, wherever it begins, is one snapshot, of which no part is bad, and
/// which spells that run.
pub fn saved_runs_read_back()
    ensures { (g : EventGraph) (s : SavedRun) (at : ℕ) → KeepsStaticRules g → IsSpellable g
        → IsGood g s
        → (tokens : List Lexeme) × (w : WrittenSnapshot)
        × (tokens_from at 0 (snapshot_text g s) ≡ Ok tokens) × IsSnapshot tokens w
        × (bad_at g w ≡ None) × (saved_run g w ≡ s) }
{}

/// A saved document reads back: the text of a valid model, followed by that of a good saved run.
pub fn saved_documents_read_back()
    ensures { (g : EventGraph) (s : SavedRun) → KeepsStaticRules g → IsSpellable g → IsGood g s
        → (m : WrittenModel) × (w : WrittenSnapshot)
        × SpellsSaved (canonical g ++ snapshot_text g s) m w × Accepted m g × (bad_at g w ≡ None)
        × (saved_run g w ≡ s) }
{
    canonical_texts_read_in_front();
    saved_runs_read_back();
}
