//! The calls on whole snapshots for callers that have the tokens as a list: they read the pieces beside them.

ghost use Rattle.std.specs.Prelude.{◌≡◌, ◌≤◌, ℕ, drop, length, Some, None, Err, IfOk};
ghost use Rattle.std.specs.List.{AllByRecursion};
ghost use Rattle.sig_base.specs.declared.limits.TheConstants.{PARAMETERS_MAX};
ghost use Rattle.model_core.specs.EventGraph.{EventVertex};
ghost use Rattle.model_core.specs.Code.Views.{graph_of};
ghost use Rattle.model_core.specs.Text.SnapshotGrammar.{WrittenSnapshot, IsSnapshot, IsNoSnapshotAt};
ghost use Rattle.model_core.specs.Saved.GoodSnapshots.{bad_at, saved_run};
ghost use Rattle.model_lex.specs.Lexemes.{lexemes};

use crate::skimming::snapshot_fault_pieces;
use crate::snapshot::Snapshot;
use crate::snapshot_error::SnapshotError;
use crate::whole::read_snapshot_pieces;
use model_core::Model;
use model_lex::{Tokens, pieces_are_the_tokens};
use std::alloc::Global;

/// Where the tokens from a place on stop to begin a snapshot, and `None` exactly where they all together are one. A
/// place is here the number of tokens before it; the byte named is the first from which no continuation makes a
/// snapshot: that of a token, or the text's length. No openings are counted.
pub fn snapshot_fault(tokens: &Tokens<'_>, from: usize) -> Option<usize>
    ensures none { result ≡ None
        → (w : WrittenSnapshot) × IsSnapshot (drop from (lexemes tokens.now)) w }
    ensures some { (at : ℕ) → result ≡ Some at
        → IsNoSnapshotAt tokens.now.text.now (drop from (lexemes tokens.now)) at }
{
    pieces_are_the_tokens();
    snapshot_fault_pieces(&tokens.pieces, from)
}

/// Reads the tokens from a place on, which all together are one snapshot, as `snapshot_fault` says: the saved run that
/// it spells, if it is good for the model. A place is here the number of tokens before it; no vertex of the model has
/// more parameters than the limit.
pub fn read_snapshot(
    alloc: Global,
    model: &Model,
    tokens: &Tokens<'_>,
    from: usize,
) -> Result<Snapshot, SnapshotError>
    requires parameters_fit { AllByRecursion
        (λ (v : EventVertex). length v.parameters ≤ PARAMETERS_MAX)
        (graph_of model.now).vertices }
    requires spelled { (w : WrittenSnapshot) × IsSnapshot (drop from (lexemes tokens.now)) w }
    // The snapshot is good, and spells this saved run.
    ensures good { IfOk result
        (λ snapshot. (w : WrittenSnapshot) → IsSnapshot (drop from (lexemes tokens.now)) w
        → (bad_at (graph_of model.now) w ≡ None) × (snapshot ≡ saved_run (graph_of model.now) w)) }
    // The snapshot isn't good, and its first part that breaks a rule begins here.
    ensures bad { (at : ℕ) → result ≡ Err (SnapshotError.Bad at) → (w : WrittenSnapshot)
        → IsSnapshot (drop from (lexemes tokens.now)) w → bad_at (graph_of model.now) w ≡ Some at }
{
    pieces_are_the_tokens();
    read_snapshot_pieces(alloc, model, &tokens.pieces, from)
}
