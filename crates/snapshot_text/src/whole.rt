//! Reads a snapshot for a model.

ghost use Rattle.std.specs.Prelude.{◌≡◌, ◌≤◌, ℕ, drop, length, Some, None, Err, IfOk};
ghost use Rattle.std.specs.List.{AllByRecursion};
ghost use Rattle.sig_base.specs.declared.limits.TheConstants.{PARAMETERS_MAX};
ghost use Rattle.model_core.specs.EventGraph.{EventVertex};
ghost use Rattle.model_core.specs.Code.Views.{graph_of};
ghost use Rattle.model_core.specs.Text.SnapshotGrammar.{WrittenSnapshot, IsSnapshot};
ghost use Rattle.model_core.specs.Saved.GoodSnapshots.{bad_at, saved_run};
ghost use Rattle.model_lex.specs.PiecesOfText.{pieces_lexemes};

use crate::judging::judged;
use crate::laws::snapshots_have_one_reading;
use crate::reading::raw_snapshot;
use crate::snapshot::Snapshot;
use crate::snapshot_error::SnapshotError;
use model_core::Model;
use model_lex::Pieces;
use std::alloc::Global;

/// Reads the pieces from a place on, which all together are one snapshot, as `snapshot_fault_pieces` says: the saved run
/// that it spells, if it is good for the model. A place is here the number of pieces before it; no vertex of the model
/// has more parameters than the limit.
pub fn read_snapshot_pieces(
    alloc: Global,
    model: &Model,
    pieces: &Pieces<'_>,
    from: usize,
) -> Result<Snapshot, SnapshotError>
    requires parameters_fit { AllByRecursion
        (λ (v : EventVertex). length v.parameters ≤ PARAMETERS_MAX)
        (graph_of model.now).vertices }
    requires spelled { (w : WrittenSnapshot)
        × IsSnapshot (drop from (pieces_lexemes pieces.now)) w }
    // The snapshot is good, and spells this saved run.
    ensures good { IfOk result
        (λ snapshot. (w : WrittenSnapshot) → IsSnapshot (drop from (pieces_lexemes pieces.now)) w
        → (bad_at (graph_of model.now) w ≡ None) × (snapshot ≡ saved_run (graph_of model.now) w)) }
    // The snapshot isn't good, and its first part that breaks a rule begins here.
    ensures bad { (at : ℕ) → result ≡ Err (SnapshotError.Bad at) → (w : WrittenSnapshot)
        → IsSnapshot (drop from (pieces_lexemes pieces.now)) w
        → bad_at (graph_of model.now) w ≡ Some at }
{
    snapshots_have_one_reading();
    let raw = raw_snapshot(alloc, pieces, from)?;
    judged(alloc, model, &raw)
}
