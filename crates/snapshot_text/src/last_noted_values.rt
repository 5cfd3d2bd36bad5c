//! The values of the last `at` note in a snapshot, if all that the snapshot says of them is good.

ghost use Rattle.std.specs.Prelude.{◌≡◌};
ghost use Rattle.std.specs.Option.{option_map};
ghost use Rattle.model_core.specs.Code.Views.{graph_of};
ghost use Rattle.model_core.specs.Text.SnapshotGrammar.{WrittenNoted};
ghost use Rattle.model_core.specs.Saved.GoodSnapshots.{signed_values, noted_parts};
ghost use Rattle.snapshot_text.specs.Inner.Judging.{Judged};
ghost use Rattle.snapshot_text.specs.Inner.RawParts.{written_noted};

use crate::parts::{RawNoted, written_values};
use crate::snapshot_error::SnapshotError;
use crate::values::watched_values_of;
use model_core::Model;
use sig_base::List;
use std::alloc::Global;

/// The values that were noted last, if any are written.
#[tactic(auto, using(crate::proofs::WrittenValues::map_written))]
pub(crate) fn noted_of(
    alloc: Global,
    model: &Model,
    noted: &Option<RawNoted>,
) -> Result<Option<List<i64>>, SnapshotError>
    ensures { Judged result (noted_parts (graph_of model.now) (option_map written_noted noted.now))
        (λ found. found
        ≡ option_map (λ (n : WrittenNoted). signed_values n.values)
        (option_map written_noted noted.now)) }
{
    let Some(raw) = noted else {
        return Ok(None);
    };
    match watched_values_of(alloc, model, written_values(&raw.values))? {
        Some(values) => Ok(Some(values)),
        None => Err(SnapshotError::Bad { at: raw.at }),
    }
}
