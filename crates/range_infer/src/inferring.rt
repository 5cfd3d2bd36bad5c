//! Ranges that a model needs, found in rounds.

ghost use Rattle.std.specs.Prelude.{◌≡◌, length, map, IfOk};
ghost use Rattle.model_core.specs.Static.Reading.{IsValid};
ghost use Rattle.model_core.specs.Code.Views.{graph_of, vertex_of};
ghost use Rattle.model_core.specs.Ranges.Inductive.{Fitting, Inductive};
ghost use Rattle.model_core.specs.Ranges.Inference.{IsInferred};
ghost use Rattle.range_infer.specs.Inner.PartReads.{parts_read};
ghost use Rattle.range_infer.specs.Inner.Readers.{readers_in};

use crate::collecting::{incoming, taken_by_moved_readers};
use crate::law::rounds_end_with_inductive_ranges;
use crate::moved_ranges::same_ranges;
use crate::part_reads::{VertexReads, all_parts_read};
use crate::readers::{PartPlace, all_readers};
use crate::rounds::{first_ranges, next_round};
use model_core::{Model, VarRange};
use round_trip::validity_is_by_parts;
use sig_base::{List, NoMemory};
use std::alloc::Global;

/// An end that a round after these would move goes to its declared end.
const EARLY_ROUNDS: usize = 16;

/// The ranges that a model's rounds end with, where its parts read this. The first round looks at all parts, and each other
/// one at those that read a variable whose range the round before moved.
fn make_rounds(
    alloc: Global,
    model: &Model,
    reads: &[VertexReads],
    readers: &[List<PartPlace>],
) -> Result<List<VarRange>, NoMemory>
    requires valid { IsValid (graph_of model.now) }
    requires reads { reads.now ≡ map parts_read (map vertex_of model.now.vertices) }
    requires readers { readers.now ≡ readers_in (length model.now.vars) reads.now }
    ensures { IfOk result (IsInferred (graph_of model.now)) }
{
    validity_is_by_parts();
    let mut ranges = first_ranges(alloc, model)?;
    let mut takes = incoming(alloc, model, reads, ranges.as_slice())?;
    let mut rounds = 0;
    loop {
        let late = EARLY_ROUNDS <= rounds;
        let before = ranges.as_slice();
        let next = next_round(alloc, model, late, before, takes.as_slice())?;
        let after = next.as_slice();
        if same_ranges(after, before) {
            return Ok(List::from_vec(ranges));
        }
        takes = taken_by_moved_readers(alloc, model, reads, readers, before, after)?;
        ranges = next;
        rounds += 1;
    }
}

/// The ranges that a model's rounds end with. They fit it, and no run leaves them.
pub fn infer(alloc: Global, model: &Model) -> Result<List<VarRange>, NoMemory>
    requires { IsValid (graph_of model.now) }
    ensures inferred { IfOk result (IsInferred (graph_of model.now)) }
    ensures fitting { IfOk result (Fitting (graph_of model.now)) }
    ensures inductive { IfOk result (Inductive (graph_of model.now)) }
{
    rounds_end_with_inductive_ranges();
    let reads = all_parts_read(alloc, model)?;
    let readers = all_readers(alloc, model.vars.len(), reads.as_slice())?;
    make_rounds(alloc, model, reads.as_slice(), readers.as_slice())
}
