//! The numbers that are kept of who uses a variable, by calls that count one change or one edge:
//! they are those that the definitions of uses give.

ghost use Rattle.std.specs.Prelude.{◌≡◌, ◌<◌, cond, length, IfOk};
ghost use Rattle.model_core.specs.Code.Views.{change_of, edge_of};
ghost use Rattle.model_core.specs.Rules.MarkedPlaces.{is_among};
ghost use Rattle.model_core.specs.Rules.Uses.{change_reads, change_writes, edge_reads};

use model_core::{Change, Edge, Model};
use sig_base::NoMemory;
use std::alloc::Global;
use use_analysis::UseCounts;

/// Of one change each variable that it writes has one setter, and each that it reads one reader;
/// the others have none.
pub fn one_change_counts(
    alloc: Global,
    model: &Model,
    change: &Change,
    var: usize,
) -> Result<(u64, u64), NoMemory>
    ensures { var < length model.now.vars → IfOk result (λ (readers, setters).
        (readers ≡ cond (is_among (change_reads (change_of change.now)) var) 1 0)
        × (setters ≡ cond (is_among (change_writes (change_of change.now)) var) 1 0)) }
{
    let mut counts = UseCounts::begin(alloc, model)?;
    counts.add_change(change);
    Ok((counts.readers(var), counts.setters(var)))
}

/// Of one edge each variable that it reads has one reader, and none has a setter.
pub fn one_edge_counts(
    alloc: Global,
    model: &Model,
    edge: &Edge,
    var: usize,
) -> Result<(u64, u64), NoMemory>
    ensures { var < length model.now.vars → IfOk result (λ (readers, setters).
        (readers ≡ cond (is_among (edge_reads (edge_of edge.now)) var) 1 0) × (setters ≡ 0)) }
{
    let mut counts = UseCounts::begin(alloc, model)?;
    counts.add_edge(edge);
    Ok((counts.readers(var), counts.setters(var)))
}
