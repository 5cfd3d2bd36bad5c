//! All pairs of vertices that are in conflict.

ghost use Rattle.std.specs.Prelude.{◌≡◌, ◌<◌, ◌++◌, length, IfOk, OnOk};
ghost use Rattle.model_core.specs.Code.Views.{graph_of};
ghost use Rattle.model_core.specs.Conflicts.ConflictPairs.{conflicts_from, conflict_pairs};
ghost use Rattle.conflict_report.specs.Inner.ReasonsFound.{NotedBefore, pair_with};

use crate::conflict_tables::{ConflictTables, Partners};
use model_core::{Model, Pair};
use sig_base::{List, NoMemory};
use std::alloc::Global;

/// Adds the pair of the vertex `a`, of which these are the partners, and the vertex `b`, where they are in conflict.
fn add_if(pairs: &mut List<Pair>, partners: &Partners, a: usize, b: usize) -> Result<(), NoMemory>
    ensures { OnOk result (pairs.new ≡ pairs.old ++ pair_with partners.now a b) }
{
    let reasons = partners.reasons(b);
    if reasons.is_conflict() {
        pairs.push(Pair { a, b, reasons })
    } else {
        Ok(())
    }
}

/// Adds the pairs of a vertex with itself and with those after it.
fn add_from(
    pairs: &mut List<Pair>,
    alloc: Global,
    model: &Model,
    tables: &ConflictTables,
    a: usize,
) -> Result<(), NoMemory>
    requires tables { NotedBefore (graph_of model.now)
        (length (graph_of model.now).vertices) tables.now }
    requires exists { a < length (graph_of model.now).vertices }
    ensures { OnOk result (pairs.new ≡ pairs.old ++ conflicts_from (graph_of model.now) a) }
{
    let partners = tables.partners(alloc, a)?;
    for b in a..model.vertices.len() {
        add_if(pairs, &partners, a, b)?;
    }
    Ok(())
}

/// All pairs of vertices in conflict, by the place of the first and then by that of the second, which isn't before it.
pub fn conflict_list(alloc: Global, model: &Model) -> Result<List<Pair>, NoMemory>
    ensures { IfOk result (λ pairs. pairs ≡ conflict_pairs (graph_of model.now)) }
{
    let tables = ConflictTables::of(alloc, model)?;
    let mut pairs = List::new(alloc);
    for a in 0..model.vertices.len() {
        add_from(&mut pairs, alloc, model, &tables, a)?;
    }
    Ok(pairs)
}
