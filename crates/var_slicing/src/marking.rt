//! Which variables are needed, and which aren't.

ghost use Rattle.std.specs.Prelude.{◌≡◌, [], IfOk};
ghost use Rattle.model_core.specs.Rules.Entailed.{entailed_marks};
ghost use Rattle.model_core.specs.Rules.Needed.{needed_marks, unneeded};
ghost use Rattle.model_core.specs.Code.Views.{graph_of};
ghost use Rattle.var_slicing.specs.Inner.Needing.{collected_of, all_needs};
ghost use Rattle.var_slicing.specs.Inner.MarkedTwice.{marked_with_faults};
ghost use Rattle.var_slicing.specs.Inner.Unwatched.{unwatched};

use crate::faults::add_faulting;
use crate::linking::{Links, lists_by_place};
use crate::needs::{Needs, add_watched};
use crate::streams::add_stream_pairs;
use marked_walks::{entailed, unmarked};
use model_core::Model;
use sig_base::{List, NoMemory};
use std::alloc::Global;

/// For each of so many variables whether it is one of these.
fn marks_of(alloc: Global, count: usize, vars: &[usize]) -> Result<Vec<bool>, NoMemory>
    ensures { IfOk result (λ marks. marks.items ≡ entailed_marks count vars.now []) }
{
    let next = lists_by_place(alloc, count, &[])?;
    entailed(alloc, vars, &next)
}

/// What is needed at once but for what may fault, and pairs that lead from it.
fn all_needs(alloc: Global, model: &Model) -> Result<Needs, NoMemory>
    ensures { IfOk result (λ needs. collected_of needs ≡ all_needs (graph_of model.now)) }
{
    let mut needs = Needs::at_once(alloc, model)?;
    let marks = marks_of(alloc, model.vars.len(), needs.first.as_slice())?;
    needs.add_parts(model, marks.as_slice())?;
    Ok(needs)
}

/// Marks what follows from the first variables, and once more with those that aren't marked then and where something may
/// fault. Bounds are dear, so what is needed anyway isn't asked for them, and nothing is where all is needed.
fn marked_with_faults(
    alloc: Global,
    model: &Model,
    first: &mut Vec<usize>,
    next: &Links,
) -> Result<Vec<bool>, NoMemory>
    ensures { IfOk result
        (λ marks. marks.items
        ≡ marked_with_faults (graph_of model.now) next.now.lists.items first.old.items) }
{
    let marks = entailed(alloc, first.as_slice(), next)?;
    if !marks.as_slice().contains(&false) {
        return Ok(marks);
    }
    let found = first.len();
    add_faulting(first, marks.as_slice(), model, model.vertices.as_slice())?;
    if first.len() == found {
        return Ok(marks);
    }
    entailed(alloc, first.as_slice(), next)
}

/// For each variable whether it is needed. The model is gone over for the variables that are needed at once and for pairs of
/// one and another that is read for it. A variable that is found is marked and waits, once; when its turn comes the variables
/// that are read for it are found, each pair once.
pub(crate) fn needed(alloc: Global, model: &Model) -> Result<Vec<bool>, NoMemory>
    ensures { IfOk result (λ marks. marks.items ≡ needed_marks (graph_of model.now)) }
{
    let mut needs = all_needs(alloc, model)?;
    let count = model.vars.len();
    add_stream_pairs(alloc, &mut needs.pairs, needs.draws.as_slice(), count)?;
    let next = lists_by_place(alloc, count, needs.pairs.as_slice())?;
    marked_with_faults(alloc, model, &mut needs.first, &next)
}

/// The variables that aren't watched: their places from 0, in the order of declaration.
fn unwatched(alloc: Global, model: &Model) -> Result<List<usize>, NoMemory>
    ensures { IfOk result (λ vars. vars ≡ unwatched (graph_of model.now)) }
{
    let mut watched = Vec::new(alloc);
    add_watched(&mut watched, model.watch.as_slice())?;
    let marks = marks_of(alloc, model.vars.len(), watched.as_slice())?;
    unmarked(alloc, marks.as_slice())
}

/// The variables that aren't needed: their places from 0, in the order of declaration. Those that are needed are found from a
/// list of the newly found, and each use of a variable is visited once, when that variable's turn comes. Where all variables
/// are watched, nothing is looked for.
pub fn unneeded(alloc: Global, model: &Model) -> Result<List<usize>, NoMemory>
    ensures { IfOk result (λ vars. vars ≡ unneeded (graph_of model.now)) }
{
    let unwatched = unwatched(alloc, model)?;
    if unwatched.len() == 0 {
        return Ok(unwatched);
    }
    let marks = needed(alloc, model)?;
    unmarked(alloc, marks.as_slice())
}
