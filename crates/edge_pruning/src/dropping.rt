//! Drop: the vertices that can't be reached, and the model without them.

ghost use Rattle.std.specs.Prelude.{◌≡◌, false, None, OnOk, OnErr, IfOk, IfErr};
ghost use Rattle.model_core.specs.Rules.Conditions.{first_failed};
ghost use Rattle.model_core.specs.Rules.RefusedCondition.{NamesCondition};
ghost use Rattle.model_core.specs.Rules.Reached.{unreached};
ghost use Rattle.model_core.specs.Rules.PlacedEdges.{with_place};
ghost use Rattle.model_core.specs.Rules.Drop.{drop_conditions, staying_marks, only_marked, dropped};
ghost use Rattle.model_core.specs.Code.Views.{graph_of};

use crate::walk::reached;
use marked_walks::{Staying, keep_staying, renumber_vertices, renumber_watch, unmarked};
use model_core::{Model, RuleError};
use sig_base::{List, NoMemory};
use std::alloc::Global;

/// The vertices that can't be reached over edges of any kind from the first vertex or a watched one: their places from
/// 0, in the order of the text.
pub fn unreached(alloc: Global, model: &Model) -> Result<List<usize>, NoMemory>
    ensures { IfOk result (λ vertices. vertices ≡ unreached (graph_of model.now)) }
{
    let marks = reached(alloc, model)?;
    unmarked(alloc, marks.as_slice())
}

/// Takes vertices away: exactly those that can't be reached, and one at least, by their places in the order of the text.
/// Those that stay are numbered anew.
pub fn drop_vertices(
    alloc: Global,
    model: &mut Model,
    vertices: &List<usize>,
) -> Result<(), RuleError>
    ensures done { OnOk result
        ((first_failed (drop_conditions (graph_of model.old) vertices.now) ≡ None)
        × (graph_of model.new ≡ dropped (graph_of model.old) vertices.now)) }
    ensures refused { IfErr result
        (λ e. NamesCondition e (first_failed (drop_conditions (graph_of model.old) vertices.now))) }
    ensures unchanged { OnErr result (graph_of model.new ≡ graph_of model.old) }
{
    if vertices.len() == 0 {
        return Err(RuleError::Refused { condition: 1 });
    }
    let marks = reached(alloc, model)?;
    let others = unmarked(alloc, marks.as_slice())?;
    if vertices.as_slice() != others.as_slice() {
        return Err(RuleError::Refused { condition: 2 });
    }
    keep_marked_vertices(alloc, model, marks)?;
    Ok(())
}

/// Marks of so many places, all but these.
fn marks_without(alloc: Global, count: usize, gone: &[usize]) -> Result<Vec<bool>, NoMemory>
    ensures { IfOk result (λ marks. marks.items ≡ staying_marks gone.now count) }
{
    let mut marks = Vec::from_elem(alloc, true, count)?;
    for place in gone {
        unmark(&mut marks, *place);
    }
    Ok(marks)
}

/// Takes the mark at a place away, if there is such a place.
fn unmark(marks: &mut Vec<bool>, place: usize)
    ensures { marks.new.items ≡ with_place (λ mark. false) place marks.old.items }
{
    if place < marks.len() {
        marks[place] = false;
    }
}

/// Does what `drop_vertices` does where it is known already which vertices can't be reached, so that they aren't sought again.
pub fn drop_unreached(
    alloc: Global,
    model: &mut Model,
    vertices: &List<usize>,
) -> Result<(), NoMemory>
    requires { vertices.now ≡ unreached (graph_of model.old) }
    ensures done { OnOk result (graph_of model.new ≡ dropped (graph_of model.old) vertices.now) }
    ensures unchanged { OnErr result (graph_of model.new ≡ graph_of model.old) }
{
    let marks = marks_without(alloc, model.vertices.len(), vertices.as_slice())?;
    keep_marked_vertices(alloc, model, marks)
}

/// Leaves the marked vertices alone, each at its new place.
fn keep_marked_vertices(alloc: Global, model: &mut Model, marks: Vec<bool>) -> Result<(), NoMemory>
    ensures done { OnOk result (graph_of model.new ≡ only_marked (graph_of model.old) marks.items) }
    ensures unchanged { OnErr result (graph_of model.new ≡ graph_of model.old) }
{
    let staying = Staying::of(alloc, marks)?;
    keep_staying_vertices(model, &staying);
    Ok(())
}

/// Leaves the vertices that stay alone, each at its new place.
fn keep_staying_vertices(model: &mut Model, staying: &Staying)
    ensures { graph_of model.new ≡ only_marked (graph_of model.old) staying.now }
{
    renumber_watch(staying, model.watch.as_mut_vec());
    renumber_vertices(staying, model.vertices.as_mut_vec());
    keep_staying(staying, model.vertices.as_mut_vec());
}
