//! Merge: an event that always schedules a second one at once does what the second does as well.

ghost use Rattle.std.specs.Prelude.{◌≡◌, true, Some, None, length, OnOk, OnErr, IfErr};
ghost use Rattle.model_core.specs.Text.Canonical.{canonical};
ghost use Rattle.model_core.specs.Rules.Conditions.{first_failed};
ghost use Rattle.model_core.specs.Rules.RefusedCondition.{NamesCondition};
ghost use Rattle.model_core.specs.Rules.Merge.{merge_conditions, merged};
ghost use Rattle.model_core.specs.Code.Views.{graph_of};
ghost use Rattle.merge_rules.specs.Growth.{bytes_leaving};
ghost use Rattle.merge_rules.specs.Hollowed.{merged_leaving};
ghost use Rattle.model_facts.specs.FactsOfModel.{FactsAreRight, text_length};
ghost use Rattle.model_facts.specs.NothingCounted.{NothingCounted};

use crate::conditions::failed_before_limits;
use crate::growth::{grows_by, merged_body};
use crate::reads_written::ReadsWritten;
use crate::taking_over::{SecondVertex, put_together};
use crate::within_limits::{is_within_limits, merged_length, urgent_place};
use model_core::{Model, RuleError};
use model_facts::{FactsOfModel, version_length};
use sig_base::NoMemory;
use std::alloc::Global;
use use_analysis::UseCounts;

/// The first condition of merge that fails, by its number from 1. What is found of the model on the way is known then.
pub(crate) fn failed_merge<R: ReadsWritten>(
    model: &Model,
    facts: &mut FactsOfModel,
    readers: &mut R,
    first: usize,
    second: usize,
) -> Option<u8>
    requires facts { FactsAreRight (graph_of model.now) facts.old }
    requires ready { R.ready readers.old (length model.now.vars) }
    ensures failed { result ≡ first_failed (merge_conditions (graph_of model.now) first second) }
    ensures facts { FactsAreRight (graph_of model.now) facts.new }
    ensures same { readers.new ≡ readers.old }
{
    let single = facts.find_single(model);
    if let Some(condition) = failed_before_limits(model, single, None, readers, first, second) {
        return Some(condition);
    }
    if is_within_limits(model, facts, first, second) {
        None
    } else {
        Some(8)
    }
}

/// How many of so many bytes of its changes and edges the second vertex gives away.
fn bytes_leaving(second: SecondVertex, body: u64) -> u64
    ensures { result ≡ bytes_leaving second body }
{
    match second {
        SecondVertex::Stays => 0,
        SecondVertex::GivesAway => body,
    }
}

/// Does what `merge_measured` does, where no condition of merge fails.
pub fn merge_holding(
    alloc: Global,
    model: &mut Model,
    facts: &mut FactsOfModel,
    vertex: usize,
    target: usize,
    second: SecondVertex,
) -> Result<(), NoMemory>
    requires facts { FactsAreRight (graph_of model.old) facts.old }
    requires holds { first_failed (merge_conditions (graph_of model.old) vertex target) ≡ None }
    ensures done { OnOk result
        (graph_of model.new ≡ merged_leaving second (graph_of model.old) vertex target) }
    ensures unchanged { OnErr result (graph_of model.new ≡ graph_of model.old) }
    ensures facts { FactsAreRight (graph_of model.new) facts.new }
    ensures measured { OnOk result
        ((text_length facts.new ≡ Some (length (canonical (graph_of model.new))))
        × (facts.new.single ≡ Some true)) }
{
    let body = facts.find_body(model, target);
    let grows = grows_by(model, vertex, target, body);
    let joined = merged_body(facts, model, vertex, target, grows);
    let version = version_length(facts.find_version(model));
    let bytes = merged_length(model, facts.text_length(), vertex, target, grows);
    let place = urgent_place(&model.vertices.as_slice()[vertex]);
    put_together(alloc, model, vertex, place, target, second)?;
    let gone = bytes_leaving(second, body);
    facts.lines = Some(bytes - gone - version);
    facts.single = Some(true);
    facts.bodies.put(vertex, joined);
    facts.bodies.put(target, Some(body - gone));
    Ok(())
}

/// Does what `merge` does, or leaves of the second vertex what is asked for. It takes what is known of the model, and gives what
/// is known then: of a result how many bytes its canonical text has, and that it is single urgent. The counts, in which nothing
/// is counted, serve to find what edges read; they are given back as they were.
pub fn merge_measured(
    alloc: Global,
    model: &mut Model,
    facts: &mut FactsOfModel,
    counts: &mut UseCounts,
    vertex: usize,
    target: usize,
    second: SecondVertex,
) -> Result<(), RuleError>
    requires facts { FactsAreRight (graph_of model.old) facts.old }
    requires counts { NothingCounted (length model.old.vars) counts.old }
    ensures done { OnOk result
        ((first_failed (merge_conditions (graph_of model.old) vertex target) ≡ None)
        × (graph_of model.new ≡ merged_leaving second (graph_of model.old) vertex target)) }
    ensures refused { IfErr result
        (λ e. NamesCondition e
        (first_failed (merge_conditions (graph_of model.old) vertex target))) }
    ensures unchanged { OnErr result (graph_of model.new ≡ graph_of model.old) }
    ensures facts { FactsAreRight (graph_of model.new) facts.new }
    ensures measured { OnOk result
        ((text_length facts.new ≡ Some (length (canonical (graph_of model.new))))
        × (facts.new.single ≡ Some true)) }
    ensures counts { counts.new ≡ counts.old }
{
    if let Some(condition) = failed_merge(model, facts, counts, vertex, target) {
        return Err(RuleError::Refused { condition });
    }
    merge_holding(alloc, model, facts, vertex, target, second)?;
    Ok(())
}

/// Makes a vertex do what a second one does, which its plain urgent edge schedules at once, in place of that edge: its
/// changes are followed by a `set` of the second one's parameters, where it has any, and by the second one's changes, and
/// its other edges by the second one's. The second one stays. Both are given by their places from 0.
pub fn merge(
    alloc: Global,
    model: &mut Model,
    vertex: usize,
    target: usize,
) -> Result<(), RuleError>
    ensures done { OnOk result
        ((first_failed (merge_conditions (graph_of model.old) vertex target) ≡ None)
        × (graph_of model.new ≡ merged (graph_of model.old) vertex target)) }
    ensures refused { IfErr result
        (λ e. NamesCondition e
        (first_failed (merge_conditions (graph_of model.old) vertex target))) }
    ensures unchanged { OnErr result (graph_of model.new ≡ graph_of model.old) }
{
    let mut counts = UseCounts::begin(alloc, model)?;
    merge_measured(
        alloc,
        model,
        &mut FactsOfModel::nothing(),
        &mut counts,
        vertex,
        target,
        SecondVertex::Stays,
    )
}
