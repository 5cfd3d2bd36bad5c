//! The checker: whether a list of applications leads from one model to another.

ghost use Rattle.std.specs.Prelude.{◌≡◌, true, false, map, drop, length, cond, Ok, Some, None, OnOk, IfOk};
ghost use Rattle.model_core.specs.EventGraph.{EventGraph};
ghost use Rattle.model_core.specs.Code.Views.{graph_of, application_of};
ghost use Rattle.model_core.specs.Rules.Reduction.{Drop, Slice, applied, first_bad};
ghost use Rattle.model_core.specs.Rules.Verdict.{graph_reached, verdict};
ghost use Rattle.model_facts.specs.FactsOfModel.{FactsAreRight};
ghost use Rattle.model_facts.specs.NothingCounted.{NothingCounted};
ghost use Rattle.reduction_cert.specs.EdgeApplications.{application_by};
ghost use Rattle.reduction_cert.specs.VerdictView.{verdict_of};
ghost use Rattle.model_read.specs.NamesPlaced.{HasPlaces, names_of_vertices};
ghost use Rattle.reduction_cert.specs.Inner.DropApplications.{is_drop};
ghost use Rattle.reduction_cert.specs.Inner.MergeBeforeDrop.{MadeInEffect, MergeIsMade};

use crate::by_name::{all_named, edge_named, two_vertices_named};
use crate::chain_law::applications_add_no_variables;
use crate::looking_ahead::drops_alone;
use edge_pruning::{
    EdgeRule, drop_vertices, dropping_takes_no_notice_of_the_vertex, prune, settle,
};
use merge_rules::{SecondVertex, merge_measured};
use model_core::{Application, Model, copy_model, same_model, was_applied};
use model_facts::{
    FactsOfModel, keep_after_drop, keep_after_prune, keep_after_settle, new_counts_count_nothing,
};
use model_read::Places;
use sig_base::{List, Name, NoMemory};
use std::alloc::Global;
use use_analysis::UseCounts;
use var_slicing::slice;

/// What the checker says of a list of applications.
#[derive(Clone, Copy, Debug, PartialEq, Eq)]
pub enum Verdict {
    /// Each application names what the model then has and meets the conditions of its rule, and they lead to the reduced
    /// model.
    Sound,
    /// This application, counted from 1, is the first that doesn't.
    Rejected { line: usize },
    /// All do, but they lead to another model.
    Differs,
}

/// Whether the applications, in order, lead from the original model to the reduced one. Each is made on a copy of the
/// original, in place.
pub fn check_chain(
    alloc: Global,
    original: &Model,
    applications: &List<Application>,
    reduced: &Model,
) -> Result<Verdict, NoMemory>
    ensures { IfOk result
        (λ v. verdict_of v
        ≡ verdict (graph_of original.now) (map application_of applications.now)
        (graph_of reduced.now)) }
{
    let mut model = copy_model(alloc, original)?;
    verdict_after(alloc, &mut model, applications, reduced)
}

/// Makes the applications, in order, up to the first bad one, and says whether they lead to the reduced model.
fn verdict_after(
    alloc: Global,
    model: &mut Model,
    applications: &List<Application>,
    reduced: &Model,
) -> Result<Verdict, NoMemory>
    ensures { IfOk result
        (λ v. verdict_of v
        ≡ verdict (graph_of model.old) (map application_of applications.now)
        (graph_of reduced.now)) }
{
    if let Some(line) = apply_all(alloc, model, applications.as_slice())? {
        return Ok(Verdict::Rejected { line });
    }
    if same_model(model, reduced) {
        Ok(Verdict::Sound)
    } else {
        Ok(Verdict::Differs)
    }
}

/// Makes the applications, in order, up to the first bad one, and gives its number from 1.
fn apply_all(
    alloc: Global,
    model: &mut Model,
    applications: &[Application],
) -> Result<Option<usize>, NoMemory>
    ensures bad { IfOk result
        (λ bad. bad ≡ first_bad (graph_of model.old) (map application_of applications.now)) }
    ensures reached { result ≡ Ok None
        → graph_reached (graph_of model.old) (map application_of applications.now)
        ≡ Some (graph_of model.new) }
{
    applications_add_no_variables();
    new_counts_count_nothing();
    let mut vertices = Places::of_vertices(alloc, model.vertices.as_slice())?;
    let mut counts = UseCounts::begin(alloc, model)?;
    let mut facts = FactsOfModel::begin(alloc);
    for (place, application) in applications.iter().enumerate() {
        if !apply_with_next(
            alloc,
            model,
            &mut facts,
            &mut counts,
            &vertices,
            application,
            applications,
            place + 1,
        )? {
            return Ok(Some(place + 1));
        }
        find_places_anew(alloc, application, model, &mut vertices)?;
    }
    Ok(None)
}

/// Whether an application takes vertices away.
fn is_drop(application: &Application) -> bool
    ensures { result ≡ is_drop (application_of application.now) }
{
    match application {
        Application::Drop { vertices: _ } => true,
        Application::Prune { vertex: _, edge: _ } => false,
        Application::Settle { vertex: _, edge: _ } => false,
        Application::Merge {
            vertex: _,
            target: _,
        } => false,
        Application::Slice { vars: _ } => false,
    }
}

/// Finds the places of the vertices anew, where an application took vertices away: those of its result have the model's names.
fn find_places_anew(
    alloc: Global,
    application: &Application,
    model: &Model,
    vertices: &mut Places,
) -> Result<(), NoMemory>
    ensures { OnOk result ((g h : EventGraph) → applied g (application_of application.now) ≡ Some h
        → names_of_vertices h.vertices ≡ names_of_vertices (graph_of model.now).vertices
        → HasPlaces (names_of_vertices g.vertices) vertices.old
        → HasPlaces (names_of_vertices (graph_of model.now).vertices) vertices.new) }
{
    if is_drop(application) {
        *vertices = Places::of_vertices(alloc, model.vertices.as_slice())?;
    }
    Ok(())
}

/// Makes one application, which others follow from a place on, and says whether it names what the model has and meets the
/// conditions of its rule. Where the next one drops the target of a merge, the target gives away what it does, so that this isn't
/// copied.
fn apply_with_next(
    alloc: Global,
    model: &mut Model,
    facts: &mut FactsOfModel,
    counts: &mut UseCounts,
    vertices: &Places,
    application: &Application,
    applications: &[Application],
    next: usize,
) -> Result<bool, NoMemory>
    requires listed { HasPlaces (names_of_vertices (graph_of model.old).vertices) vertices.now }
    requires facts { FactsAreRight (graph_of model.old) facts.old }
    requires counts { NothingCounted (length model.old.vars) counts.old }
    ensures made { IfOk result
        (λ made. MadeInEffect (map application_of (drop next applications.now))
        (graph_of model.old) (application_of application.now) made (graph_of model.new)) }
    ensures facts { OnOk result (FactsAreRight (graph_of model.new) facts.new) }
    ensures counts { OnOk result (counts.new ≡ counts.old) }
{
    dropping_takes_no_notice_of_the_vertex();
    if let Application::Merge { vertex, target } = application {
        if drops_alone(applications, next, target) {
            let second = SecondVertex::GivesAway;
            return apply_merge(
                alloc, model, facts, counts, vertices, vertex, target, second,
            );
        }
    }
    apply(alloc, model, facts, counts, vertices, application)
}

/// Makes one application, and says whether it names what the model has and meets the conditions of its rule. Beside the
/// model it keeps what is known of it, and counts of uses, which merges use and leave as they were.
fn apply(
    alloc: Global,
    model: &mut Model,
    facts: &mut FactsOfModel,
    counts: &mut UseCounts,
    vertices: &Places,
    application: &Application,
) -> Result<bool, NoMemory>
    requires listed { HasPlaces (names_of_vertices (graph_of model.old).vertices) vertices.now }
    requires facts { FactsAreRight (graph_of model.old) facts.old }
    requires counts { NothingCounted (length model.old.vars) counts.old }
    ensures made { IfOk result
        (λ made. applied (graph_of model.old) (application_of application.now)
        ≡ cond made (Some (graph_of model.new)) None) }
    ensures facts { OnOk result (FactsAreRight (graph_of model.new) facts.new) }
    ensures counts { OnOk result (counts.new ≡ counts.old) }
{
    match application {
        Application::Prune { vertex, edge } => {
            Ok(apply_to_edge(model, facts, vertices, EdgeRule::Prune, vertex, *edge))
        }
        Application::Settle { vertex, edge } => {
            Ok(apply_to_edge(model, facts, vertices, EdgeRule::Settle, vertex, *edge))
        }
        Application::Drop { vertices: names } => {
            apply_drop(alloc, model, facts, vertices, names.as_slice())
        }
        Application::Merge { vertex, target } => {
            let second = SecondVertex::Stays;
            apply_merge(
                alloc, model, facts, counts, vertices, vertex, target, second,
            )
        }
        Application::Slice { vars } => {
            *facts = FactsOfModel::begin(alloc);
            apply_slice(alloc, model, vars.as_slice())
        }
    }
}

/// Keeps what is known of a rule's result, where the rule was made. Where it wasn't, nothing is known any more.
fn keep_facts_if_made(facts: &mut FactsOfModel, made: bool) -> bool
    ensures is { result ≡ made }
    ensures kept { made ≡ true → facts.new ≡ facts.old }
    ensures forgotten { made ≡ false → (g : EventGraph) → FactsAreRight g facts.new }
{
    if !made {
        *facts = FactsOfModel::nothing();
    }
    made
}

/// Applies a rule of edges to an edge, and says whether it could be.
fn apply_to_edge(
    model: &mut Model,
    facts: &mut FactsOfModel,
    vertices: &Places,
    rule: EdgeRule,
    vertex: &Name,
    edge: u64,
) -> bool
    requires listed { HasPlaces (names_of_vertices (graph_of model.old).vertices) vertices.now }
    requires facts { FactsAreRight (graph_of model.old) facts.old }
    ensures made { applied (graph_of model.old) (application_by rule vertex.now edge)
        ≡ cond result (Some (graph_of model.new)) None }
    ensures facts { FactsAreRight (graph_of model.new) facts.new }
{
    let Some((vertex, edge)) = edge_named(vertices, vertex, edge) else {
        return false;
    };
    match rule {
        EdgeRule::Prune => {
            keep_after_prune(model, facts, vertex, edge);
            let pruned = prune(model, vertex, edge);
            keep_facts_if_made(facts, pruned.is_ok())
        }
        EdgeRule::Settle => {
            keep_after_settle(model, facts, vertex, edge);
            let settled = settle(model, vertex, edge);
            keep_facts_if_made(facts, settled.is_ok())
        }
    }
}

/// Drops vertices, and says whether they could be.
fn apply_drop(
    alloc: Global,
    model: &mut Model,
    facts: &mut FactsOfModel,
    vertices: &Places,
    names: &[Name],
) -> Result<bool, NoMemory>
    requires listed { HasPlaces (names_of_vertices (graph_of model.old).vertices) vertices.now }
    requires facts { FactsAreRight (graph_of model.old) facts.old }
    ensures made { IfOk result
        (λ made. applied (graph_of model.old) (Drop names.now)
        ≡ cond made (Some (graph_of model.new)) None) }
    ensures facts { OnOk result (FactsAreRight (graph_of model.new) facts.new) }
{
    let Some(dropped) = all_named(alloc, vertices, names)? else {
        return Ok(false);
    };
    keep_after_drop(model, facts, dropped.as_slice());
    let made = was_applied(drop_vertices(alloc, model, &dropped))?;
    Ok(keep_facts_if_made(facts, made))
}

/// Merges two vertices, leaving this of the second one, and says whether they could be.
fn apply_merge(
    alloc: Global,
    model: &mut Model,
    facts: &mut FactsOfModel,
    counts: &mut UseCounts,
    vertices: &Places,
    vertex: &Name,
    target: &Name,
    second: SecondVertex,
) -> Result<bool, NoMemory>
    requires listed { HasPlaces (names_of_vertices (graph_of model.old).vertices) vertices.now }
    requires facts { FactsAreRight (graph_of model.old) facts.old }
    requires counts { NothingCounted (length model.old.vars) counts.old }
    ensures made { IfOk result
        (λ made. MergeIsMade second (graph_of model.old) vertex.now target.now made
        (graph_of model.new)) }
    ensures facts { OnOk result (FactsAreRight (graph_of model.new) facts.new) }
    ensures counts { OnOk result (counts.new ≡ counts.old) }
{
    let Some((vertex, target)) = two_vertices_named(vertices, vertex, target) else {
        return Ok(false);
    };
    was_applied(merge_measured(alloc, model, facts, counts, vertex, target, second))
}

/// Slices variables away, and says whether they could be.
fn apply_slice(alloc: Global, model: &mut Model, names: &[Name]) -> Result<bool, NoMemory>
    ensures { IfOk result
        (λ made. applied (graph_of model.old) (Slice names.now)
        ≡ cond made (Some (graph_of model.new)) None) }
{
    let vars = Places::of_variables(alloc, model.vars.as_slice())?;
    let Some(sliced) = all_named(alloc, &vars, names)? else {
        return Ok(false);
    };
    was_applied(slice(alloc, model, &sliced))
}
