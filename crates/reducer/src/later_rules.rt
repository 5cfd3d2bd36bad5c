//! The rules after those of edges: drop, merge and slice, one application at a time. A merge and the drop of its second vertex are
//! made together if that vertex alone can't be reached any more. What is known of the model is kept between two applications:
//! after a merge only what can have changed is looked at again.

ghost use Rattle.std.specs.Prelude.{◌≡◌, [], ◌∷◌, ◌++◌, map, length, OnOk, IfOk, true};
ghost use Rattle.model_core.specs.Static.Reading.{IsValid};
ghost use Rattle.model_core.specs.Code.Views.{graph_of, application_of};
ghost use Rattle.model_core.specs.Rules.Reached.{unreached};
ghost use Rattle.model_core.specs.Text.Canonical.{vertex_name};
ghost use Rattle.model_core.specs.Rules.Drop.{dropped};
ghost use Rattle.model_core.specs.Rules.Merge.{merged};
ghost use Rattle.model_core.specs.Rules.Reduction.{Drop, Merge, first_rule};
ghost use Rattle.reducer.specs.Inner.LaterRules.{NoEdgeRule, IsStrategyNoted};
ghost use Rattle.reducer.specs.Inner.Merging.{OnlyUnreached, IsMerging};
ghost use Rattle.reducer.specs.Inner.UnfinishedReduction.{drop_rule, merge_rule, slice_rule, IsUnfinishedReduction, ByRule, ByRuleThenDrop, IsMerged, MadeByRule};

use crate::naming::{Declared, name_at, names_at};
use crate::reached_after_merge::leaves_second_unreached;
use crate::strategy::Reduced;
use crate::strategy_law::later_rules_leave_edges;
use edge_pruning::{
    drop_unreached, dropping_keeps_the_meaning, dropping_takes_no_notice_of_the_vertex, unreached,
};
use merge_rules::{
    KeptPairs, SecondVertex, merge_holding, merging_keeps_the_meaning, merging_takes_an_urgent_edge,
};
use model_core::{Application, Model, was_applied};
use model_facts::{Progress, keep_after_drop};
use reduction_cert::chains_keep_the_meaning;
use sig_base::{List, NoMemory};
use std::alloc::Global;
use var_slicing::{slice, unneeded};

/// A model while rules are applied to it, the applications that were noted, what is known of it, and what is kept of each vertex
/// to find the next merge.
#[derive(Drop)]
pub(crate) struct UnfinishedReduction {
    model: Model,
    applications: Vec<Application>,
    progress: Progress,
    pairs: KeptPairs,
}

/// Applies the first rule again and again, until none is applicable, where no rule of edges is, and notes that after the earlier
/// applications.
pub(crate) fn apply_later_rules(
    alloc: Global,
    model: Model,
    applications: Vec<Application>,
) -> Result<Reduced, NoMemory>
    requires valid { IsValid (graph_of model) }
    requires no_edge_rule { NoEdgeRule (graph_of model) }
    ensures { IfOk result
        (λ r. IsStrategyNoted (graph_of model) (graph_of r.model)
        (map application_of applications.items) (map application_of r.applications)) }
{
    chains_keep_the_meaning();
    later_rules_leave_edges();
    merging_takes_an_urgent_edge();
    let progress = Progress::begin(alloc, &model)?;
    let pairs = KeptPairs::begin(alloc, &model)?;
    let mut underway = UnfinishedReduction {
        model,
        applications,
        progress,
        pairs,
    };
    while underway.apply_one(alloc)? {}
    let UnfinishedReduction {
        model,
        applications,
        progress: _,
        pairs: _,
    } = underway;
    Ok(Reduced {
        model,
        applications: List::from_vec(applications),
    })
}

/// Notes that these vertices of the model are dropped.
fn note_drop(
    alloc: Global,
    model: &Model,
    applications: &mut Vec<Application>,
    vertices: &List<usize>,
) -> Result<(), NoMemory>
    ensures { OnOk result (map application_of applications.new.items
        ≡ map application_of applications.old.items
        ++ Drop (map (vertex_name (graph_of model.now)) vertices.now) ∷ []) }
{
    let names = names_at(alloc, model, Declared::Vertices, vertices.as_slice())?;
    applications.push(Application::Drop {
        vertices: List::from_vec(names),
    })?;
    Ok(())
}

/// Notes that these two vertices of the model are merged.
fn note_merge(
    alloc: Global,
    model: &Model,
    applications: &mut Vec<Application>,
    first: usize,
    second: usize,
) -> Result<(), NoMemory>
    ensures { OnOk result (map application_of applications.new.items
        ≡ map application_of applications.old.items
        ++ Merge
        (vertex_name (graph_of model.now) first) (vertex_name (graph_of model.now) second)
        ∷ []) }
{
    let vertex = name_at(alloc, model, Declared::Vertices, first)?;
    let target = name_at(alloc, model, Declared::Vertices, second)?;
    applications.push(Application::Merge { vertex, target })?;
    Ok(())
}

impl UnfinishedReduction {
    /// Applies the first rule, where no rule of edges is applicable, and notes that, or says that there is none. After a merge
    /// that leaves a vertex which can't be reached it drops that vertex as well.
    fn apply_one(&mut self, alloc: Global) -> Result<bool, NoMemory>
        requires underway { IsUnfinishedReduction self.old }
        requires no_edge_rule { NoEdgeRule (graph_of self.old.model) }
        ensures { IfOk result (λ made. ByRuleThenDrop first_rule made self.old self.new) }
    {
        if self.drop_first(alloc)? {
            return Ok(true);
        }
        if self.merge_first(alloc)? {
            return Ok(true);
        }
        self.slice_unneeded(alloc)
    }

    /// Drops the vertices that can't be reached, and notes that, or says that there are none.
    fn drop_first(&mut self, alloc: Global) -> Result<bool, NoMemory>
        requires { IsUnfinishedReduction self.old }
        ensures by_rule { IfOk result (λ made. ByRule drop_rule made self.old self.new) }
        ensures all { OnOk result (unreached (graph_of self.new.model) ≡ []) }
    {
        if self.progress.all_reached {
            return Ok(false);
        }
        self.find_and_drop(alloc)
    }

    /// Seeks the vertices that can't be reached, drops them and notes that, or says that there are none.
    fn find_and_drop(&mut self, alloc: Global) -> Result<bool, NoMemory>
        requires { IsUnfinishedReduction self.old }
        ensures by_rule { IfOk result (λ made. ByRule drop_rule made self.old self.new) }
        ensures all { OnOk result (unreached (graph_of self.new.model) ≡ []) }
    {
        let vertices = unreached(alloc, &self.model)?;
        self.progress.all_reached = true;
        if vertices.len() == 0 {
            return Ok(false);
        }
        self.drop_listed(alloc, &vertices)?;
        self.progress.facts.keep_single_after_drop();
        self.pairs = KeptPairs::begin(alloc, &self.model)?;
        Ok(true)
    }

    /// Drops these vertices, which can't be reached, and notes that. What is known stays as it is.
    fn drop_listed(&mut self, alloc: Global, vertices: &List<usize>) -> Result<(), NoMemory>
        requires valid { IsValid (graph_of self.old.model) }
        requires some { length vertices.now ≡ 0 → ⊥ }
        requires unreached { vertices.now ≡ unreached (graph_of self.old.model) }
        ensures made { OnOk result (MadeByRule drop_rule true self.old self.new) }
        ensures left { OnOk result
            (graph_of self.new.model ≡ dropped (graph_of self.old.model) vertices.now) }
        ensures all { OnOk result (unreached (graph_of self.new.model) ≡ []) }
        ensures progress { self.new.progress ≡ self.old.progress }
        ensures pairs { self.new.pairs ≡ self.old.pairs }
    {
        dropping_keeps_the_meaning();
        note_drop(alloc, &self.model, &mut self.applications, vertices)?;
        drop_unreached(alloc, &mut self.model, vertices)
    }

    /// Merges the first vertex that can be merged, and notes that, or says that there is none, where all vertices can be
    /// reached. Where its second vertex can't be reached any more it is dropped, and that is noted as well.
    fn merge_first(&mut self, alloc: Global) -> Result<bool, NoMemory>
        requires underway { IsUnfinishedReduction self.old }
        requires all { unreached (graph_of self.old.model) ≡ [] }
        ensures { IfOk result (λ made. ByRuleThenDrop merge_rule made self.old self.new) }
    {
        let progress = &mut self.progress;
        let Some((first, second)) = self
            .pairs
            .first_merge(&self.model, &mut progress.facts, &mut progress.counts)
        else {
            return Ok(false);
        };
        self.pairs.note_merge(&self.model, first, second)?;
        self.merge_pair(alloc, first, second)?;
        Ok(true)
    }

    /// Merges these two, for which what is kept of the vertices is ready, and notes that.
    fn merge_pair(&mut self, alloc: Global, first: usize, second: usize) -> Result<(), NoMemory>
        requires valid { IsValid (graph_of self.old.model) }
        requires all { unreached (graph_of self.old.model) ≡ [] }
        requires merging { IsMerging
            (graph_of self.old.model) first second self.old.progress self.old.pairs }
        ensures { OnOk result (IsMerged first second self.old self.new) }
    {
        if leaves_second_unreached(&self.pairs, second) {
            self.merge_and_drop(alloc, first, second)
        } else {
            self.merge_and_keep(alloc, first, second)
        }
    }

    /// Merges these two, where all vertices can be reached then, and notes that.
    fn merge_and_keep(&mut self, alloc: Global, first: usize, second: usize) -> Result<(), NoMemory>
        requires merging { IsMerging
            (graph_of self.old.model) first second self.old.progress self.old.pairs }
        requires all { unreached (merged (graph_of self.old.model) first second) ≡ [] }
        ensures { OnOk result (IsMerged first second self.old self.new) }
    {
        let facts = &mut self.progress.facts;
        let left = SecondVertex::Stays;
        merge_holding(alloc, &mut self.model, facts, first, second, left)?;
        note_merge(alloc, &self.model, &mut self.applications, first, second)?;
        self.progress.all_reached = true;
        Ok(())
    }

    /// Merges these two, where the second one alone can't be reached then: it gives away what it does, and is dropped. Both are
    /// noted.
    fn merge_and_drop(&mut self, alloc: Global, first: usize, second: usize) -> Result<(), NoMemory>
        requires valid { IsValid (graph_of self.old.model) }
        requires merging { IsMerging
            (graph_of self.old.model) first second self.old.progress self.old.pairs }
        requires alone { OnlyUnreached (merged (graph_of self.old.model) first second) second }
        ensures { OnOk result (IsMerged first second self.old self.new) }
    {
        merging_keeps_the_meaning();
        dropping_keeps_the_meaning();
        dropping_takes_no_notice_of_the_vertex();
        let gone = List::from_vec(Vec::from_elem(alloc, second, 1)?);
        self.pairs.note_drop_after_merge(&self.model, first, second);
        let facts = &mut self.progress.facts;
        let left = SecondVertex::GivesAway;
        merge_holding(alloc, &mut self.model, facts, first, second, left)?;
        note_merge(alloc, &self.model, &mut self.applications, first, second)?;
        note_drop(alloc, &self.model, &mut self.applications, &gone)?;
        keep_after_drop(&self.model, &mut self.progress.facts, gone.as_slice());
        self.progress.all_reached = true;
        drop_unreached(alloc, &mut self.model, &gone)
    }

    /// Slices the variables that aren't needed away, and notes that, or says that there are none.
    fn slice_unneeded(&mut self, alloc: Global) -> Result<bool, NoMemory>
        requires { IsUnfinishedReduction self.old }
        ensures { IfOk result (λ made. ByRule slice_rule made self.old self.new) }
    {
        let vars = unneeded(alloc, &self.model)?;
        if vars.len() == 0 {
            return Ok(false);
        }
        let names = names_at(alloc, &self.model, Declared::Variables, vars.as_slice())?;
        self.applications.push(Application::Slice {
            vars: List::from_vec(names),
        })?;
        let made = was_applied(slice(alloc, &mut self.model, &vars))?;
        self.progress = Progress::begin(alloc, &self.model)?;
        self.pairs = KeptPairs::begin(alloc, &self.model)?;
        Ok(made)
    }
}
