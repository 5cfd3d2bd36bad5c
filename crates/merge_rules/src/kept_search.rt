//! The first two vertices that may be merged, found again and again: after a merge, or the drop that follows it, only what can
//! have changed is looked at again.

ghost use Rattle.std.specs.Prelude.{◌≡◌, ◌<◌, [], ◌∷◌, true, false, None, Some, map, length, IfOk, OnOk};
ghost use Rattle.model_core.specs.EventGraph.{EventGraph};
ghost use Rattle.model_core.specs.Run.Step.{vertex_at};
ghost use Rattle.model_core.specs.Static.Reading.{IsValid};
ghost use Rattle.model_core.specs.Rules.Conditions.{first_failed};
ghost use Rattle.model_core.specs.Rules.Drop.{dropped};
ghost use Rattle.model_core.specs.Rules.UrgentEdges.{single_urgent};
ghost use Rattle.model_core.specs.Rules.Merge.{is_watched_vertex, merge_conditions, merged, merge_at, first_merge};
ghost use Rattle.model_core.specs.Code.Views.{graph_of, edge_of};
ghost use Rattle.model_facts.specs.FactsOfModel.{FactsAreRight};
ghost use Rattle.model_facts.specs.NothingCounted.{NothingCounted};
ghost use Rattle.merge_rules.specs.PairFits.{target_at_once, acts_unseen, pair_fits};
ghost use Rattle.merge_rules.specs.Growth.{pair_growth};
ghost use Rattle.merge_rules.specs.KeptPairs.{has_incoming, FitIsRight, UnseenIsRight, PairsAreRight};

use crate::conditions::{acts_unseen_at, failed_before_limits};
use crate::growth::{Growth, grows_by};
use crate::kept_pairs::{
    KeptPair, PairAnswer, add_all_edges, fresh_pairs, move_up, take_edges, take_over_pairs,
};
use crate::law::merging_keeps_the_meaning;
use crate::within_limits::{has_short_text, keeps_few_parts};
use model_core::{Edge, Model, is_watched};
use model_facts::FactsOfModel;
use round_trip::validity_is_by_parts;
use sig_base::NoMemory;
use std::alloc::Global;
use use_analysis::UseCounts;

/// What is known of the vertices of a model, each as the first of two that may be merged. Contracts see it as the list of
/// what is known of each.
#[derive(Drop)]
pub struct KeptPairs {
    pairs: Vec<KeptPair>,
}

impl std::marker::Model for KeptPairs {
    ghost use Rattle.std.specs.Prelude.{List};
    ghost use Rattle.merge_rules.specs.declared.kept_pairs.KeptPair.{KeptPair};

    ghost Value = { List KeptPair };

    ghost view = { λ k. k.pairs.items };
}

/// Whether the two fit: a vertex and the target of its plain urgent edge, in a single urgent model. The caller may know whether
/// the second one acts unseen.
fn pair_fits(
    model: &Model,
    unseen: Option<bool>,
    counts: &mut UseCounts,
    first: usize,
    second: usize,
) -> bool
    requires unseen { UnseenIsRight unseen (graph_of model.now)
        (vertex_at (graph_of model.now) second) }
    requires counts { NothingCounted (length model.now.vars) counts.old }
    requires single { single_urgent (graph_of model.now) ≡ true }
    requires target { target_at_once (vertex_at (graph_of model.now) first) ≡ Some second }
    requires there { first < length model.now.vertices }
    ensures fits { result ≡ pair_fits (graph_of model.now) first }
    ensures counts { counts.new ≡ counts.old }
{
    match failed_before_limits(model, true, unseen, counts, first, second) {
        Some(_) => false,
        None => keeps_few_parts(model, first, second),
    }
}

/// What is known of two once it was asked whether they fit, and by how much their merge makes the text longer.
fn pair_answer(growth: Option<Growth>) -> PairAnswer
    ensures { FitIsRight result growth }
{
    match growth {
        Some(growth) => PairAnswer::Fits(growth),
        None => PairAnswer::Refused,
    }
}

/// The two, where they fit, and the text of the result, which is so much longer, isn't too long. How long the text of the
/// model is, is then known.
fn short_merge(
    model: &Model,
    facts: &mut FactsOfModel,
    growth: Option<Growth>,
    first: usize,
    second: usize,
) -> Option<(usize, usize)>
    requires single { single_urgent (graph_of model.now) ≡ true }
    requires target { target_at_once (vertex_at (graph_of model.now) first) ≡ Some second }
    requires there { first < length model.now.vertices }
    requires growth { growth ≡ pair_growth (graph_of model.now) first }
    requires facts { FactsAreRight (graph_of model.now) facts.old }
    ensures found { result ≡ merge_at (graph_of model.now) first }
    ensures facts { FactsAreRight (graph_of model.now) facts.new }
{
    let Some(grows) = growth else {
        return None;
    };
    let bytes = facts.find_bytes(model);
    if has_short_text(model, bytes, first, second, grows) {
        Some((first, second))
    } else {
        None
    }
}

impl KeptPairs {
    /// Of a model that is new.
    pub fn begin(alloc: Global, model: &Model) -> Result<KeptPairs, NoMemory>
        ensures { IfOk result (λ pairs. PairsAreRight (graph_of model.now) pairs) }
    {
        let vertices = model.vertices.as_slice();
        let mut pairs = fresh_pairs(alloc, vertices)?;
        add_all_edges(&mut pairs, vertices)?;
        Ok(KeptPairs { pairs })
    }

    /// Whether an edge leads to the vertex at this place.
    pub fn has_incoming_edge(&self, vertex: usize) -> bool
        requires there { vertex < length self.now }
        ensures { (g : EventGraph) → PairsAreRight g self.now → result ≡ has_incoming g vertex }
    {
        self.pairs[vertex].incoming > 0
    }

    /// Whether the vertex at this place acts unseen once it has its values, which is then known.
    fn find_unseen(&mut self, model: &Model, vertex: usize) -> bool
        requires kept { PairsAreRight (graph_of model.now) self.old }
        requires there { vertex < length model.now.vertices }
        ensures is { result
            ≡ acts_unseen (graph_of model.now) (vertex_at (graph_of model.now) vertex) }
        ensures kept { PairsAreRight (graph_of model.now) self.new }
    {
        let pair = self.pairs[vertex];
        if let Some(unseen) = pair.unseen {
            return unseen;
        }
        let unseen = acts_unseen_at(model, vertex);
        self.pairs[vertex] = KeptPair {
            unseen: Some(unseen),
            ..pair
        };
        unseen
    }

    /// Whether the second of two acts unseen, where it matters: where the first is watched.
    fn unseen_where_watched(&mut self, model: &Model, first: usize, second: usize) -> Option<bool>
        requires { PairsAreRight (graph_of model.now) self.old }
        ensures unseen { UnseenIsRight result (graph_of model.now)
            (vertex_at (graph_of model.now) second) }
        ensures kept { PairsAreRight (graph_of model.now) self.new }
    {
        if second < model.vertices.len() && is_watched(model, first) {
            Some(self.find_unseen(model, second))
        } else {
            None
        }
    }

    /// By how much a merge of the two makes the text longer, where they fit.
    fn measure_pair(
        &mut self,
        model: &Model,
        facts: &mut FactsOfModel,
        counts: &mut UseCounts,
        first: usize,
        second: usize,
    ) -> Option<Growth>
        requires kept { PairsAreRight (graph_of model.now) self.old }
        requires facts { FactsAreRight (graph_of model.now) facts.old }
        requires counts { NothingCounted (length model.now.vars) counts.old }
        requires single { single_urgent (graph_of model.now) ≡ true }
        requires target { target_at_once (vertex_at (graph_of model.now) first) ≡ Some second }
        requires there { first < length model.now.vertices }
        ensures growth { result ≡ pair_growth (graph_of model.now) first }
        ensures kept { PairsAreRight (graph_of model.now) self.new }
        ensures facts { FactsAreRight (graph_of model.now) facts.new }
        ensures counts { counts.new ≡ counts.old }
    {
        let unseen = self.unseen_where_watched(model, first, second);
        if !pair_fits(model, unseen, counts, first, second) {
            return None;
        }
        let body = facts.find_body(model, second);
        Some(grows_by(model, first, second, body))
    }

    /// By how much a merge of the two makes the text longer, where they fit, asked only where it isn't known.
    fn pair_growth(
        &mut self,
        model: &Model,
        facts: &mut FactsOfModel,
        counts: &mut UseCounts,
        answer: PairAnswer,
        first: usize,
        second: usize,
    ) -> Option<Growth>
        requires kept { PairsAreRight (graph_of model.now) self.old }
        requires facts { FactsAreRight (graph_of model.now) facts.old }
        requires counts { NothingCounted (length model.now.vars) counts.old }
        requires single { single_urgent (graph_of model.now) ≡ true }
        requires target { target_at_once (vertex_at (graph_of model.now) first) ≡ Some second }
        requires there { first < length model.now.vertices }
        requires answer { FitIsRight answer (pair_growth (graph_of model.now) first) }
        ensures growth { result ≡ pair_growth (graph_of model.now) first }
        ensures kept { PairsAreRight (graph_of model.now) self.new }
        ensures facts { FactsAreRight (graph_of model.now) facts.new }
        ensures counts { counts.new ≡ counts.old }
    {
        match answer {
            PairAnswer::Unknown => self.measure_pair(model, facts, counts, first, second),
            PairAnswer::Refused => None,
            PairAnswer::Fits(growth) => Some(growth),
        }
    }

    /// Keeps whether the vertex at this place and the target of its plain urgent edge fit, and by how much their merge makes
    /// the text longer.
    fn keep_answer(&mut self, model: &Model, first: usize, growth: Option<Growth>)
        requires kept { PairsAreRight (graph_of model.now) self.old }
        requires there { first < length model.now.vertices }
        requires growth { growth ≡ pair_growth (graph_of model.now) first }
        ensures { PairsAreRight (graph_of model.now) self.new }
    {
        let pair = self.pairs[first];
        self.pairs[first] = KeptPair {
            answer: pair_answer(growth),
            ..pair
        };
    }

    /// The vertex at this place with the one to which its plain urgent edge leads, where they may be merged.
    fn merge_at(
        &mut self,
        model: &Model,
        facts: &mut FactsOfModel,
        counts: &mut UseCounts,
        first: usize,
    ) -> Option<(usize, usize)>
        requires kept { PairsAreRight (graph_of model.now) self.old }
        requires single { single_urgent (graph_of model.now) ≡ true }
        requires there { first < length model.now.vertices }
        requires facts { FactsAreRight (graph_of model.now) facts.old }
        requires counts { NothingCounted (length model.now.vars) counts.old }
        ensures found { result ≡ merge_at (graph_of model.now) first }
        ensures kept { PairsAreRight (graph_of model.now) self.new }
        ensures facts { FactsAreRight (graph_of model.now) facts.new }
        ensures counts { counts.new ≡ counts.old }
    {
        let pair = self.pairs[first];
        match pair.target {
            None => None,
            Some(second) => {
                let growth = self.pair_growth(model, facts, counts, pair.answer, first, second);
                self.keep_answer(model, first, growth);
                short_merge(model, facts, growth, first, second)
            }
        }
    }

    /// The first of them, in a single urgent model.
    fn first_single(
        &mut self,
        model: &Model,
        facts: &mut FactsOfModel,
        counts: &mut UseCounts,
    ) -> Option<(usize, usize)>
        requires kept { PairsAreRight (graph_of model.now) self.old }
        requires single { single_urgent (graph_of model.now) ≡ true }
        requires facts { FactsAreRight (graph_of model.now) facts.old }
        requires counts { NothingCounted (length model.now.vars) counts.old }
        ensures found { result ≡ first_merge (graph_of model.now) }
        ensures kept { PairsAreRight (graph_of model.now) self.new }
        ensures facts { FactsAreRight (graph_of model.now) facts.new }
        ensures counts { counts.new ≡ counts.old }
    {
        for first in 0..model.vertices.len() {
            let found = self.merge_at(model, facts, counts, first);
            if found.is_some() {
                return found;
            }
        }
        None
    }

    /// The first two vertices that may be merged. It takes what is known of the model, and gives what is known then. The counts,
    /// in which nothing is counted, serve to find what edges read; they are given back as they were.
    pub fn first_merge(
        &mut self,
        model: &Model,
        facts: &mut FactsOfModel,
        counts: &mut UseCounts,
    ) -> Option<(usize, usize)>
        requires kept { PairsAreRight (graph_of model.now) self.old }
        requires facts { FactsAreRight (graph_of model.now) facts.old }
        requires counts { NothingCounted (length model.now.vars) counts.old }
        ensures found { result ≡ first_merge (graph_of model.now) }
        ensures kept { PairsAreRight (graph_of model.now) self.new }
        ensures facts { FactsAreRight (graph_of model.now) facts.new }
        ensures counts { counts.new ≡ counts.old }
    {
        if facts.find_single(model) {
            self.first_single(model, facts, counts)
        } else {
            None
        }
    }

    /// Notes that two vertices of the model are about to be merged: what is kept is then right of the result.
    pub fn note_merge(&mut self, model: &Model, first: usize, second: usize) -> Result<(), NoMemory>
        requires kept { PairsAreRight (graph_of model.now) self.old }
        requires holds { first_failed (merge_conditions (graph_of model.now) first second) ≡ None }
        ensures { OnOk result (PairsAreRight (merged (graph_of model.now) first second) self.new) }
    {
        take_over_pairs(&mut self.pairs, first, second, model.edges_at(second))
    }

    /// Notes the drop of a vertex that has these edges, to which no edge leads and which isn't watched.
    fn take_away(&mut self, edges: &[Edge], gone: usize)
        requires { gone < length self.old }
        ensures { (g : EventGraph) → PairsAreRight g self.old → IsValid g
            → has_incoming g gone ≡ false → is_watched_vertex g gone ≡ false
            → map edge_of edges.now ≡ (vertex_at g gone).edges
            → PairsAreRight (dropped g (gone ∷ [])) self.new }
    {
        validity_is_by_parts();
        take_edges(&mut self.pairs, edges);
        self.pairs.remove(gone);
        move_up(&mut self.pairs, gone);
    }

    /// Notes that the second of two vertices of the model is about to be dropped after their merge, which was noted, where no
    /// edge leads to it then.
    pub fn note_drop_after_merge(&mut self, model: &Model, first: usize, second: usize)
        requires kept { PairsAreRight (merged (graph_of model.now) first second) self.old }
        requires valid { IsValid (graph_of model.now) }
        requires holds { first_failed (merge_conditions (graph_of model.now) first second) ≡ None }
        requires unled { has_incoming (merged (graph_of model.now) first second) second ≡ false }
        ensures { PairsAreRight
            (dropped (merged (graph_of model.now) first second) (second ∷ [])) self.new }
    {
        merging_keeps_the_meaning();
        self.take_away(model.edges_at(second), second);
    }
}
