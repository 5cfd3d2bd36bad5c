//! Why vertices of a model may not be merged, and the text of a merged model.

ghost use Rattle.std.specs.Prelude.{IfOk};
ghost use Rattle.model_core.specs.Code.Views.{graph_of};
ghost use Rattle.model_facts.specs.FactsOfModel.{FactsAreRight};

use crate::static_rules::checked;
use edge_pruning::{drop_vertices, prune, settle};
use merge_rules::{SecondVertex, first_merge, merge, merge_measured};
use model_core::{Model, RuleError};
use model_facts::{FactsOfModel, keep_after_drop, keep_after_prune, keep_after_settle};
use model_print::{print, printed_length};
use sig_base::{List, NoMemory};
use std::alloc::Global;
use std::test::*;
use use_analysis::UseCounts;

/// The model that a text reads as.
fn model_of_text(alloc: Global, text: &[u8]) -> Result<Model, NoMemory> {
    checked(alloc, text).map_err(|_| NoMemory)
}

/// The result of merging the vertices at these places of the model that a text reads as.
fn merged(alloc: Global, text: &[u8], vertex: usize, target: usize) -> Result<(), RuleError> {
    let mut model = model_of_text(alloc, text)?;
    merge(alloc, &mut model, vertex, target)
}

const CHAIN: &[u8] =
    b"model CHAIN; var N : 0..9 = 0; watch N; vertex RUN { urgent A; } vertex A { set N := 1; urgent B; } vertex B { set N := 2; } end";

const LOOP: &[u8] =
    b"model LOOP; vertex RUN { urgent A; } vertex A { urgent B; } vertex B { urgent A; } end";

const TOGETHER: &[u8] =
    b"model M; var X : 0..9 = 3; watch X; vertex RUN { urgent P; } vertex P { urgent A when X > 0; urgent B when X < 5; } vertex A { } vertex B { } end";

const READING: &[u8] =
    b"model M; var X : 0..9 = 0; watch X; vertex RUN { urgent B(1); schedule C after X; } vertex B(X) { } vertex C { } end";

const WATCHED: &[u8] =
    b"model M; var S : 0..2 = 2; watch RUN; vertex RUN { urgent B; } vertex B { set S := S - 1; } end";

#[test]
fn each_failed_condition_is_named(rt: HostRuntime) {
    for (text, vertex, target, condition) in [
        (CHAIN, 0, 2, 1),
        (CHAIN, 0, 9, 1),
        (CHAIN, 2, 0, 1),
        (CHAIN, 0, 1, 2),
        (LOOP, 1, 2, 2),
        (TOGETHER, 0, 1, 3),
        (
            b"model M; watch B; vertex RUN { urgent B; } vertex B { } end".as_slice(),
            0,
            1,
            4,
        ),
        (
            b"model M; vertex RUN { cancel B; urgent B; } vertex B { } end".as_slice(),
            0,
            1,
            5,
        ),
        (READING, 0, 1, 6),
        (WATCHED, 0, 1, 7),
    ] {
        assert_eq!(rt;
            merged(rt.alloc(), text, vertex, target),
            Err(RuleError::Refused { condition })
        );
    }
}

/// A model whose first vertex makes so many changes, and the second one more.
fn with_changes(alloc: Global, count: usize) -> Result<Vec<u8>, NoMemory> {
    let mut text = Vec::from_slice(alloc, b"model M; var N : 0..9 = 0; vertex RUN { ")?;
    for _ in 0..count {
        text.extend_from_slice(b"set N := 0; ")?;
    }
    text.extend_from_slice(b"urgent B; } vertex B { set N := 1; } end")?;
    Ok(text)
}

#[test]
fn a_thousand_changes_are_not_too_many(rt: HostRuntime) -> Result<(), Fail> {
    for (count, outcome) in [
        (999, Ok(())),
        (1000, Err(RuleError::Refused { condition: 8 })),
    ] {
        let text = with_changes(rt.alloc(), count)?;
        assert_eq!(rt; merged(rt.alloc(), text.as_slice(), 0, 1), outcome);
    }
    Ok(())
}

const BEFORE: &[u8] = b"model M;
var X : 0..9 = 0;
var Y : 0..9 = 3;
watch Y;
vertex RUN {
  set Y := 4;
  schedule C after 2;
  urgent B(Y + 1);
  cancel C;
}
vertex B(X) {
  set Y := X;
  schedule B(1) after 3;
}
vertex C {
}
end
";

const AFTER: &[u8] = b"model M;
var X : 0..9 = 0;
var Y : 0..9 = 3;
watch Y;
vertex RUN {
  set Y := 4;
  set X := Y + 1;
  set Y := X;
  schedule C after 2;
  cancel C;
  schedule B(1) after 3;
}
vertex B(X) {
  set Y := X;
  schedule B(1) after 3;
}
vertex C {
}
end
";

/// The places of the first two vertices that may be merged in the model that a text reads as.
fn first_merge_in(alloc: Global, text: &[u8]) -> Result<Option<(usize, usize)>, NoMemory> {
    let model = model_of_text(alloc, text)?;
    Ok(first_merge(&model))
}

#[test]
fn the_first_two_that_may_be_merged_are_found(rt: HostRuntime) {
    for (text, found) in [
        // `RUN` leads to `A`, which itself leads on at once.
        (CHAIN, Some((1, 2))),
        (LOOP, None),
        (TOGETHER, None),
        (READING, None),
        (WATCHED, None),
        (BEFORE, Some((0, 1))),
    ] {
        assert_eq!(rt; first_merge_in(rt.alloc(), text), Ok(found));
    }
}

/// Merges the first two vertices of a model, and gives what is known of the result.
fn merged_and_measured(alloc: Global, model: &mut Model) -> Result<FactsOfModel, RuleError>
    ensures { IfOk result (λ facts. FactsAreRight (graph_of model.new) facts) }
{
    let mut facts = FactsOfModel::begin(alloc);
    let mut counts = UseCounts::begin(alloc, model)?;
    let second = SecondVertex::Stays;
    merge_measured(alloc, model, &mut facts, &mut counts, 0, 1, second)?;
    Ok(facts)
}

/// Whether it is known how many bytes the text of the model has, and those of the lines of what its
/// first vertex does.
fn has_lengths(facts: &FactsOfModel, model: &Model, body: u64) -> bool {
    facts.text_length() == Some(printed_length(model)) && facts.bodies.get(0) == Some(body)
}

#[test]
fn a_merged_model_is_written(rt: HostRuntime) -> Result<(), Fail> {
    let mut model = model_of_text(rt.alloc(), BEFORE)?;
    let facts = merged_and_measured(rt.alloc(), &mut model).map_err(|_| NoMemory)?;
    assert!(rt; has_lengths(&facts, &model, 105) && facts.bodies.get(1) == Some(39));
    assert!(rt; print(rt.alloc(), &model)?.as_slice() == AFTER);
    Ok(())
}

const TWO_TESTS: &[u8] =
    b"model M; var N : 0..9 = 0; watch N; vertex RUN { urgent B; } vertex B { set N := 1; schedule B after 1 when N > 9; schedule RUN after 2 when N < 10; } end";

#[test]
fn lengths_stay_known_after_a_prune(rt: HostRuntime) -> Result<(), Fail> {
    let mut model = model_of_text(rt.alloc(), TWO_TESTS)?;
    let mut facts = merged_and_measured(rt.alloc(), &mut model).map_err(|_| NoMemory)?;
    assert!(rt; has_lengths(&facts, &model, 83));
    keep_after_prune(&model, &mut facts, 0, 0);
    assert!(rt; prune(&mut model, 0, 0).is_ok());
    assert!(rt; has_lengths(&facts, &model, 50));
    Ok(())
}

#[test]
fn lengths_stay_known_after_a_settle(rt: HostRuntime) -> Result<(), Fail> {
    let mut model = model_of_text(rt.alloc(), TWO_TESTS)?;
    let mut facts = merged_and_measured(rt.alloc(), &mut model).map_err(|_| NoMemory)?;
    keep_after_settle(&model, &mut facts, 0, 1);
    assert!(rt; settle(&mut model, 0, 1).is_ok());
    assert!(rt; has_lengths(&facts, &model, 71));
    Ok(())
}

const FOUR_URGENT: &[u8] =
    b"model M; var N : 0..9 = 0; watch N; vertex RUN { urgent B; } vertex B { set N := 1; schedule C after 1; } vertex C { urgent RUN when N < 10; urgent D when N > 9; } vertex D { urgent RUN when N < 5; urgent C when N >= 5; } end";

/// Whether the model with four such edges beside a merged one takes at most one at once, if known,
/// after a settle of an edge.
fn single_after_settle(
    alloc: Global,
    vertex: usize,
    edge: usize,
) -> Result<Option<bool>, RuleError> {
    let mut model = model_of_text(alloc, FOUR_URGENT)?;
    let mut facts = merged_and_measured(alloc, &mut model)?;
    keep_after_settle(&model, &mut facts, vertex, edge);
    Ok(facts.single)
}

#[test]
fn edges_alone_may_be_settled(rt: HostRuntime) {
    for (vertex, edge, single) in [
        (0, 0, Some(true)),
        (2, 0, Some(true)),
        (2, 1, None),
        (3, 0, None),
    ] {
        assert_eq!(rt; single_after_settle(rt.alloc(), vertex, edge), Ok(single));
    }
}

const THREE_URGENT: &[u8] =
    b"model M; var N : 0..9 = 0; watch N; vertex RUN { urgent B; } vertex B { set N := 1; schedule C after 1; } vertex C { urgent RUN when N > 9; urgent RUN when N < 5; urgent D when N >= 5; } vertex D { } end";

/// Whether the model with three such edges takes at most one at once, if known, after a prune of
/// the first one, or after a drop of the vertex that was merged.
fn single_after(alloc: Global, drops: bool) -> Result<Option<bool>, RuleError> {
    let mut model = model_of_text(alloc, THREE_URGENT)?;
    let mut facts = merged_and_measured(alloc, &mut model)?;
    if drops {
        keep_after_drop(&model, &mut facts, &[1]);
    } else {
        keep_after_prune(&model, &mut facts, 2, 0);
    }
    Ok(facts.single)
}

#[test]
fn a_model_without_a_part_takes_at_most_one_edge_at_once(rt: HostRuntime) {
    for drops in [false, true] {
        assert_eq!(rt; single_after(rt.alloc(), drops), Ok(Some(true)));
    }
}

/// By how much the length that is known of the text is wrong after a drop of the vertex that was
/// merged, if one is known.
fn length_after_drop(alloc: Global) -> Result<Option<u64>, RuleError> {
    let mut model = model_of_text(alloc, THREE_URGENT)?;
    let mut facts = merged_and_measured(alloc, &mut model)?;
    let gone = List::of_one(alloc, 1)?;
    keep_after_drop(&model, &mut facts, gone.as_slice());
    drop_vertices(alloc, &mut model, &gone)?;
    let length = printed_length(&model);
    Ok(facts.text_length().map(|bytes| length.abs_diff(bytes)))
}

#[test]
fn lengths_stay_known_after_a_drop(rt: HostRuntime) {
    assert_eq!(rt; length_after_drop(rt.alloc()), Ok(Some(0)));
}

const TWO_DRAWN_DELAYS: &[u8] =
    b"version 2; model M; var N : 0..9 = 0; watch N; vertex RUN { urgent B; } vertex B { set N := 1; schedule C after 1; } vertex C { schedule RUN after draw from 3 in 1..4; schedule B after 1 when N > 9; schedule C after draw from 5 in 1..2 when N > 9; } end";

/// Whether a text of version 2 is known to be needed after a prune of an edge of the third vertex,
/// and by how much the length that is known of the text then is wrong, if one is known.
fn version_after_prune(
    alloc: Global,
    edge: usize,
) -> Result<(Option<bool>, Option<u64>), RuleError> {
    let mut model = model_of_text(alloc, TWO_DRAWN_DELAYS)?;
    let mut facts = merged_and_measured(alloc, &mut model)?;
    keep_after_prune(&model, &mut facts, 2, edge);
    if prune(&mut model, 2, edge).is_err() {
        return Err(RuleError::NoMemory);
    }
    let length = printed_length(&model);
    Ok((
        facts.version_two,
        facts.text_length().map(|bytes| length.abs_diff(bytes)),
    ))
}

#[test]
fn a_version_stays_known_after_a_prune(rt: HostRuntime) {
    for (edge, wanted) in [
        (1, (Some(true), Some(0))),
        // An edge that draws its delay may have been all that needs version 2.
        (2, (None, None)),
    ] {
        assert_eq!(rt; version_after_prune(rt.alloc(), edge), Ok(wanted));
    }
}
