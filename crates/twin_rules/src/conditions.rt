//! The conditions of fuse, and the first of them that two vertices fail.

ghost use Rattle.std.specs.Prelude.{◌≡◌, ◌<◌, true, None, take, length};
ghost use Rattle.model_core.specs.Rules.Conditions.{first_failed};
ghost use Rattle.model_core.specs.Rules.Fuse.{fused, has_short_text, fuse_conditions};
ghost use Rattle.twin_rules.specs.Inner.ComparedPairs.{are_alike, alike_by};
ghost use Rattle.twin_rules.specs.Inner.KeptFingerprints.{AreFingerprints};
ghost use Rattle.twin_rules.specs.Inner.MarkedVertices.{is_barred};
ghost use Rattle.model_core.specs.Code.Views.{graph_of};

use crate::fingerprint_table::FingerprintTable;
use crate::same_doing::{have_same_edges, have_same_events};
use crate::unwatched_uncancelled::{are_uncancelled, are_unwatched, can_be_cancelled};
use model_core::{Model, is_watched};
use model_print::fused_length;
use sig_base::TEXT_MAX;

/// The first condition but that on the limits that fails, by its number from 1.
fn failed_before_limits(model: &Model, keep: usize, gone: usize) -> Option<u8>
    ensures { result ≡ first_failed (take 5 (fuse_conditions (graph_of model.now) keep gone)) }
{
    if keep >= gone || gone >= model.vertices.len() {
        return Some(1);
    }
    if !are_unwatched(model, keep, gone) {
        return Some(2);
    }
    if !are_uncancelled(model, keep, gone) {
        return Some(3);
    }
    if !have_same_events(model, keep, gone) {
        return Some(4);
    }
    if !have_same_edges(model, keep, gone) {
        return Some(5);
    }
    None
}

/// Whether the result is within the limits. If the model is (`short`), and the vertex that stays has no longer name, the result
/// needn't be measured.
pub(crate) fn is_within_limits(model: &Model, short: bool, keep: usize, gone: usize) -> bool
    requires short { short ≡ true → has_short_text (graph_of model.now) ≡ true }
    requires holds { first_failed (take 5 (fuse_conditions (graph_of model.now) keep gone)) ≡ None }
    ensures { result ≡ has_short_text (fused (graph_of model.now) keep gone) }
{
    if short && model.vertex_name(keep).len() <= model.vertex_name(gone).len() {
        true
    } else {
        fused_length(model, keep, gone) <= TEXT_MAX as u64
    }
}

/// The first condition of fuse that fails, by its number from 1. `short` may say that the model is within the limits.
pub(crate) fn failed_fuse(model: &Model, short: bool, keep: usize, gone: usize) -> Option<u8>
    requires short { short ≡ true → has_short_text (graph_of model.now) ≡ true }
    ensures { result ≡ first_failed (fuse_conditions (graph_of model.now) keep gone) }
{
    if let Some(condition) = failed_before_limits(model, keep, gone) {
        return Some(condition);
    }
    if is_within_limits(model, short, keep, gone) {
        None
    } else {
        Some(6)
    }
}

/// Whether a vertex is watched or its events are cancelled.
fn is_barred(model: &Model, prints: &FingerprintTable, vertex: usize) -> bool
    requires { AreFingerprints (graph_of model.now) prints.now }
    ensures { result ≡ is_barred (graph_of model.now) vertex }
{
    match prints.at(vertex) {
        Some(print) => print.barred,
        None => is_watched(model, vertex) || can_be_cancelled(model, vertex),
    }
}

/// Whether two vertices aren't watched, no edge cancels their events, and they do the same.
fn do_the_same(model: &Model, prints: &FingerprintTable, keep: usize, gone: usize) -> bool
    requires prints { AreFingerprints (graph_of model.now) prints.now }
    requires keep { keep < length model.now.vertices }
    requires gone { gone < length model.now.vertices }
    ensures { result ≡ alike_by (graph_of model.now) keep gone }
{
    keep < gone
        && !is_barred(model, prints, keep)
        && !is_barred(model, prints, gone)
        && have_same_edges(model, keep, gone)
        && have_same_events(model, keep, gone)
}

/// Whether two vertices meet all conditions but that on the limits.
pub(crate) fn are_alike(model: &Model, prints: &FingerprintTable, keep: usize, gone: usize) -> bool
    requires prints { AreFingerprints (graph_of model.now) prints.now }
    requires keep { keep < length model.now.vertices }
    requires gone { gone < length model.now.vertices }
    ensures { result ≡ are_alike (graph_of model.now) keep gone }
{
    do_the_same(model, prints, keep, gone)
}
