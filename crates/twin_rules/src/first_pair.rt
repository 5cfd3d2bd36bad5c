//! The first two vertices that may be fused.

ghost use Rattle.std.specs.Prelude.{◌≡◌, ◌<◌, true, false, length};
ghost use Rattle.model_core.specs.Rules.Fuse.{has_short_text, are_twins, first_twin_of, first_twins};
ghost use Rattle.model_core.specs.Code.Views.{graph_of};
ghost use Rattle.twin_rules.specs.Inner.ComparedPairs.{are_alike, SkipsUnchanged, NoneAlike, NoneAlikeBefore, NoneAlikeWith};
ghost use Rattle.twin_rules.specs.Inner.KeptFingerprints.{AreFingerprints};
ghost use Rattle.twin_rules.specs.Inner.KeptRows.{IsRow};

use crate::conditions::{are_alike, is_within_limits};
use crate::fingerprint_table::FingerprintTable;
use crate::later_candidates::{Row, next_candidate};
use crate::pair_search::PairSearch;
use model_core::Model;

/// Whether two vertices may be fused. `none_alike` stays true if it is known that they are alike only if they may.
fn are_twins(
    model: &Model,
    short: bool,
    prints: &FingerprintTable,
    row: &Row,
    keep: usize,
    gone: usize,
    none_alike: &mut bool,
) -> bool
    requires short { short ≡ true → has_short_text (graph_of model.now) ≡ true }
    requires prints { AreFingerprints (graph_of model.now) prints.now }
    requires row { IsRow (graph_of model.now) prints.now keep row.now }
    requires keep { keep < length model.now.vertices }
    requires gone { gone < length model.now.vertices }
    ensures twins { result ≡ are_twins (graph_of model.now) keep gone }
    ensures none_alike { none_alike.new ≡ true
        → (none_alike.old ≡ true)
        × (result ≡ false → are_alike (graph_of model.now) keep gone ≡ false) }
{
    if !row.may_be_alike(prints, gone) {
        return false;
    }
    if !are_alike(model, prints, keep, gone) {
        return false;
    }
    let within = is_within_limits(model, short, keep, gone);
    *none_alike = *none_alike && within;
    within
}

/// The first vertex that may be fused into the one at this place. `none_alike` stays true if it is known that none before it is
/// alike.
fn first_twin_of(
    model: &Model,
    short: bool,
    prints: &FingerprintTable,
    asked: &PairSearch,
    keep: usize,
    none_alike: &mut bool,
) -> Option<usize>
    requires short { short ≡ true → has_short_text (graph_of model.now) ≡ true }
    requires prints { AreFingerprints (graph_of model.now) prints.now }
    requires asked { NoneAlike (graph_of model.now) asked.now }
    requires skips { SkipsUnchanged asked.now }
    requires keep { keep < length model.now.vertices }
    ensures found { result ≡ first_twin_of (graph_of model.now) keep }
    ensures none_alike { none_alike.new ≡ true
        → (none_alike.old ≡ true) × NoneAlikeWith (graph_of model.now) keep result }
{
    let count = model.vertices.len();
    let mut gone = next_candidate(model, prints, asked, keep, keep + 1);
    if gone >= count {
        return None;
    }
    let row = Row::of(model, prints, keep);
    while gone < count {
        if are_twins(model, short, prints, &row, keep, gone, none_alike) {
            return Some(gone);
        }
        gone = next_candidate(model, prints, asked, keep, gone + 1);
    }
    None
}

/// The first two vertices that may be fused, if no pair that was looked at is alike. `short` may say that the model is within
/// the limits. `none_alike` stays true if it is known that no pair before them is alike.
pub(crate) fn first_twins_in(
    model: &Model,
    short: bool,
    prints: &FingerprintTable,
    asked: &PairSearch,
    none_alike: &mut bool,
) -> Option<(usize, usize)>
    requires short { short ≡ true → has_short_text (graph_of model.now) ≡ true }
    requires prints { AreFingerprints (graph_of model.now) prints.now }
    requires asked { NoneAlike (graph_of model.now) asked.now }
    requires skips { SkipsUnchanged asked.now }
    ensures found { result ≡ first_twins (graph_of model.now) }
    ensures none_alike { none_alike.new ≡ true → NoneAlikeBefore (graph_of model.now) result }
{
    for keep in 0..model.vertices.len() {
        if let Some(gone) = first_twin_of(model, short, prints, asked, keep, none_alike) {
            return Some((keep, gone));
        }
    }
    None
}

/// The first two vertices that may be fused, by the one that is kept and then by the one that goes: their places from 0.
pub fn first_twins(model: &Model) -> Option<(usize, usize)>
    ensures { result ≡ first_twins (graph_of model.now) }
{
    let asked = PairSearch::none();
    let mut prints = FingerprintTable::none();
    prints.fill(model, &asked);
    first_twins_in(model, false, &prints, &asked, &mut true)
}
