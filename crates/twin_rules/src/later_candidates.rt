//! The vertices after a given one that may be its twins: most are found different at once, by their fingerprints.

ghost use Rattle.std.specs.Prelude.{◌≡◌, ◌<◌, ◌≤◌, ℕ, false};
ghost use Rattle.model_core.specs.EventGraph.{EventGraph};
ghost use Rattle.model_core.specs.Code.Views.{graph_of};
ghost use Rattle.twin_rules.specs.Inner.ComparedPairs.{are_alike, some_leads, SkipsUnchanged, NoneAlike};
ghost use Rattle.twin_rules.specs.Inner.KeptFingerprints.{AreFingerprints};
ghost use Rattle.twin_rules.specs.Inner.MarkedVertices.{has_mark};
ghost use Rattle.twin_rules.specs.Inner.KeptRows.{fingerprints_agree, IsRow};

use crate::fingerprint_table::FingerprintTable;
use crate::marks::Marks;
use crate::pair_search::PairSearch;
use crate::vertex_fingerprint::VertexFingerprint;
use model_core::Model;

/// A vertex that is compared with those after it.
#[derive(Drop)]
pub(crate) struct Row {
    /// What is kept of it.
    print: Option<VertexFingerprint>,
    /// The vertices that its edges lead to.
    leads: Marks,
    /// Whether an edge of the vertex leads back to it.
    loops: bool,
}

/// The vertices that the edges of the vertex at this place lead to.
fn target_marks(model: &Model, place: usize) -> Marks
    ensures { (v : ℕ) → has_mark result v ≡ false
        → some_leads (graph_of model.now) place v ≡ false }
{
    match model.vertices.as_slice().get(place) {
        Some(vertex) => Marks::target_marks(vertex.edges.as_slice()),
        None => Marks::none(),
    }
}

/// Whether two vertices of which this is kept may be alike, if the caller says whether the first leads to one of the two.
fn fingerprints_agree(own: VertexFingerprint, other: VertexFingerprint, leads: bool) -> bool
    ensures { result ≡ fingerprints_agree own other leads }
{
    own.doing == other.doing && (own.aims == other.aims || leads) && !own.barred && !other.barred
}

/// Whether two vertices may be alike by what is kept of them, wherever their edges lead.
fn may_do_the_same(prints: &FingerprintTable, keep: usize, gone: usize) -> bool
    ensures { (g : EventGraph) → AreFingerprints g prints.now → result ≡ false
        → are_alike g keep gone ≡ false }
{
    match (prints.at(keep), prints.at(gone)) {
        (Some(own), Some(other)) => fingerprints_agree(own, other, true),
        _ => true,
    }
}

/// The next vertex from this place on that may be alike with the one at `keep`, or a place after all vertices.
pub(crate) fn next_candidate(
    model: &Model,
    prints: &FingerprintTable,
    asked: &PairSearch,
    keep: usize,
    from: usize,
) -> usize
    requires prints { AreFingerprints (graph_of model.now) prints.now }
    requires asked { NoneAlike (graph_of model.now) asked.now }
    requires skips { SkipsUnchanged asked.now }
    ensures at_least { from ≤ result }
    ensures passed { (y : ℕ) → from ≤ y → y < result
        → are_alike (graph_of model.now) keep y ≡ false }
{
    let count = model.vertices.len();
    let mut gone = asked.next(keep, from);
    while gone < count && !may_do_the_same(prints, keep, gone) {
        gone = asked.next(keep, gone + 1);
    }
    gone
}

impl Row {
    /// The row of the vertex at a place.
    pub(crate) fn of(model: &Model, prints: &FingerprintTable, keep: usize) -> Row
        ensures { IsRow (graph_of model.now) prints.now keep result }
    {
        let leads = target_marks(model, keep);
        Row {
            print: prints.at(keep),
            loops: leads.has(keep),
            leads,
        }
    }

    /// Whether the vertex may be alike with the one at this place, as far as fingerprints show.
    pub(crate) fn may_be_alike(&self, prints: &FingerprintTable, gone: usize) -> bool
        ensures { (g : EventGraph) (keep : ℕ) → AreFingerprints g prints.now
            → IsRow g prints.now keep self.now → result ≡ false → are_alike g keep gone ≡ false }
    {
        match (self.print, prints.at(gone)) {
            (Some(own), Some(other)) => {
                fingerprints_agree(own, other, self.loops || self.leads.has(gone))
            }
            _ => true,
        }
    }
}
