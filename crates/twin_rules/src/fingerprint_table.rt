//! The fingerprints of all vertices, kept up to date while twins are fused.

ghost use Rattle.std.specs.Prelude.{◌≡◌, ◌<◌, ◌==◌, ◌++◌, ◌∷◌, [], ℕ, true, false, Some, None, length, map, slice_get};
ghost use Rattle.std.specs.List.{remove};
ghost use Rattle.sig_base.specs.declared.limits.TheConstants.{VERTICES_MAX as LIMIT};
ghost use Rattle.model_core.specs.Run.Step.{vertex_at};
ghost use Rattle.model_core.specs.Code.Views.{graph_of, edge_of};
ghost use Rattle.twin_rules.specs.declared.vertex_fingerprint.VertexFingerprint.{VertexFingerprint as Kept};
ghost use Rattle.twin_rules.specs.Inner.ComparedPairs.{has_changed};
ghost use Rattle.twin_rules.specs.Inner.Fingerprints.{half, targets_fingerprint, vertex_fingerprint};
ghost use Rattle.twin_rules.specs.Inner.MarkedVertices.{has_mark};
ghost use Rattle.twin_rules.specs.Inner.KeptFingerprints.{number_in, targets_fingerprint_at, AreFingerprints, AreFingerprintsBut, AreFingerprintsOfAll, IsRenewed};

use crate::fingerprint::{half, mixed, vertex_fingerprint};
use crate::marks::Marks;
use crate::pair_search::PairSearch;
use crate::same_doing::vertex_at;
use crate::vertex_fingerprint::VertexFingerprint;
use model_core::{Edge, Model};
use sig_base::VERTICES_MAX;

/// What is kept of the vertices, up to the limit on vertices. Takes no memory.
#[derive(Drop)]
pub(crate) struct FingerprintTable {
    count: usize,
    prints: [VertexFingerprint; VERTICES_MAX],
}

impl std::marker::Model for FingerprintTable {
    ghost use Rattle.std.specs.Prelude.{◌≤◌, List, take};
    ghost use Rattle.sig_base.specs.declared.limits.TheConstants.{VERTICES_MAX as MOST};
    ghost use Rattle.twin_rules.specs.declared.vertex_fingerprint.VertexFingerprint.{VertexFingerprint as Item};

    ghost Value = { List Item };

    ghost view = { λ p. take p.count p.prints };

    ghost invariant = { λ p. p.count ≤ MOST };
}

impl FingerprintTable {
    /// Nothing is kept.
    pub(crate) fn none() -> FingerprintTable
        ensures { result ≡ [] }
    {
        let nothing = VertexFingerprint {
            doing: 0,
            aims: 0,
            number: 0,
            barred: true,
        };
        FingerprintTable {
            count: 0,
            prints: [nothing; VERTICES_MAX],
        }
    }

    /// What is kept of the vertex at this place, if anything is.
    pub(crate) fn at(&self, place: usize) -> Option<VertexFingerprint>
        ensures { result ≡ slice_get self.now place }
    {
        if place < self.count {
            Some(self.prints[place])
        } else {
            None
        }
    }

    /// Keeps this of one more vertex.
    fn push(&mut self, print: VertexFingerprint)
        requires { length self.old < LIMIT }
        ensures { self.new ≡ self.old ++ print ∷ [] }
    {
        self.prints[self.count] = print;
        self.count += 1;
    }

    /// Keeps nothing of the vertex at this place. The vertices after it move up.
    pub(crate) fn forget(&mut self, gone: usize)
        ensures { self.new ≡ remove self.old gone }
    {
        if gone < self.count {
            self.prints.copy_within(gone + 1..self.count, gone);
            self.count -= 1;
        }
    }

    /// Keeps another print of the targets of a vertex's edges, if anything is kept of it.
    fn set_aims(&mut self, place: usize, aims: u32)
        ensures length { length self.new ≡ length self.old }
        ensures others { (x : ℕ) → (x == place) ≡ false
            → slice_get self.new x ≡ slice_get self.old x }
        ensures here { (p : Kept) → slice_get self.old place ≡ Some p
            → slice_get self.new place ≡ Some (record p { aims = aims }) }
        ensures beyond { slice_get self.old place ≡ None → slice_get self.new place ≡ None }
    {
        if place < self.count {
            self.prints[place].aims = aims;
        }
    }

    /// The number of the vertex at this place, in fingerprints.
    fn number(&self, place: usize) -> u64
        ensures { result ≡ number_in self.now place }
    {
        match self.at(place) {
            Some(print) => print.number as u64,
            None => VERTICES_MAX as u64,
        }
    }

    /// The print of the targets of edges.
    fn aims(&self, edges: &[Edge]) -> u64
        ensures { result ≡ targets_fingerprint (number_in self.now) (map edge_of edges.now) }
    {
        let mut print = 0;
        for edge in edges {
            print = mixed(print, self.number(edge.target));
        }
        print
    }

    /// The print of the targets of the vertex's edges.
    fn targets_fingerprint_at(&self, model: &Model, place: usize) -> u32
        ensures { result ≡ targets_fingerprint_at (graph_of model.now) self.now place }
    {
        match model.vertices.as_slice().get(place) {
            Some(vertex) => half(self.aims(vertex.edges.as_slice())),
            None => half(0),
        }
    }

    /// Prints the targets of the vertex's edges anew.
    fn renew_at(&mut self, model: &Model, place: usize)
        ensures { IsRenewed (graph_of model.now) self.old self.new place }
    {
        let aims = self.targets_fingerprint_at(model, place);
        self.set_aims(place, aims);
    }

    /// Prints the targets of the edges of all vertices that have changed anew.
    pub(crate) fn renew(&mut self, model: &Model, asked: &PairSearch)
        requires { AreFingerprintsBut (graph_of model.now) self.old asked.now.changed }
        ensures { AreFingerprints (graph_of model.now) self.new }
    {
        for place in 0..self.count {
            if asked.has_changed(place) {
                self.renew_at(model, place);
            }
        }
    }

    /// What is kept of a vertex at first: nothing yet of its targets.
    fn first_fingerprint(model: &Model, barred: &Marks, place: usize) -> VertexFingerprint
        requires there { place < length model.now.vertices }
        requires within { place < LIMIT }
        ensures doing { result.doing
            ≡ half (vertex_fingerprint (vertex_at (graph_of model.now) place)) }
        ensures barred { result.barred ≡ has_mark barred.now place }
    {
        VertexFingerprint {
            doing: half(vertex_fingerprint(vertex_at(model, place))),
            aims: 0,
            number: place as u16,
            barred: barred.has(place),
        }
    }

    /// Keeps what is to be kept of the vertices at first: nothing yet of their targets.
    fn fill_without_aims(&mut self, model: &Model)
        requires { self.old ≡ [] }
        ensures { AreFingerprintsOfAll (graph_of model.now) self.new }
    {
        let barred = Marks::barred(model);
        for place in 0..model.vertices.len().min(VERTICES_MAX) {
            self.push(FingerprintTable::first_fingerprint(model, &barred, place));
        }
    }

    /// Keeps what is to be kept of the vertices, each of which counts as changed.
    pub(crate) fn fill(&mut self, model: &Model, asked: &PairSearch)
        requires empty { self.old ≡ [] }
        requires changed { (k : ℕ) → has_changed asked.now.changed k ≡ true }
        ensures { AreFingerprints (graph_of model.now) self.new }
    {
        self.fill_without_aims(model);
        self.renew(model, asked);
    }
}
