//! What a model gives for its sums.

ghost use Rattle.std.specs.Prelude.{◌≡◌};
ghost use Rattle.case_trees.specs.TermViews.{atom_of};

use crate::terms::Atom;

/// What a model gives for its sums: the order of their atoms.
pub trait Ground {
    ghost use Rattle.tree_laws.specs.SumEnds.{Ground as GroundOfSums};

    // The ground of the definitions.
    ghost base: { Self → GroundOfSums };

    /// Whether an atom stands before another.
    fn atom_before(&self, a: &Atom, b: &Atom) -> bool
        ensures { result ≡ (base self.now).before (atom_of a.now) (atom_of b.now) };
}
