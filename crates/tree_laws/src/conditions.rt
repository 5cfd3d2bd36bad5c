//! Conditions. The functions have empty bodies: what they ensure holds of all trees.

ghost use Rattle.std.specs.Prelude.{◌≡◌, ◌-ℤ◌, ℕ, ℤ, pos, Some, int_lt, int_le, Bool, IsTrue};
ghost use Rattle.std.specs.Ordering.{int_eq};
ghost use Rattle.model_core.specs.Run.State.{within};
ghost use Rattle.model_core.specs.Run.Value.{number_of};
ghost use Rattle.tree_laws.specs.LinearSums.{SumAtom, LinearSum};
ghost use Rattle.tree_laws.specs.SumValues.{Valuation, atom_value, sum_value};
ghost use Rattle.tree_laws.specs.SumEnds.{Ground, Known};
ghost use Rattle.tree_laws.specs.Meaning.{Meets, Holds};
ghost use Rattle.tree_laws.specs.Trees.{CaseTree, tree_value};
ghost use Rattle.tree_laws.specs.TreeConditions.{OfLeaf, spliced, at_most_tree, less_tree, equal_tree, between_tree, opposite_tree, read_tree, read_cell, learned};

/// Spliced trees, reads, and the conditions on trees.
pub fn conditions_have_their_values()
    ensures spliced { (g : Ground) (v : Valuation) (f : OfLeaf) (F : ℤ → ℤ → Bool) → Meets g v
        → ((k : Known) → Holds v k → (s : LinearSum) (t : CaseTree) → f k s ≡ Some t → IsTrue (F (sum_value v s) (tree_value v t)))
        → (k : Known) → Holds v k → (t r : CaseTree) → spliced g f k t ≡ Some r → IsTrue (F (tree_value v t) (tree_value v r)) }
    ensures read { (g : Ground) (v : Valuation) (k : Known) → Meets g v → Holds v k
        → (a : SumAtom) (r : CaseTree) → read_tree g k a ≡ Some r → tree_value v r ≡ atom_value v a }
    ensures cell { (g : Ground) (v : Valuation) (k : Known) → Meets g v → Holds v k
        → (i : ℕ) (t r : CaseTree) → read_cell g i k t ≡ Some r → tree_value v r ≡ v.cell i (tree_value v t) }
    ensures at_most { (g : Ground) (v : Valuation) (k : Known) → Meets g v → Holds v k
        → (t r : CaseTree) (n : ℤ) → at_most_tree g k t n ≡ Some r → tree_value v r ≡ number_of (int_le (tree_value v t) n) }
    ensures less { (g : Ground) (v : Valuation) (k : Known) → Meets g v → Holds v k
        → (a b r : CaseTree) → less_tree g k a b ≡ Some r → tree_value v r ≡ number_of (int_lt (tree_value v a) (tree_value v b)) }
    ensures equal { (g : Ground) (v : Valuation) (k : Known) → Meets g v → Holds v k
        → (a b r : CaseTree) → equal_tree g k a b ≡ Some r → tree_value v r ≡ number_of (int_eq (tree_value v a) (tree_value v b)) }
    ensures between { (g : Ground) (v : Valuation) (k : Known) → Meets g v → Holds v k
        → (t r : CaseTree) (lo hi : ℤ) → between_tree g k t lo hi ≡ Some r → tree_value v r ≡ number_of (within lo hi (tree_value v t)) }
    ensures opposite { (g : Ground) (v : Valuation) (k : Known) → Meets g v → Holds v k
        → (c r : CaseTree) → opposite_tree g k c ≡ Some r → tree_value v r ≡ pos 1 -ℤ tree_value v c }
{}

/// What is learned of a condition holds wherever the condition isn't 0.
pub fn what_is_learned_holds()
    ensures { (g : Ground) (v : Valuation) (k l : Known) → Meets g v → Holds v k
        → (c : CaseTree) → learned g k c ≡ Some l → ¬ (tree_value v c ≡ pos 0) → Holds v l }
{}
