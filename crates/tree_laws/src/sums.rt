//! Sums. The functions have empty bodies: what they ensure holds of all sums.

ghost use Rattle.std.specs.Prelude.{◌≡◌, ◌+ℤ◌, ◌*ℤ◌, ◌-ℤ◌, ℤ, Some};
ghost use Rattle.tree_laws.specs.LinearSums.{Operation, SumAtom, SumTerms, LinearSum};
ghost use Rattle.tree_laws.specs.SumValues.{Valuation, operation_value, atom_value, terms_value, sum_value};
ghost use Rattle.tree_laws.specs.Limits.{Interval};
ghost use Rattle.tree_laws.specs.SumEnds.{Ground, Known, atom_ends, primitive_ends, sum_ends};
ghost use Rattle.tree_laws.specs.SumSettled.{added, scaled, subtracted, operation, sum_settled};
ghost use Rattle.tree_laws.specs.Meaning.{Within, Meets, Holds};

/// The values of atoms, lists of terms and sums lie between their ends.
pub fn values_lie_between_ends()
    ensures atoms { (g : Ground) (v : Valuation) (k : Known) → Meets g v → Holds v k
        → (a : SumAtom) (e : Interval) → atom_ends g k a ≡ Some e → Within e (atom_value v a) }
    ensures lists { (g : Ground) (v : Valuation) (k : Known) → Meets g v → Holds v k
        → (p : SumTerms) (e : Interval) → primitive_ends g k p ≡ Some e → Within e (terms_value v p) }
    ensures sums { (g : Ground) (v : Valuation) (k : Known) → Meets g v → Holds v k
        → (s : LinearSum) (e : Interval) → sum_ends g k s ≡ Some e → Within e (sum_value v s) }
{}

/// Sums that are added, multiplied by a number, subtracted or combined.
pub fn operations_have_their_values()
    ensures sum { (g : Ground) (v : Valuation) (s t r : LinearSum) → added g s t ≡ Some r
        → sum_value v r ≡ sum_value v s +ℤ sum_value v t }
    ensures multiple { (g : Ground) (v : Valuation) (n : ℤ) (s r : LinearSum) → scaled g n s ≡ Some r
        → sum_value v r ≡ n *ℤ sum_value v s }
    ensures difference { (g : Ground) (v : Valuation) (s t r : LinearSum) → subtracted g s t ≡ Some r
        → sum_value v r ≡ sum_value v s -ℤ sum_value v t }
    ensures operation { (g : Ground) (v : Valuation) (k : Known) → Meets g v → Holds v k
        → (op : Operation) (s t r : LinearSum) → operation g k op s t ≡ Some r
        → sum_value v r ≡ operation_value op (sum_value v s) (sum_value v t) }
{}

/// A settled sum has the value of the sum.
pub fn settled_sums_keep_their_value()
    ensures { (g : Ground) (v : Valuation) (k : Known) → Meets g v → Holds v k
        → (s r : LinearSum) → sum_settled g k s ≡ Some r → sum_value v r ≡ sum_value v s }
{}
