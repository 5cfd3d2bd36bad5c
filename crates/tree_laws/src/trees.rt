//! Trees. The functions have empty bodies: what they ensure holds of all trees.

ghost use Rattle.std.specs.Prelude.{◌≡◌, ℕ, suc, true, ◌<◌, ◌+ℤ◌, ◌-ℤ◌, ℤ, pos, Some, int_le, cond, Bool, IsTrue, List, map};
ghost use Rattle.tree_laws.specs.LinearSums.{Operation, SumTerms, LinearSum};
ghost use Rattle.tree_laws.specs.SumValues.{Valuation, operation_value, terms_value, sum_value};
ghost use Rattle.tree_laws.specs.Limits.{Interval};
ghost use Rattle.tree_laws.specs.SumEnds.{Ground, Known};
ghost use Rattle.tree_laws.specs.Meaning.{Within, Meets, Holds};
ghost use Rattle.tree_laws.specs.Trees.{CaseTree, tree_value, tree_decided, case_of};
ghost use Rattle.tree_laws.specs.TreesJoined.{OfLeaves, trees_joined, joined_within, cases, tree_sum, tree_difference, tree_operation, choose, renewed};
ghost use Rattle.tree_laws.specs.TreeConditions.{tree_ends};
ghost use Rattle.tree_laws.specs.Agreeing.{trees_agree, ValuedAlike};

/// Decided trees, cases, and the ends of trees.
pub fn cases_have_their_values()
    ensures decided { (g : Ground) (v : Valuation) (k : Known) → Meets g v → Holds v k
        → (t r : CaseTree) → tree_decided g k t ≡ Some r → tree_value v r ≡ tree_value v t }
    ensures case { (g : Ground) (v : Valuation) (k : Known) → Meets g v → Holds v k
        → (p : SumTerms) (m : ℤ) (low high r : CaseTree) → case_of g k p m low high ≡ Some r
        → tree_value v r ≡ cond (int_le (terms_value v p) m) (tree_value v low) (tree_value v high) }
    ensures ends { (g : Ground) (v : Valuation) (k : Known) → Meets g v → Holds v k
        → (t : CaseTree) (e : Interval) → tree_ends g k t ≡ Some e → Within e (tree_value v t) }
{}

/// Joined trees: for a function of sums that keeps a relation of their values, and for each function that is joined.
pub fn joined_trees_have_their_values()
    ensures joined { (g : Ground) (v : Valuation) (f : OfLeaves) (F : List ℤ → ℤ → Bool) → Meets g v
        → ((k : Known) → Holds v k → (ss : List LinearSum) (s : LinearSum) → f k ss ≡ Some s → IsTrue (F (map (sum_value v) ss) (sum_value v s)))
        → (k : Known) → Holds v k → (ts : List CaseTree) (r : CaseTree) → trees_joined g f k ts ≡ Some r → IsTrue (F (map (tree_value v) ts) (tree_value v r)) }
    ensures sum { (g : Ground) (v : Valuation) (k : Known) → Meets g v → Holds v k
        → (a b r : CaseTree) → tree_sum g k a b ≡ Some r → tree_value v r ≡ tree_value v a +ℤ tree_value v b }
    ensures difference { (g : Ground) (v : Valuation) (k : Known) → Meets g v → Holds v k
        → (a b r : CaseTree) → tree_difference g k a b ≡ Some r → tree_value v r ≡ tree_value v a -ℤ tree_value v b }
    ensures operation { (g : Ground) (v : Valuation) (k : Known) → Meets g v → Holds v k
        → (op : Operation) (a b r : CaseTree) → tree_operation g op k a b ≡ Some r → tree_value v r ≡ operation_value op (tree_value v a) (tree_value v b) }
    ensures first { (g : Ground) (v : Valuation) (k : Known) → Meets g v → Holds v k
        → (c a b r : CaseTree) → choose g k c a b ≡ Some r → tree_value v c ≡ pos 1 → tree_value v r ≡ tree_value v a }
    ensures second { (g : Ground) (v : Valuation) (k : Known) → Meets g v → Holds v k
        → (c a b r : CaseTree) → choose g k c a b ≡ Some r → tree_value v c ≡ pos 0 → tree_value v r ≡ tree_value v b }
    ensures renewed { (g : Ground) (v : Valuation) (k : Known) → Meets g v → Holds v k
        → (t r : CaseTree) → renewed g k t ≡ Some r → tree_value v r ≡ tree_value v t }
{}

/// One step more than there are cases is enough to join trees: more steps change nothing.
pub fn steps_are_enough()
    ensures { (g : Ground) (f : OfLeaves) (n : ℕ) (k : Known) (ts : List CaseTree) → cases ts < n
        → joined_within g f n k ts ≡ joined_within g f (suc (cases ts)) k ts }
{}

/// Trees that agree have one value, where variables that count as one have one value.
pub fn agreeing_trees_have_one_value()
    ensures { (one : ℕ → ℕ → Bool) (v w : Valuation) → ValuedAlike one v w
        → (t u : CaseTree) → trees_agree one t u ≡ true → tree_value v t ≡ tree_value w u }
{}
