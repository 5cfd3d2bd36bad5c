//! Classes that links join. The functions have empty bodies: what they ensure holds of all links and trees.

ghost use Rattle.std.specs.Prelude.{◌≡◌, ℕ, ℤ, List};
ghost use Rattle.tree_laws.specs.SumValues.{Valuation};
ghost use Rattle.tree_laws.specs.Trees.{CaseTree, tree_value};
ghost use Rattle.tree_laws.specs.Agreeing.{ValuedAlike};
ghost use Rattle.walk_laws.specs.Links.{Side, First, Second, Link, class_of, OfLinks};
ghost use Rattle.walk_laws.specs.ByClass.{tree_by, of_one_class};

use tree_laws::agreeing_trees_have_one_value;

/// A number that is one for the two numbers of each link is one for all numbers of a class.
pub fn links_carry_to_classes()
    ensures { (val : Side → ℕ) (links : List Link) → OfLinks (λ a b. val (First a) ≡ val (Second b)) links
        → (n m : Side) → class_of links n ≡ class_of links m → val n ≡ val m }
{}

/// Trees that are the same but for variables of one class have one value, where variables of one class have one value.
pub fn trees_of_one_class_have_one_value()
    ensures { (k l : ℕ → ℕ) (v w : Valuation) → ValuedAlike (of_one_class k l) v w
        → (t u : CaseTree) → tree_by k t ≡ tree_by l u → tree_value v t ≡ tree_value w u }
{
    agreeing_trees_have_one_value();
}
