//! The laws of narrower ranges. The functions do nothing: what they ensure holds of all models.

ghost use Rattle.std.specs.Prelude.{◌≡◌, ℕ, ◌≤◌, ◌^◌, ℤ, ◌≤ℤ◌, ◌<ℤ◌, IsTrue, true, List, length, Some, Ok};
ghost use Rattle.std.specs.List.{AllByRecursion};
ghost use Rattle.sig_base.specs.declared.limits.TheConstants.{TEXT_MAX};
ghost use Rattle.model_core.specs.declared.model.Kind.{Kind};
ghost use Rattle.model_core.specs.EventGraph.{EventGraph, Expression, Operator};
ghost use Rattle.model_core.specs.Run.State.{State, in_range};
ghost use Rattle.model_core.specs.Run.Value.{value_of};
ghost use Rattle.model_core.specs.Run.Machine.{Reached};
ghost use Rattle.model_core.specs.Run.History.{Moment, start, reached_from};
ghost use Rattle.model_core.specs.Run.Same.{Same};
ghost use Rattle.model_core.specs.Text.Canonical.{canonical};
ghost use Rattle.model_core.specs.Static.HasKind.{HasKind};
ghost use Rattle.model_core.specs.Static.OwnRules.{KeepsVariable};
ghost use Rattle.model_core.specs.Static.Reading.{IsValid};
ghost use Rattle.model_core.specs.Rules.BoundsHold.{NumberIn, IsIn};
ghost use Rattle.model_core.specs.Rules.Exclusive.{compares, is_comparison};
ghost use Rattle.model_core.specs.Ranges.OtherRanges.{LiesIn, model_with_ranges};
ghost use Rattle.model_core.specs.Ranges.BoundsIn.{bounds_in};
ghost use Rattle.model_core.specs.Ranges.Refined.{numbers_left};
ghost use Rattle.model_core.specs.Ranges.Inductive.{Encloses, Fitting, Inductive};
ghost use Rattle.model_core.specs.Ranges.Inference.{IsInferred};
ghost use Rattle.model_core.specs.Ranges.Narrowed.{IsNarrowed};

use model_core::VarRange;
use round_trip::validity_is_by_parts;

/// In every state within ranges that fit a model, and at each clock up to 2^48, each value that an expression gives lies in
/// its bounds under these ranges, between their ends too, and an expression that is quiet under them has no fault.
pub fn values_lie_in_bounds_under_ranges()
    ensures inside { (g : EventGraph) (ranges : List VarRange) (s : State) (clk : ℕ)
        (e : Expression) (k : Kind) (x : ℤ)
        → AllByRecursion KeepsVariable g.variables → Fitting g ranges
        → IsTrue (in_range (model_with_ranges g ranges) s) → clk ≤ 2 ^ 48
        → HasKind g.variables e k → value_of g s clk e ≡ Ok x → IsIn k (bounds_in g ranges e) x }
    ensures between { (g : EventGraph) (ranges : List VarRange) (s : State) (clk : ℕ)
        (e : Expression) (k : Kind) (x : ℤ)
        → AllByRecursion KeepsVariable g.variables → Fitting g ranges
        → IsTrue (in_range (model_with_ranges g ranges) s) → clk ≤ 2 ^ 48
        → HasKind g.variables e k → value_of g s clk e ≡ Ok x → NumberIn (bounds_in g ranges e) x }
    ensures no_fault { (g : EventGraph) (ranges : List VarRange) (s : State) (clk : ℕ)
        (e : Expression) (k : Kind)
        → AllByRecursion KeepsVariable g.variables → Fitting g ranges
        → IsTrue (in_range (model_with_ranges g ranges) s) → clk ≤ 2 ^ 48
        → HasKind g.variables e k → (bounds_in g ranges e).quiet ≡ true
        → (x : ℤ) × (value_of g s clk e ≡ Ok x) }
{}

/// A valid model with inductive ranges declared means the same, and is valid where its text isn't too long.
pub fn narrowing_keeps_the_meaning()
    ensures valid { (g : EventGraph) (ranges : List VarRange) → IsValid g → Fitting g ranges
        → Inductive g ranges
        → length (canonical (model_with_ranges g ranges)) ≤ TEXT_MAX
        → IsValid (model_with_ranges g ranges) }
    ensures same { (g : EventGraph) (ranges : List VarRange) → IsValid g → Fitting g ranges
        → Inductive g ranges
        → Same g (model_with_ranges g ranges) }
{
    validity_is_by_parts();
}

/// The rounds of a valid model end. The rounds of any model end with one list of ranges at most; those of a valid one fit it,
/// and no run leaves them.
pub fn rounds_end_with_inductive_ranges()
    ensures end { (g : EventGraph) → IsValid g → (ranges : List VarRange) × IsInferred g ranges }
    ensures one { (g : EventGraph) (a b : List VarRange) → IsInferred g a → IsInferred g b → a ≡ b }
    ensures fitting { (g : EventGraph) (ranges : List VarRange) → IsValid g → IsInferred g ranges
        → Fitting g ranges }
    ensures inductive { (g : EventGraph) (ranges : List VarRange) → IsValid g → IsInferred g ranges
        → Inductive g ranges }
{
    validity_is_by_parts();
}

/// Of the numbers of a range those for which a comparison holds all lie in what is left of it, which is the least such
/// range; where none is left, its lower end is above its upper one.
pub fn what_is_left_is_the_least()
    ensures all { (op : Operator) (n x : ℤ) (r : VarRange) → LiesIn r x → compares op x n ≡ true
        → LiesIn (numbers_left op n r) x }
    ensures least { (op : Operator) (n : ℤ) (r s : VarRange) → is_comparison op ≡ true
        → (numbers_left op n r).lo ≤ℤ (numbers_left op n r).hi
        → ((x : ℤ) → LiesIn r x → compares op x n ≡ true → LiesIn s x)
        → Encloses s (numbers_left op n r) }
    ensures none { (op : Operator) (n x : ℤ) (r : VarRange) → is_comparison op ≡ true
        → (numbers_left op n r).hi <ℤ (numbers_left op n r).lo
        → LiesIn r x → compares op x n ≡ true → ⊥ }
{}

/// A valid model with the ranges declared that it needs is valid and means the same. There is one for each valid model, and
/// no more than one for any.
pub fn narrowed_models_mean_the_same()
    ensures valid { (g h : EventGraph) → IsValid g → IsNarrowed g h → IsValid h }
    ensures same { (g h : EventGraph) → IsValid g → IsNarrowed g h → Same g h }
    ensures exists { (g : EventGraph) → IsValid g → (h : EventGraph) × IsNarrowed g h }
    ensures determined { (g h k : EventGraph) → IsNarrowed g h → IsNarrowed g k → h ≡ k }
{
    narrowing_keeps_the_meaning();
    rounds_end_with_inductive_ranges();
}

/// No run of a valid model leaves inductive ranges, nor the ranges of the narrowed model: at each moment that it reaches by a
/// stop time of at most 2^48, after any number of steps, each value lies in its variable's range.
pub fn no_run_leaves_the_ranges()
    ensures inductive { (g : EventGraph) (ranges : List VarRange) (seed until n : ℕ)
        (starts : List ℤ) (r : Reached Moment) → IsValid g → Fitting g ranges
        → Inductive g ranges → until ≤ 2 ^ 48
        → reached_from g seed until n (start g starts) ≡ Some r
        → IsTrue (in_range (model_with_ranges g ranges) r.moment.now.state) }
    ensures narrowed { (g h : EventGraph) (seed until n : ℕ) (starts : List ℤ)
        (r : Reached Moment) → IsValid g → IsNarrowed g h → until ≤ 2 ^ 48
        → reached_from g seed until n (start g starts) ≡ Some r
        → IsTrue (in_range h r.moment.now.state) }
{
    validity_is_by_parts();
    rounds_end_with_inductive_ranges();
}
