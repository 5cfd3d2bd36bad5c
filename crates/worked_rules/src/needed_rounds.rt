//! How ranges grow in rounds, half by half, and the model that declares them.
#![tactic(auto, unfolding(model_core::specs::Rules::BoundsTable::exact_bounds, model_core::specs::Rules::BoundsTable::least_of, model_core::specs::Rules::BoundsTable::greatest_of))]

ghost use Rattle.std.specs.Prelude.{◌≡◌, ◌<◌, ◌∷◌, [], pos, neg_ℤ, true, false, map, List, Some, None, suc};
ghost use Rattle.model_core.specs.declared.var_range.VarRange.{VarRange};
ghost use Rattle.model_core.specs.EventGraph.{EventGraph};
ghost use Rattle.model_core.specs.Ranges.Inductive.{is_fixed};
ghost use Rattle.model_core.specs.Ranges.Inference.{hull, grown_range, ends_moved, first_range, next_range, after_rounds, round, IsInferred};
ghost use Rattle.worked_runs.specs.NarrowModel.{range};
ghost use Rattle.worked_rules.specs.RangedModels.{span, fed, takes_in, needing_all, ranges_of_all, growing_cell};

/// A range grows at the end that the variable needs, and where it is late, to the declared end.
// hull: none; the lower end, the upper one, both, neither; a range grows by what its own variable
// takes, and keeps; ends: not late, late at the lower, the upper, both, neither.
pub fn ranges_grow()
    ensures hulls { map (hull (span 3 5))
        (None ∷ Some (span 1 4) ∷ Some (span 4 9) ∷ Some (span 1 9) ∷ Some (span 4 4) ∷ [])
        ≡ span 3 5 ∷ span 1 5 ∷ span 3 9 ∷ span 1 9 ∷ span 3 5 ∷ [] }
    ensures by_its_own { map (grown_range fed 0 (span 3 5))
        (takes_in 0 (pos 1) (pos 20) ∷ takes_in 1 (pos 1) (pos 20)
        ∷ takes_in 0 (pos 10) (pos 20) ∷ [])
        ≡ span 1 9 ∷ span 3 5 ∷ span 3 5 ∷ [] }
    ensures in_time { map (ends_moved false (span 0 9) (span 3 5))
        (span 3 5 ∷ span 2 5 ∷ span 3 6 ∷ span 2 6 ∷ [])
        ≡ span 3 5 ∷ span 2 5 ∷ span 3 6 ∷ span 2 6 ∷ [] }
    ensures late { map (ends_moved true (span 0 9) (span 3 5))
        (span 3 5 ∷ span 2 5 ∷ span 3 6 ∷ span 2 6 ∷ [])
        ≡ span 3 5 ∷ span 0 5 ∷ span 3 9 ∷ span 0 9 ∷ [] }
{}

/// The ranges of truth values and of what the first vertex takes stay.
// S: the first vertex takes it; B, F: a truth value, and an array of them; A, G: a number; P:
// another vertex takes it.
pub fn some_ranges_stay()
    ensures fixed { map (is_fixed needing_all) (0 ∷ 1 ∷ 2 ∷ 3 ∷ 4 ∷ 5 ∷ 6 ∷ [])
        ≡ true ∷ true ∷ true ∷ false ∷ false ∷ false ∷ false ∷ [] }
    ensures begun { map (first_range needing_all) (0 ∷ 1 ∷ 2 ∷ 3 ∷ 4 ∷ 5 ∷ 6 ∷ [])
        ≡ span 0 50 ∷ span 0 1 ∷ span 0 1 ∷ span 4 4 ∷ span 0 0 ∷ span 2 2 ∷ span 0 0 ∷ [] }
    ensures stays { next_range needing_all false (takes_in 1 (pos 0) (pos 0) ∷ [])
        (span 0 50 ∷ span 1 1 ∷ []) 1 ≡ span 1 1 }
{}

/// Each variable of a model gets the range that it needs: an array too, by what is known where an
/// `or` is false, by what is carried where a condition can be true, and by no edge whose condition
/// can't be, nor one that cancels.
// 16th, 17th: the last round in which an end moves as far as it needs, at the lower end (D) and at
// the upper one (U), and the first in which it goes to the declared one. A: what is set and what it
// begins with; G: what an `or` that is false leaves; P: what the third edge carries, and not what
// the first does, nor the second; C: cut; O: what it begins with alone; S, B, F: as declared.
pub fn ranges_are_found()
    ensures first { after_rounds needing_all 0
        ≡ span 0 50 ∷ span 0 1 ∷ span 0 1 ∷ span 4 4 ∷ span 0 0 ∷ span 2 2 ∷ span 0 0 ∷ span 0 0
        ∷ span 3 3 ∷ span 3 3 ∷ [] }
    ensures second { after_rounds needing_all 1
        ≡ span 0 50 ∷ span 0 1 ∷ span 0 1 ∷ span 4 7 ∷ span 0 1 ∷ span 2 2
        ∷ range (neg_ℤ (pos 1)) (pos 0) ∷ span 0 1 ∷ span 3 5 ∷ span 3 3 ∷ [] }
    ensures sixteenth { after_rounds needing_all 16 ≡ ranges_of_all (neg_ℤ (pos 16)) 16 5 }
    ensures seventeenth { after_rounds needing_all 17 ≡ ranges_of_all (neg_ℤ (pos 50)) 50 5 }
    ensures eighteenth { round needing_all 18 (ranges_of_all (neg_ℤ (pos 50)) 50 5)
        ≡ ranges_of_all (neg_ℤ (pos 50)) 50 5 }
    ensures found { IsInferred needing_all (ranges_of_all (neg_ℤ (pos 50)) 50 5) }
{}

/// A cell grows as a scalar does: by as much as it needs up to the 16th round, and in the 17th to
/// the declared end.
pub fn cells_grow_in_rounds()
    ensures sixteenth { after_rounds growing_cell 16 ≡ span 0 16 ∷ [] }
    ensures seventeenth { after_rounds growing_cell 17 ≡ span 0 50 ∷ [] }
{}

/// The rounds end with the 4,017th at most, which changes nothing.
pub fn rounds_end()
    ensures at_most { (g : EventGraph) (ranges : List VarRange) (found : IsInferred g ranges)
        → found.rounds < 4017 }
    ensures no_fewer { (g : EventGraph) → round g 4017 (after_rounds g 4016) ≡ after_rounds g 4016
        → IsInferred g (after_rounds g 4016) }
    ensures reached { (g : EventGraph) (ranges : List VarRange) (found : IsInferred g ranges)
        → after_rounds g found.rounds ≡ ranges }
    ensures stays { (g : EventGraph) (ranges : List VarRange) (found : IsInferred g ranges)
        → round g (suc found.rounds) ranges ≡ ranges }
{}
