//! Limits of sums and trees, each met and passed by one. The function has an empty body.

ghost use Rattle.std.specs.Prelude.{◌≡◌, ◌+◌, ◌-◌, ◌^◌, pos, negsuc, true, false, [], ◌∷◌, None, map};
ghost use Rattle.tree_laws.specs.LinearSums.{VariableAtom, number, atom_sum};
ghost use Rattle.tree_laws.specs.Limits.{is_small, leaves_fit};
ghost use Rattle.tree_laws.specs.SumEnds.{atom_ends};
ghost use Rattle.tree_laws.specs.Trees.{Leaf};
ghost use Rattle.tree_laws.specs.TreesJoined.{choose};
ghost use Rattle.tree_laws.specs.TreeConditions.{number_tree};
ghost use Rattle.worked_trees.specs.SmallModel.{small_ground, wide_ground, nothing_known, many_terms, multiple_of_X, square, small_square};

/// Each limit holds up to its number, on both sides of 0, and not one beyond.
pub fn limits_end_where_they_say()
    ensures coefficients { map (λ c. is_small (multiple_of_X c))
        (pos (2 ^ 40) ∷ pos (2 ^ 40 + 1) ∷ negsuc (2 ^ 40 - 1) ∷ negsuc (2 ^ 40) ∷ [])
        ≡ true ∷ false ∷ true ∷ false ∷ [] }
    ensures constants { map (λ c. is_small (number c))
        (pos (2 ^ 80) ∷ pos (2 ^ 80 + 1) ∷ negsuc (2 ^ 80 - 1) ∷ negsuc (2 ^ 80) ∷ [])
        ≡ true ∷ false ∷ true ∷ false ∷ [] }
    ensures terms { map (λ n. is_small (record { terms = many_terms n; constant = pos 0 }))
        (64 ∷ 65 ∷ []) ≡ true ∷ false ∷ [] }
    ensures leaves { map leaves_fit (1024 ∷ 1025 ∷ []) ≡ true ∷ false ∷ [] }
    // the ends of a product pass the limit, though it is known to be small
    ensures ends_first { atom_ends wide_ground small_square square ≡ None }
    // a choice needs a truth value
    ensures choice { choose small_ground nothing_known (Leaf (atom_sum (VariableAtom 0)))
        (number_tree (pos 1)) (number_tree (pos 2)) ≡ None }
{}
