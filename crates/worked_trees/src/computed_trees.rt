//! Trees computed on a small model. The functions have empty bodies.

ghost use Rattle.std.specs.Prelude.{◌≡◌, [], ◌∷◌, Some, pos, negsuc};
ghost use Rattle.sig_base.specs.declared.fault.FaultKind.TheVariants as faults;
ghost use Rattle.model_core.specs.EventGraph.{Binary, Divide, Number, Scalar};
ghost use Rattle.tree_laws.specs.LinearSums.{OperationAtom, Div, VariableAtom, NoTerms, Term, only_atom, atom_sum};
ghost use Rattle.tree_laws.specs.Trees.{Case, Leaf};
ghost use Rattle.tree_laws.specs.Valued.{valued};
ghost use Rattle.tree_laws.specs.TreeConditions.{number_tree};
ghost use Rattle.worked_trees.specs.SmallModel.{small_ground, small_model, small_values, nothing_noted, from_to, sum_of, difference_of, over, is_less, is_equal, is_no_greater, turned, pick, least_of_two, greatest_of_two, literal, X, Y, LANE, B, C};

/// `not` of a comparison is the opposite comparison.
pub fn opposite_comparisons_are_one()
    // `not (X < Y)` is `X >= Y`
    ensures less { turned (is_less X Y) ≡ is_no_greater Y X }
    ensures tree { is_no_greater Y X
        ≡ Some (Case (Term (pos 1) (VariableAtom 0) (Term (negsuc 0) (VariableAtom 1) NoTerms)) (negsuc 0) (number_tree (pos 0)) (number_tree (pos 1))) }
    // `not X = 0` is `X >= 1`
    ensures equal { turned (is_equal X (literal 0)) ≡ is_no_greater (literal 1) X }
    // `X = Y` is `Y = X`, and `not not X = Y`
    ensures turned { is_equal X Y ≡ is_equal Y X }
    ensures twice { turned (turned (is_equal X Y)) ≡ is_equal X Y }
{}

/// Right sides of the worked rows.
pub fn rows_have_one_tree()
    // `9 / X + X - X` is `9 / X`
    ensures quotient { difference_of (sum_of (over (literal 9) X) X) X ≡ over (literal 9) X }
    // `min(LANE + 1, 12)` is `if LANE < 12 then LANE + 1 else LANE`
    ensures least { least_of_two (sum_of LANE (literal 1)) (literal 12)
        ≡ pick (is_less LANE (literal 12)) (sum_of LANE (literal 1)) LANE }
    // `max(LANE - 6, 0)` is `LANE - min(LANE, 6)`
    ensures greatest { greatest_of_two (difference_of LANE (literal 6)) (literal 0)
        ≡ difference_of LANE (least_of_two LANE (literal 6)) }
    // `min(X, Y)` is `min(Y, X)`
    ensures least_turned { least_of_two X Y ≡ least_of_two Y X }
    // `B and C` is `C and B`
    ensures truths { pick B C (literal 0) ≡ pick C B (literal 0) }
{}

/// `9 / X` has one check, that X isn't 0, and X is at least 1 where it passes.
pub fn a_quotient_has_one_check()
    ensures { valued small_ground small_model small_values (Binary Divide (Number (pos 9)) (Scalar 0)) (number_tree (pos 1)) nothing_noted
        ≡ Some (record {
          tree = Leaf (atom_sum (OperationAtom Div NoTerms (pos 9) (only_atom (VariableAtom 0)) (pos 0)));
          noted = record {
            known = record { terms = only_atom (VariableAtom 0); ends = from_to (pos 1) (pos 9) } ∷ [];
            checks = record { kind = faults.DivisionByZero; tree = Case (only_atom (VariableAtom 0)) (pos 0) (number_tree (pos 0)) (number_tree (pos 1)) } ∷ [];
          };
        }) }
{}
