//! Parts that a text can write: their openings are those of their canonical texts; and parts that
//! no text writes.

ghost use Rattle.std.specs.Prelude.{◌≡◌, negsuc, [], ◌∷◌, map, codes};
ghost use Rattle.model_core.specs.EventGraph.{Number, Clock, Scalar, Cell, Negative, Not, Binary, If, Equal, Least, Or, CancelNext, CancelEqual};
ghost use Rattle.model_core.specs.Text.Spellable.{IsName, SpellableExpression, CarriesAsWritten, expression_openings, change_openings, edge_openings};
ghost use Rattle.worked_runs.specs.Building.{whole};
ghost use Rattle.worked_runs.specs.Texts.{serve, n, is_open, plus, less, times};
ghost use Rattle.worked_runs.specs.LineOpenings.{openings_of_text, openings_of_changes, openings_of_edges};

/// Parentheses count where they are written, and an index, a call, a sign and `=` do.
pub fn openings_are_those_of_the_text()
    ensures chains_group_to_the_left { expression_openings (less (less n (whole 1)) (whole 2))
        ≡ openings_of_text (less (less n (whole 1)) (whole 2)) }
    ensures right_operand { expression_openings (less n (less (whole 1) (whole 2)))
        ≡ openings_of_text (less n (less (whole 1) (whole 2))) }
    ensures three { expression_openings (less n (less (whole 1) (whole 2))) ≡ 3 }
    ensures negative_sum { expression_openings (Negative (plus n (whole 1)))
        ≡ openings_of_text (Negative (plus n (whole 1))) }
    ensures not_of_equal { expression_openings (Not (Binary Equal n (whole 1)))
        ≡ openings_of_text (Not (Binary Equal n (whole 1))) }
    ensures not_of_or { expression_openings (Not (Binary Or is_open is_open))
        ≡ openings_of_text (Not (Binary Or is_open is_open)) }
    ensures call { expression_openings (times (Binary Least n Clock) (Cell 2 (plus n n)))
        ≡ openings_of_text (times (Binary Least n Clock) (Cell 2 (plus n n))) }
    ensures choice { expression_openings (plus (If is_open n (whole 2)) (whole 1))
        ≡ openings_of_text (plus (If is_open n (whole 2)) (whole 1)) }
    ensures changes { map change_openings serve.changes ≡ openings_of_changes }
    ensures edges { map edge_openings serve.edges ≡ openings_of_edges }
{}

/// A negative number is a sign before a number, and there is no name that is a reserved word or
/// empty.
pub fn some_parts_are_not_written()
    ensures negative_number { SpellableExpression 3 (Number (negsuc 0)) → ⊥ }
    ensures signed_number { SpellableExpression 3 (Negative (whole 1)) }
    ensures no_fourth_variable { SpellableExpression 3 (Scalar 3) → ⊥ }
    ensures reserved_word { IsName (codes "clk") → ⊥ }
    ensures empty_name { IsName [] → ⊥ }
    ensures digit_before { IsName (codes "1A") → ⊥ }
    ensures next_carries_nothing { CarriesAsWritten CancelNext (n ∷ []) → ⊥ }
    ensures equal_carries_something { CarriesAsWritten CancelEqual [] → ⊥ }
{}
