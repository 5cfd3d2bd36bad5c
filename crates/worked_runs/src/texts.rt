//! Canonical texts: a model with each part of the language, and which operands are in parentheses.

ghost use Rattle.std.specs.Prelude.{◌≡◌, ◌∷◌, [], map, codes};
ghost use Rattle.model_core.specs.EventGraph.{Clock, Cell, Negative, Not, Binary, If, Add, Subtract, Multiply, Divide, Remainder, Least, Greatest, Below, Equal, And, Or};
ghost use Rattle.model_core.specs.Text.Canonical.{canonical, expression_text};
ghost use Rattle.worked_runs.specs.Building.{whole};
ghost use Rattle.worked_runs.specs.Texts.{desk, desk_text, n, is_open, plus, less, times, beside_itself, all_comparisons};

/// Each part of the language has its line.
pub fn models_have_texts()
    ensures desk { canonical desk ≡ desk_text }
{}

/// An operand is in parentheses exactly where it binds less tightly than what is asked for.
pub fn operands_have_parentheses()
    ensures chains_group_to_the_left { expression_text desk (less (less n (whole 1)) (whole 2))
        ≡ codes "N - 1 - 2" }
    ensures right_operand { expression_text desk (less n (less (whole 1) (whole 2)))
        ≡ codes "N - (1 - 2)" }
    ensures sum_in_a_product { expression_text desk (times (plus n (whole 1)) (whole 2))
        ≡ codes "(N + 1) * 2" }
    ensures product_in_a_sum { expression_text desk (plus n (times (whole 1) (whole 2)))
        ≡ codes "N + 1 * 2" }
    ensures negative_sum { expression_text desk (Negative (plus n (whole 1))) ≡ codes "-(N + 1)" }
    ensures comparisons { expression_text desk (Binary Equal (Binary Below n (whole 1)) is_open)
        ≡ codes "(N < 1) = OPEN" }
    ensures not_of_and { expression_text desk (Not (Binary And is_open is_open))
        ≡ codes "not (OPEN and OPEN)" }
    ensures and_of_not { expression_text desk (Binary And (Not is_open) (Binary Or is_open is_open))
        ≡ codes "not OPEN and (OPEN or OPEN)" }
    ensures arguments { expression_text desk (Binary Least (plus n (whole 1)) Clock)
        ≡ codes "min(N + 1, clk)" }
    ensures index { expression_text desk (Binary Remainder (Cell 2 (plus n (whole 1))) (whole 5))
        ≡ codes "CELLS[N + 1] % 5" }
    ensures choice { expression_text desk (plus (If is_open n (whole 2)) (whole 1))
        ≡ codes "(if OPEN then N else 2) + 1" }
{}

/// Each operator has its text, and its level: between two operands that bind as tightly as the
/// right one must, and between two that bind less tightly than the left one must.
pub fn operators_have_texts_and_levels()
    ensures or_of_and { beside_itself (Binary And is_open is_open) Or
        ≡ codes "OPEN and OPEN or OPEN and OPEN" }
    ensures or_of_choice { beside_itself (If is_open is_open is_open) Or
        ≡ codes "(if OPEN then OPEN else OPEN) or (if OPEN then OPEN else OPEN)" }
    ensures and_of_not { beside_itself (Not is_open) And ≡ codes "not OPEN and not OPEN" }
    ensures and_of_or { beside_itself (Binary Or is_open is_open) And
        ≡ codes "(OPEN or OPEN) and (OPEN or OPEN)" }
    ensures comparisons_of_sums { map (beside_itself (plus n n)) all_comparisons
        ≡ codes "N + N = N + N" ∷ codes "N + N <> N + N" ∷ codes "N + N < N + N"
        ∷ codes "N + N <= N + N" ∷ codes "N + N > N + N" ∷ codes "N + N >= N + N" ∷ [] }
    ensures comparisons_of_not { map (beside_itself (Not is_open)) all_comparisons
        ≡ codes "(not OPEN) = (not OPEN)" ∷ codes "(not OPEN) <> (not OPEN)"
        ∷ codes "(not OPEN) < (not OPEN)" ∷ codes "(not OPEN) <= (not OPEN)"
        ∷ codes "(not OPEN) > (not OPEN)" ∷ codes "(not OPEN) >= (not OPEN)" ∷ [] }
    ensures comparisons_of_comparisons { map
        (λ op. beside_itself (Binary op n n) op) all_comparisons
        ≡ codes "(N = N) = (N = N)" ∷ codes "(N <> N) <> (N <> N)" ∷ codes "(N < N) < (N < N)"
        ∷ codes "(N <= N) <= (N <= N)" ∷ codes "(N > N) > (N > N)"
        ∷ codes "(N >= N) >= (N >= N)" ∷ [] }
    ensures sums_of_products { map (beside_itself (times n n)) (Add ∷ Subtract ∷ [])
        ≡ codes "N * N + N * N" ∷ codes "N * N - N * N" ∷ [] }
    ensures sums_of_comparisons { map (beside_itself (Binary Below n n)) (Add ∷ Subtract ∷ [])
        ≡ codes "(N < N) + (N < N)" ∷ codes "(N < N) - (N < N)" ∷ [] }
    ensures products_of_negatives { map (beside_itself (Negative n))
        (Multiply ∷ Divide ∷ Remainder ∷ [])
        ≡ codes "-N * -N" ∷ codes "-N / -N" ∷ codes "-N % -N" ∷ [] }
    ensures products_of_sums { map (beside_itself (plus n n)) (Multiply ∷ Divide ∷ Remainder ∷ [])
        ≡ codes "(N + N) * (N + N)" ∷ codes "(N + N) / (N + N)" ∷ codes "(N + N) % (N + N)" ∷ [] }
    ensures chains { map (λ op. beside_itself (Binary op n n) op)
        (Or ∷ And ∷ Add ∷ Subtract ∷ Multiply ∷ Divide ∷ Remainder ∷ [])
        ≡ codes "N or N or (N or N)" ∷ codes "N and N and (N and N)" ∷ codes "N + N + (N + N)"
        ∷ codes "N - N - (N - N)" ∷ codes "N * N * (N * N)" ∷ codes "N / N / (N / N)"
        ∷ codes "N % N % (N % N)" ∷ [] }
    ensures calls { map (beside_itself (If is_open n n)) (Least ∷ Greatest ∷ [])
        ≡ codes "min(if OPEN then N else N, if OPEN then N else N)"
        ∷ codes "max(if OPEN then N else N, if OPEN then N else N)" ∷ [] }
    ensures negative_calls { map (λ op. expression_text desk (Negative (Binary op n n)))
        (Least ∷ Greatest ∷ Multiply ∷ [])
        ≡ codes "-min(N, N)" ∷ codes "-max(N, N)" ∷ codes "-(N * N)" ∷ [] }
{}
