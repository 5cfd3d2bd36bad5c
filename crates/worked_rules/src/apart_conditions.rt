//! Which conditions are exclusive, comparison by comparison, and which urgent edges are plain or
//! come singly.
#![tactic(auto, unfolding(model_core::specs::Rules::BoundsTable::exact_bounds))]

ghost use Rattle.std.specs.Prelude.{◌≡◌, ◌∷◌, [], pos, neg_ℤ, true, false, map, Some, None, is_some};
ghost use Rattle.model_core.specs.EventGraph.{Truth, Clock, Cell, Negative, Not, Binary, Divide, Equal, Below, AtMost, Above, AtLeast, CancelNext, CancelEqual, CancelAll};
ghost use Rattle.model_core.specs.Rules.Exclusive.{exclusive, comparison_of, literal_number};
ghost use Rattle.model_core.specs.Rules.UrgentEdges.{plain_urgent, plain_urgent_edge, single_urgent};
ghost use Rattle.worked_runs.specs.Building.{whole, minus, schedule, urgent, only_if, event, plain_edge, positive};
ghost use Rattle.worked_runs.specs.BoundedModel.{bounded, x, y, b};
ghost use Rattle.worked_rules.specs.PartsAlike.{operators};
ghost use Rattle.worked_rules.specs.UrgentModels.{compared_with, when_y_is, followed};

/// Each comparison of Y with a number beside each with the same number, the next and the one
/// before: `=`, `<>`, `<`, `<=`, `>` and `>=`.
// `<>` with 2 beside `>` with 1 is met by 3 alone, which comes after the number of the first;
// beside `<` by the number before it; and so the other way round. A number itself is what `=` and a
// far `<=` meet. A cell and the clock are compared as a variable is: with itself, and not with a
// cell at another index or of another array. X, which is 0 to 3, is never 5.
pub fn comparisons_exclude_one_another()
    ensures with_the_same { compared_with 1 1
        ≡ (false ∷ true ∷ true ∷ false ∷ true ∷ false ∷ [])
        ∷ (true ∷ false ∷ false ∷ false ∷ false ∷ false ∷ [])
        ∷ (true ∷ false ∷ false ∷ false ∷ true ∷ true ∷ [])
        ∷ (false ∷ false ∷ false ∷ false ∷ true ∷ false ∷ [])
        ∷ (true ∷ false ∷ true ∷ true ∷ false ∷ false ∷ [])
        ∷ (false ∷ false ∷ true ∷ false ∷ false ∷ false ∷ [])
        ∷ [] }
    ensures with_the_next { compared_with 1 2
        ≡ (true ∷ false ∷ false ∷ false ∷ true ∷ true ∷ [])
        ∷ (false ∷ false ∷ false ∷ false ∷ false ∷ false ∷ [])
        ∷ (true ∷ false ∷ false ∷ false ∷ true ∷ true ∷ [])
        ∷ (true ∷ false ∷ false ∷ false ∷ true ∷ true ∷ [])
        ∷ (false ∷ false ∷ true ∷ false ∷ false ∷ false ∷ [])
        ∷ (false ∷ false ∷ false ∷ false ∷ false ∷ false ∷ [])
        ∷ [] }
    ensures with_the_one_before { compared_with 2 1
        ≡ (true ∷ false ∷ true ∷ true ∷ false ∷ false ∷ [])
        ∷ (false ∷ false ∷ false ∷ false ∷ false ∷ false ∷ [])
        ∷ (false ∷ false ∷ false ∷ false ∷ true ∷ false ∷ [])
        ∷ (false ∷ false ∷ false ∷ false ∷ false ∷ false ∷ [])
        ∷ (true ∷ false ∷ true ∷ true ∷ false ∷ false ∷ [])
        ∷ (true ∷ false ∷ true ∷ true ∷ false ∷ false ∷ [])
        ∷ [] }
    ensures of_one_cell { map
        (λ q. exclusive bounded (Binary Equal (Cell 4 x) (whole 1)) (Binary Equal q (whole 2)))
        (Cell 4 x ∷ Cell 4 (whole 0) ∷ Cell 3 x ∷ x ∷ [])
        ≡ true ∷ false ∷ false ∷ false ∷ [] }
    ensures of_the_clock { map
        (λ q. exclusive bounded (Binary Below Clock (whole 5)) (Binary AtLeast q (whole 5)))
        (Clock ∷ x ∷ y ∷ []) ≡ true ∷ true ∷ false ∷ [] }
    ensures of_the_clock_and_one_more { exclusive bounded (Binary AtMost Clock (whole 5))
        (Binary AtLeast Clock (whole 5)) ≡ false }
    ensures far { exclusive bounded (Binary Equal y (whole 1)) (Binary AtMost y (whole 5)) ≡ false }
    ensures far_turned { exclusive bounded (Binary AtMost y (whole 5)) (Binary Equal y (whole 1))
        ≡ false }
    ensures of_another { exclusive bounded (Binary Equal x (whole 1)) (Binary Equal y (whole 2))
        ≡ false }
    ensures one_alone_compares { exclusive bounded (Binary Equal y (whole 1)) b ≡ false }
    ensures other_alone_compares { exclusive bounded b (Binary Equal y (whole 1)) ≡ false }
{}

/// A comparison has one of six operators, and on its right a number with a sign or without.
// operators, in their order: `=` to `>=` alone; numbers: 7, -7, no second sign, no variable and no
// sum after a sign.
pub fn some_conditions_compare()
    ensures operators { map (λ op. is_some (comparison_of (Binary op y (whole 1)))) operators
        ≡ false ∷ false ∷ false ∷ false ∷ false ∷ false ∷ false ∷ true ∷ true ∷ true ∷ true ∷ true
        ∷ true ∷ false ∷ false ∷ [] }
    ensures numbers { map literal_number
        (whole 7 ∷ minus 7 ∷ Negative (minus 7) ∷ Negative y ∷ y ∷ Truth true ∷ [])
        ≡ Some (pos 7) ∷ Some (neg_ℤ (pos 7)) ∷ None ∷ None ∷ None ∷ None ∷ [] }
    ensures of_a_number { comparison_of (Binary Below y (minus 7))
        ≡ Some (record { left = y; operator = Below; number = neg_ℤ (pos 7) }) }
    ensures of_no_number { map (λ e. is_some (comparison_of e))
        (Binary Below y x ∷ Binary Below (whole 7) y ∷ Not (Binary Below y (whole 7)) ∷ y ∷ [])
        ≡ false ∷ false ∷ false ∷ false ∷ [] }
{}

/// `not` counts on either side, and a refuted condition too, but none that may fault.
pub fn one_condition_excludes_the_other()
    ensures { map (λ (p, q). exclusive bounded p q)
        ((b, Not b) ∷ (Not b, b) ∷ (Not b, Not b) ∷ (Not (Not b), Not b) ∷ (b, Truth false)
        ∷ (Truth false, b) ∷ (b, Truth true)
        ∷ (b, Binary Above (Binary Divide (whole 5) x) (whole 9))
        ∷ (Binary Above (Binary Divide (whole 5) x) (whole 9), b) ∷ [])
        ≡ true ∷ true ∷ false ∷ true ∷ true ∷ true ∷ false ∷ false ∷ false ∷ [] }
{}

/// A plain urgent edge is the only urgent one, and its condition is the literal `true`.
// in turn: after others that do the same later, and that cancel; two of them; one beside a
// conditional one, in both orders; conditional alone, beside one that schedules in time; the
// literal `false`; a condition that always holds; none; and of each kind that isn't urgent.
pub fn urgent_edges_are_plain()
    ensures places { map (λ edges. plain_urgent (event [] [] edges))
        ((schedule 1 (whole 0) ∷ plain_edge CancelNext 1 [] ∷ urgent 2 ∷ [])
        ∷ (urgent 1 ∷ urgent 1 ∷ []) ∷ (urgent 1 ∷ only_if (positive 0) (urgent 2) ∷ [])
        ∷ (only_if (positive 0) (urgent 2) ∷ urgent 1 ∷ [])
        ∷ (schedule 1 (whole 0) ∷ only_if (positive 0) (urgent 1) ∷ [])
        ∷ (only_if (Truth false) (urgent 1) ∷ [])
        ∷ (only_if (Binary AtLeast (whole 1) (whole 0)) (urgent 1) ∷ []) ∷ []
        ∷ (schedule 1 (whole 0) ∷ []) ∷ (plain_edge CancelNext 1 [] ∷ [])
        ∷ (plain_edge CancelEqual 1 [] ∷ []) ∷ (plain_edge CancelAll 1 [] ∷ []) ∷ [])
        ≡ Some 2 ∷ None ∷ None ∷ None ∷ None ∷ None ∷ None ∷ None ∷ None ∷ None ∷ None ∷ None ∷ [] }
    ensures edge { plain_urgent_edge (event [] [] (schedule 1 (whole 0) ∷ urgent 2 ∷ []))
        ≡ Some (urgent 2) }
    ensures no_edge { plain_urgent_edge (event [] [] (schedule 1 (whole 0) ∷ [])) ≡ None }
{}

/// Any two urgent edges of one vertex exclude one another.
// in turn: one of each number; the first and the last of three don't; nor the second and the last;
// of one vertex and of another they needn't; the second vertex counts too; an edge in time and one
// that cancels don't.
pub fn urgent_edges_come_singly()
    ensures { map (λ (p, q). single_urgent (followed [] (event [] [] p ∷ event [] [] q ∷ [])))
        ((when_y_is 1 0 ∷ when_y_is 2 0 ∷ when_y_is 3 0 ∷ [], [])
        ∷ (when_y_is 1 0 ∷ when_y_is 2 0 ∷ when_y_is 1 0 ∷ [], [])
        ∷ (when_y_is 1 0 ∷ when_y_is 2 0 ∷ when_y_is 2 0 ∷ [], [])
        ∷ (when_y_is 1 0 ∷ [], when_y_is 1 0 ∷ []) ∷ ([], when_y_is 1 0 ∷ when_y_is 1 0 ∷ [])
        ∷ (urgent 0 ∷ schedule 0 (whole 0) ∷ plain_edge CancelNext 0 [] ∷ [], []) ∷ [])
        ≡ true ∷ false ∷ false ∷ true ∷ false ∷ true ∷ [] }
{}
