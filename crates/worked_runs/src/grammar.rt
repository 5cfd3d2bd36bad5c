//! The grammar of model texts: what expressions and lines spell, and where a text is refused.

ghost use Rattle.std.specs.Prelude.{true, false, [], ◌∷◌, Some, None, codes};
ghost use Rattle.model_core.specs.EventGraph.{Subtract, Divide, Add, Multiply, Equal, Below, And, Or, Least, Greatest};
ghost use Rattle.model_core.specs.Text.Written.{Truth, Clock, Scalar, Cell, Negative, Not, Binary, If, TruthKind, TruthLiteral, Set, Draw, Uniform, ByTable, Fixed, Drawn, Schedule, Urgent, CancelNext, CancelEqual, CancelAll};
ghost use Rattle.model_core.specs.Text.Expressions.{expression_format};
ghost use Rattle.model_core.specs.Text.Language.{variable_format, change_format, edge_format, text_format};
ghost use Rattle.worked_runs.specs.GrammarTexts.{IsSpelled, IsModelText, IsRefusedAt, IsFrontRefusedAt};
ghost use Rattle.worked_runs.specs.WrittenParts.{spelled, figure, plain_figure, constant, reading, storing, to_index, leading, with_carried, with_condition};
ghost use Rattle.worked_runs.specs.StockText.{stock, stock_text};

/// Chains group to the left, and each operator takes as its operands what its level says.
pub fn operators_have_levels()
    ensures differences { IsSpelled expression_format (codes "1 - 2 - 3")
        (Binary 0 Subtract (Binary 0 Subtract (constant 1 0) (constant 2 4)) (constant 3 8)) }
    ensures quotients { IsSpelled expression_format (codes "8 / 4 / 2")
        (Binary 0 Divide (Binary 0 Divide (constant 8 0) (constant 4 4)) (constant 2 8)) }
    ensures disjunctions { IsSpelled expression_format (codes "A or B or C")
        (Binary 0 Or (Binary 0 Or (reading (codes "A") 0) (reading (codes "B") 5))
        (reading (codes "C") 10)) }
    ensures product_in_a_sum { IsSpelled expression_format (codes "1 + 2 * 3")
        (Binary 0 Add (constant 1 0) (Binary 4 Multiply (constant 2 4) (constant 3 8))) }
    ensures sum_in_a_comparison { IsSpelled expression_format (codes "1 < 2 + 3")
        (Binary 0 Below (constant 1 0) (Binary 4 Add (constant 2 4) (constant 3 8))) }
    ensures not_of_a_comparison { IsSpelled expression_format (codes "not A = B")
        (Not 0 (Binary 4 Equal (reading (codes "A") 4) (reading (codes "B") 8))) }
    ensures not_in_a_conjunction { IsSpelled expression_format (codes "not A and B")
        (Binary 0 And (Not 0 (reading (codes "A") 4)) (reading (codes "B") 10)) }
    ensures conjunction_in_a_disjunction { IsSpelled expression_format (codes "A or B and C")
        (Binary 0 Or (reading (codes "A") 0)
        (Binary 5 And (reading (codes "B") 5) (reading (codes "C") 11))) }
    ensures minus_of_a_cell { IsSpelled expression_format (codes "-X[1] * 2")
        (Binary 0 Multiply (Negative 0 (Cell 1 (spelled (codes "X") 1) (constant 1 3)))
        (constant 2 8)) }
    ensures else_goes_on { IsSpelled expression_format (codes "if A then 1 else B or C")
        (If 0 (reading (codes "A") 3) (constant 1 10)
        (Binary 17 Or (reading (codes "B") 17) (reading (codes "C") 22))) }
{}

/// A part is at the place where its first token begins, and a parenthesis counts as a token of its
/// expression.
pub fn expressions_have_places()
    ensures parentheses { IsSpelled expression_format (codes "((X))")
        (Scalar 0 (spelled (codes "X") 2)) }
    ensures group { IsSpelled expression_format (codes "(1 - 2) - 3")
        (Binary 0 Subtract (Binary 0 Subtract (constant 1 1) (constant 2 5)) (constant 3 10)) }
    ensures group_after { IsSpelled expression_format (codes "1 - (2 - 3)")
        (Binary 0 Subtract (constant 1 0) (Binary 4 Subtract (constant 2 5) (constant 3 9))) }
    ensures call { IsSpelled expression_format (codes " min(X, max(clk, 1))")
        (Binary 1 Least (reading (codes "X") 5) (Binary 8 Greatest (Clock 12) (constant 1 17))) }
    ensures truths { IsSpelled expression_format (codes "true = false")
        (Binary 0 Equal (Truth 0 true) (Truth 7 false)) }
{}

/// The written forms of declarations, changes and edges.
pub fn lines_are_spelled()
    ensures truth_variable { IsSpelled variable_format (codes "var B : bool = true;")
        (record {
          at = 0;
          name = spelled
              (codes "B") 4;
          size = None;
          kind = TruthKind;
          initial = TruthLiteral 15 true;
        }) }
    ensures set { IsSpelled change_format (codes "set X, Y[1] := 2, clk;")
        (Set 0 (storing (codes "X") 4 ∷ to_index (spelled (codes "Y") 7) (constant 1 9) ∷ [])
        (constant 2 15 ∷ Clock 18 ∷ [])) }
    ensures draw { IsSpelled change_format (codes "draw X from 3 in 0..5;")
        (Draw 0 (storing (codes "X") 5) (figure 3 12)
        (Uniform (plain_figure 0 17) (plain_figure 5 20))) }
    ensures schedule { IsSpelled edge_format (codes "schedule A(1) after 2 priority 3 when X;")
        (with_carried (constant 1 11 ∷ [])
        (with_condition (reading (codes "X") 38)
        (leading 0 (spelled (codes "A") 9)
        (Schedule (Some (Fixed (constant 2 20))) (Some (figure 3 31)))))) }
    ensures bare_schedule { IsSpelled edge_format (codes "schedule A;")
        (leading 0 (spelled (codes "A") 9) (Schedule None None)) }
    ensures drawn_delay { IsSpelled edge_format (codes "schedule A after draw from 3 in 0..5;")
        (leading 0 (spelled (codes "A") 9)
        (Schedule (Some
        (Drawn 17 (figure 3 27) (Uniform (plain_figure 0 32) (plain_figure 5 35)))) None)) }
    ensures drawn_by_table { IsSpelled edge_format (codes "schedule A after draw from 3 by T;")
        (leading 0 (spelled (codes "A") 9)
        (Schedule (Some (Drawn 17 (figure 3 27) (ByTable (spelled (codes "T") 32)))) None)) }
    ensures urgent { IsSpelled edge_format (codes "urgent A(1);")
        (with_carried (constant 1 9 ∷ []) (leading 0 (spelled (codes "A") 7) Urgent)) }
    ensures cancel_next { IsSpelled edge_format (codes "cancel A;")
        (leading 0 (spelled (codes "A") 7) CancelNext) }
    ensures cancel_equal { IsSpelled edge_format (codes "cancel A(1);")
        (with_carried (constant 1 9 ∷ []) (leading 0 (spelled (codes "A") 7) CancelEqual)) }
    ensures cancel_all { IsSpelled edge_format (codes "cancel all A when X;")
        (with_condition (reading (codes "X") 18) (leading 0 (spelled (codes "A") 11) CancelAll)) }
{}

/// The written forms of whole texts.
pub fn texts_are_spelled()
    ensures stock { IsSpelled text_format stock_text stock }
    ensures smallest { IsModelText (codes "model M; vertex A { } end") }
    ensures names_may_be_missing { IsModelText
        (codes "model M; var N : 0..3 = 5; vertex RUN { set Q := 1; } end") }
    ensures one { IsModelText
        (codes "model ONE; var N : 0..9 = 0; watch N; vertex RUN { set N := 4; schedule RUN after 5 when false; } end # of it") }
{}

/// A text that is no model's is refused at the first token that can't be there, or at its end.
pub fn texts_are_refused()
    ensures empty { IsRefusedAt [] 0 }
    ensures too_short { IsRefusedAt (codes "model") 5 }
    ensures word_as_name { IsRefusedAt (codes "model model;") 6 }
    ensures comment { IsRefusedAt (codes "# model") 7 }
    ensures no_vertex { IsRefusedAt (codes "model ONE; ver") 11 }
    ensures no_end { IsRefusedAt
        (codes "model M; var N : 0..3 = 5; vertex RUN { set Q := 1; }") 53 }
    ensures end_too_soon { IsRefusedAt (codes "model M; end") 9 }
    ensures second_end { IsRefusedAt (codes "model M; vertex A { } end end") 26 }
    ensures variable_after_watch { IsRefusedAt (codes "model M; watch N; var N : 0..1 = 0;") 18 }
    ensures no_row { IsRefusedAt (codes "model M; table T { } vertex A { } end") 19 }
    ensures no_parameter { IsRefusedAt (codes "model M; vertex A() { } end") 18 }
    ensures change_after_edge { IsRefusedAt
        (codes "model M; vertex A { schedule A; set X := 1; } end") 32 }
{}

/// The same inside changes and edges.
pub fn lines_are_refused()
    ensures no_delay { IsRefusedAt (codes "model M; vertex A { schedule A after ; } end") 37 }
    ensures two_comparisons { IsRefusedAt
        (codes "model M; vertex A { set X := 1 < 2 < 3; } end") 35 }
    ensures values_of_all { IsRefusedAt (codes "model M; vertex A { cancel all A(1); } end") 32 }
    ensures urgent_delay { IsRefusedAt (codes "model M; vertex A { urgent A after 0; } end") 29 }
    ensures not_in_a_comparison { IsRefusedAt
        (codes "model M; vertex A { set X := not 1 = not 2; } end") 37 }
    ensures if_in_a_sum { IsRefusedAt
        (codes "model M; vertex A { set X := 1 + if Y then 1 else 2; } end") 33 }
    ensures one_argument { IsRefusedAt (codes "model M; vertex A { set X := min(1); } end") 34 }
    ensures two_indexes { IsRefusedAt (codes "model M; vertex A { set X[1][2] := 1; } end") 28 }
    ensures plus_in_front { IsRefusedAt (codes "model M; vertex A { set X := +1; } end") 29 }
    ensures priority_first { IsRefusedAt
        (codes "model M; vertex A { schedule A priority 1 after 2; } end") 42 }
    ensures no_choice { IsRefusedAt (codes "model M; vertex A { draw X from 1; } end") 33 }
{}

/// Of a front, nothing after its first word `end` counts.
pub fn fronts_are_refused()
    ensures word_end_inside { IsFrontRefusedAt (codes "model M; vertex A { end } end") 20 }
    ensures later_faults { IsFrontRefusedAt (codes "model M end ; ; ;") 8 }
    ensures no_end { IsFrontRefusedAt (codes "model M; vertex A { }") 21 }
{}
