//! Who uses a variable, by a model in which each variable is used in one way, and the numbers of
//! users.

ghost use Rattle.std.specs.Prelude.{◌≡◌, ◌++◌, ◌∷◌, [], true, false, codes, map};
ghost use Rattle.model_core.specs.EventGraph.{has_drawn_delay};
ghost use Rattle.model_core.specs.Rules.Uses.{variables_in, vertex_streams};
ghost use Rattle.use_analysis.specs.UsesText.{uses_text};
ghost use Rattle.use_analysis.specs.UseNumbers.{raised_at, lowered_at, no_numbers, CanRaise, CanLower};
ghost use Rattle.worked_runs.specs.Building.{urgent, whole};
ghost use Rattle.worked_rules.specs.UsingModels.{expressions, users_in_turn, using, after_delay, after_stream};

/// The variables of an expression occur in all its parts, from left to right, each as often as it
/// occurs there.
// a number, a truth value, the clock: none; a scalar; a cell: its array and its index; `-`, `not`;
// both operands; all three parts of an `if`; one variable twice.
pub fn variables_occur_in_expressions()
    ensures { map variables_in expressions
        ≡ [] ∷ [] ∷ [] ∷ (5 ∷ []) ∷ (6 ∷ 5 ∷ []) ∷ (5 ∷ []) ∷ (5 ∷ []) ∷ (5 ∷ 4 ∷ [])
        ∷ (5 ∷ 4 ∷ 3 ∷ []) ∷ (5 ∷ 5 ∷ []) ∷ [] }
{}

/// Each way of using a variable.
// A: a parameter is written, and watched; B: so is what is set, and a watched vertex of its number
// doesn't count; C: a right side is read; D, G: so is an index, of a `set` and of a draw; E: a
// right side beside it; F: what is drawn is written; H: a condition is read; I: a delay; J: a
// value, the second; K, L: of a cancelling edge too; M: a condition of one for all; N, O: two
// targets are written and two right sides read; P: a second change; Q: what takes a cell; R: an
// array is written by its cells, of a `set` and of a draw, in the order of the text, and read where
// a cell is; S: a second edge, and a later item of the watch list; T: no use. No vertex reads what
// a draw takes from.
pub fn variables_are_used_in_each_way()
    ensures { uses_text using
        ≡ codes "A readers - writers RUN watched yes\n"
        ++ codes "B readers - writers SETS watched no\n"
        ++ codes "C readers SETS writers - watched no\n"
        ++ codes "D readers CELLS writers - watched no\n"
        ++ codes "E readers CELLS writers - watched no\n"
        ++ codes "F readers - writers DRAWS watched no\n"
        ++ codes "G readers PICKS writers - watched no\n"
        ++ codes "H readers WHEN writers - watched no\n"
        ++ codes "I readers AFTER writers - watched no\n"
        ++ codes "J readers WITH writers - watched no\n"
        ++ codes "K readers CUTS writers - watched no\n"
        ++ codes "L readers CUTS writers - watched no\n"
        ++ codes "M readers CLEARS writers - watched no\n"
        ++ codes "N readers SWAPS writers SWAPS watched no\n"
        ++ codes "O readers SWAPS writers SWAPS watched no\n"
        ++ codes "P readers SWAPS writers - watched no\n"
        ++ codes "Q readers - writers LOOKS watched no\n"
        ++ codes "R readers LOOKS writers CELLS,PICKS watched no\n"
        ++ codes "S readers LOOKS writers - watched yes\n"
        ++ codes "T readers - writers - watched no\n" }
{}

/// A vertex draws from the streams of its changes and of its drawn delays.
// DRAWS and PICKS: by changes, from a range and from a table; WAITS: by the delays of two edges;
// SETS, AFTER, WHEN, CUTS: by no `set`, no other delay and no edge without one.
pub fn streams_are_drawn_from()
    ensures streams { map vertex_streams users_in_turn
        ≡ [] ∷ [] ∷ [] ∷ (54 ∷ []) ∷ (53 ∷ []) ∷ [] ∷ [] ∷ [] ∷ [] ∷ []
        ∷ (52 ∷ 51 ∷ []) ∷ [] ∷ [] ∷ [] }
    ensures delays { map has_drawn_delay (after_stream 52 ∷ after_delay (whole 1) ∷ urgent 0 ∷ [])
        ≡ true ∷ false ∷ false ∷ [] }
{}

/// A part moves the number of each variable that it has by one, once however often the variable
/// occurs in it.
// 0 and 2, of which 2 occurs twice: 1 more, 1 less; 1 and 3: as they were; 9: there is none; a list
// of none; the first and the last place.
pub fn numbers_are_moved()
    ensures raised { raised_at (2 ∷ 0 ∷ 2 ∷ 9 ∷ []) (5 ∷ 6 ∷ 7 ∷ 8 ∷ []) ≡ 6 ∷ 6 ∷ 8 ∷ 8 ∷ [] }
    ensures lowered { lowered_at (2 ∷ 0 ∷ 2 ∷ 9 ∷ []) (5 ∷ 6 ∷ 7 ∷ 8 ∷ []) ≡ 4 ∷ 6 ∷ 6 ∷ 8 ∷ [] }
    ensures last { raised_at (3 ∷ []) (5 ∷ 6 ∷ 7 ∷ 8 ∷ []) ≡ 5 ∷ 6 ∷ 7 ∷ 9 ∷ [] }
    ensures none { raised_at [] (5 ∷ 6 ∷ []) ≡ 5 ∷ 6 ∷ [] }
    ensures at_first { no_numbers 2 ≡ record { readers = 0 ∷ 0 ∷ []; setters = 0 ∷ 0 ∷ [] } }
    ensures of_no_variable { no_numbers 0 ≡ record { readers = []; setters = [] } }
    ensures back { lowered_at (1 ∷ []) (raised_at (1 ∷ []) (no_numbers 2).setters)
        ≡ (no_numbers 2).setters }
{}

/// A number can be raised below 2 ^ 32 and lowered above 0. Numbers that don't move may be any.
pub fn numbers_have_room()
    ensures raise { CanRaise (1 ∷ 7 ∷ []) (4294967296 ∷ 4294967295 ∷ []) }
    ensures not_raise { CanRaise (0 ∷ []) (4294967296 ∷ 4294967295 ∷ []) → ⊥ }
    ensures lower { CanLower (1 ∷ 7 ∷ []) (0 ∷ 1 ∷ []) }
    ensures not_lower { CanLower (0 ∷ []) (0 ∷ 1 ∷ []) → ⊥ }
{}
