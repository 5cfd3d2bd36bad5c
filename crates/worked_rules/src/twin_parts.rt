//! Which parts of models are equal, by parts that differ in one thing each.

ghost use Rattle.std.specs.Prelude.{◌≡◌, ◌∷◌, [], map};
ghost use Rattle.std.specs.List.{range_with_len};
ghost use Rattle.model_core.specs.Rules.Exclusive.{same_operator, same_expression};
ghost use Rattle.model_core.specs.Rules.SameGraph.{same_state_change, same_event_edge, same_graph};
ghost use Rattle.worked_rules.specs.PartsAlike.{operators, expressions_apart, changes_apart, edges_apart};
ghost use Rattle.worked_rules.specs.GraphsApart.{graphs_apart};
ghost use Rattle.worked_rules.specs.Halves.{equal_at};

/// Each of these parts is equal to itself, and to no other of them.
// Operators: each of the 15. Expressions: each form, the number with its sign, the truth value, the
// place of a scalar and of an array, the index, the operand of `-` and of `not`, the operator and
// both operands, the condition and both branches. Changes: the variable of the first target and of
// the second, the index, whether there is one, the second right side, how many there are; of a draw
// the variable, the index, the stream, both ends, and the table. Edges: the target, the value, how
// many there are, the condition, the delay, the priority, the stream, the choice, and each kind.
pub fn parts_are_equal_to_themselves()
    ensures operators { map (λ p. equal_at same_operator p operators) operators
        ≡ map (λ k. k ∷ []) (range_with_len 0 15) }
    ensures expressions { map (λ e. equal_at same_expression e expressions_apart) expressions_apart
        ≡ map (λ k. k ∷ []) (range_with_len 0 23) }
    ensures changes { map (λ c. equal_at same_state_change c changes_apart) changes_apart
        ≡ map (λ k. k ∷ []) (range_with_len 0 15) }
    ensures edges { map (λ e. equal_at same_event_edge e edges_apart) edges_apart
        ≡ map (λ k. k ∷ []) (range_with_len 0 14) }
{}

/// Models are equal in all their parts: each of these is equal to itself alone.
// In turn: the name, its bytes and their number; of a variable the name, the size, the kind, both
// ends, `clip` and the initial value, and how many there are; of a table the name, a value, a
// weight, how many rows, and how many tables; of the watch list a vertex for a variable, the place
// of each, and how many; of a vertex the name, the parameters, a change, an edge, and how many.
pub fn graphs_are_equal_in_all_parts()
    ensures { map (λ g. equal_at same_graph g graphs_apart) graphs_apart
        ≡ map (λ k. k ∷ []) (range_with_len 0 25) }
{}
