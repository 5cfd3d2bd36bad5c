//! Static rules: written models that break them, each with what is broken at which byte, and the
//! first fault. The texts are beside the models in `specs/WrittenModels.antt`.

ghost use Rattle.std.specs.Prelude.{◌≡◌, Some, None, [], ◌∷◌, map, codes, replicate};
ghost use Rattle.std.specs.List.{range_with_len};
ghost use Rattle.model_core.specs.declared.model.Kind.TheVariants as kinds;
ghost use Rattle.model_core.specs.declared.static_kind.StaticKind.TheVariants as rules;
ghost use Rattle.model_core.specs.Text.Numbering.{numbered};
ghost use Rattle.model_core.specs.Static.FaultOrder.{rule_row, earliest_fault};
ghost use Rattle.model_core.specs.Static.Kinds.{operand_kind, result_kind};
ghost use Rattle.model_core.specs.Static.RuleTable.{name_too_long, literal_too_large, stream_outside, draw_outside, too_many};
ghost use Rattle.model_core.specs.Static.PartFaults.{size_faults, priority_faults};
ghost use Rattle.model_core.specs.Static.ModelFaults.{faults_of_counts, faults_of_parts, or_too_long, model_faults, first_fault};
ghost use Rattle.worked_runs.specs.Texts.{desk};
ghost use Rattle.worked_runs.specs.WrittenParts.{spelled, figure, huge, plain_figure, minus_figure, static_fault};
ghost use Rattle.worked_runs.specs.WrittenModels as texts;

/// A name has at most 32 bytes, the model's own too, and at every place.
pub fn names_are_short()
    ensures declared { model_faults texts.long_name ≡ static_fault rules.NameTooLong 16 ∷ [] }
    ensures own { model_faults texts.long_own_name ≡ static_fault rules.NameTooLong 6 ∷ [] }
    ensures used { model_faults texts.long_unknown_name
        ≡ static_fault rules.NameTooLong 26 ∷ static_fault rules.UnknownName 26 ∷ [] }
    ensures first_of_the_table { first_fault texts.long_unknown_name
        ≡ Some (static_fault rules.NameTooLong 26) }
    ensures as_long_as_may_be { name_too_long (spelled (codes "A2345678901234567890123456789012") 0)
        ≡ [] }
{}

/// A name that is used is declared.
pub fn names_are_declared()
    ensures target { model_faults texts.unknown_target ≡ static_fault rules.UnknownName 26 ∷ [] }
    ensures without_a_kind { model_faults texts.unknown_kinds
        ≡ static_fault rules.UnknownName 70 ∷ static_fault rules.UnknownName 82
        ∷ static_fault rules.UnknownName 102
        ∷ static_fault rules.UnknownName 109 ∷ static_fault rules.UnknownName 139
        ∷ static_fault rules.UnknownName 146 ∷ [] }
{}

/// Variables, tables and vertices share their names, and no list names anything twice. What is
/// declared again is reported at the later name, and means its first declaration.
pub fn names_are_declared_once()
    ensures vertices { model_faults texts.declared_twice
        ≡ static_fault rules.DuplicateName 31 ∷ [] }
    ensures variable_and_vertex { model_faults texts.shared_name
        ≡ static_fault rules.DuplicateName 36 ∷ [] }
    ensures own_name_is_apart { model_faults texts.own_name_apart ≡ [] }
    ensures watched { model_faults texts.watched_twice ≡ static_fault rules.DuplicateName 20 ∷ [] }
    ensures unknown { model_faults texts.unknown_watched_twice
        ≡ static_fault rules.UnknownName 15 ∷ static_fault rules.UnknownName 18
        ∷ static_fault rules.DuplicateName 18 ∷ [] }
    ensures parameter_keeps_its_kind { model_faults texts.parameter_named_twice
        ≡ static_fault rules.DuplicateName 44 ∷ static_fault rules.KindMismatch 62 ∷ [] }
    ensures first_declaration { model_faults texts.two_kinds
        ≡ static_fault rules.DuplicateName 31 ∷ static_fault rules.KindMismatch 70 ∷ [] }
{}

/// A name is used as what it is declared as. A name that is not has no kind, and an edge to it no
/// parameters.
pub fn names_are_rightly_used()
    ensures all { model_faults texts.wrong_uses
        ≡ static_fault rules.WrongUse 73 ∷ static_fault rules.WrongUse 87
        ∷ static_fault rules.WrongUse 96 ∷ static_fault rules.WrongUse 102
        ∷ static_fault rules.WrongUse 107 ∷ static_fault rules.WrongUse 110
        ∷ static_fault rules.WrongUse 132 ∷ static_fault rules.WrongUse 144 ∷ [] }
{}

/// Whole numbers and truth values are where they are wanted.
pub fn kinds_match()
    ensures number_for_truth { model_faults texts.number_for_truth
        ≡ static_fault rules.KindMismatch 24 ∷ [] }
    ensures truth_for_number { model_faults texts.truth_for_number
        ≡ static_fault rules.KindMismatch 24 ∷ [] }
    ensures everywhere { model_faults texts.mismatches
        ≡ static_fault rules.KindMismatch 94 ∷ static_fault rules.KindMismatch 100
        ∷ static_fault rules.KindMismatch 108 ∷ static_fault rules.KindMismatch 124
        ∷ static_fault rules.KindMismatch 136 ∷ static_fault rules.KindMismatch 158
        ∷ static_fault rules.KindMismatch 173 ∷ static_fault rules.KindMismatch 187
        ∷ static_fault rules.KindMismatch 203 ∷ static_fault rules.KindMismatch 219
        ∷ static_fault rules.KindMismatch 250 ∷ static_fault rules.KindMismatch 259
        ∷ static_fault rules.KindMismatch 266 ∷ [] }
    ensures cells { model_faults texts.kinds_of_cells
        ≡ static_fault rules.KindMismatch 73 ∷ static_fault rules.KindMismatch 84 ∷ [] }
    ensures kind_of_else { model_faults texts.kind_of_else
        ≡ static_fault rules.UnknownName 80 ∷ static_fault rules.KindMismatch 70 ∷ [] }
    ensures before_its_operand { first_fault texts.kind_of_else
        ≡ Some (static_fault rules.KindMismatch 70) }
    ensures kind_of_result { model_faults texts.kind_of_result
        ≡ static_fault rules.UnknownName 70 ∷ static_fault rules.KindMismatch 74
        ∷ static_fault rules.KindMismatch 70 ∷ [] }
    ensures unknown_first { first_fault texts.kind_of_result
        ≡ Some (static_fault rules.UnknownName 70) }
{}

/// Operators that count take and give whole numbers, those that compare give truth values, and both
/// sides of `=` and `<>` need only have one kind.
pub fn operators_have_kinds()
    ensures arithmetic_takes { map operand_kind texts.arithmetic ≡ replicate 7 (Some kinds.Range) }
    ensures arithmetic_gives { map result_kind texts.arithmetic ≡ replicate 7 kinds.Range }
    ensures comparisons_take { map operand_kind texts.comparisons ≡ replicate 4 (Some kinds.Range) }
    ensures comparisons_give { map result_kind texts.comparisons ≡ replicate 4 kinds.Truth }
    ensures equalities_take { map operand_kind texts.equalities ≡ replicate 2 None }
    ensures equalities_give { map result_kind texts.equalities ≡ replicate 2 kinds.Truth }
    ensures connectives_take { map operand_kind texts.connectives ≡ replicate 2 (Some kinds.Truth) }
    ensures connectives_give { map result_kind texts.connectives ≡ replicate 2 kinds.Truth }
{}

/// There are as many values as parameters, and as many right sides as targets. Kinds are compared
/// as far as both go.
pub fn values_are_counted()
    ensures too_many { model_faults texts.too_many_values ≡ static_fault rules.ValueCount 31 ∷ [] }
    ensures too_few { model_faults texts.too_few_values
        ≡ static_fault rules.ValueCount 74 ∷ static_fault rules.KindMismatch 78
        ∷ static_fault rules.ValueCount 92 ∷ [] }
    ensures for_an_unknown_vertex { model_faults texts.values_for_unknown
        ≡ static_fault rules.UnknownName 31 ∷ static_fault rules.UnknownName 33
        ∷ static_fault rules.KindMismatch 36 ∷ [] }
    ensures right_sides { model_faults texts.too_few_right_sides
        ≡ static_fault rules.ValueCount 61 ∷ static_fault rules.KindMismatch 73 ∷ [] }
{}

/// Bounds and other numbers are within their limits, and ranges hold their initial values.
pub fn numbers_are_within_limits()
    ensures bound { model_faults texts.large_bound ≡ static_fault rules.LiteralTooLarge 20 ∷ [] }
    ensures last_bound { literal_too_large (plain_figure 4611686018427387904 20) ≡ [] }
    ensures least_bound { literal_too_large (minus_figure 4611686018427387904 20) ≡ [] }
    ensures below_all_bounds { literal_too_large (minus_figure 4611686018427387905 20)
        ≡ static_fault rules.LiteralTooLarge 20 ∷ [] }
    ensures number { model_faults texts.large_number ≡ static_fault rules.LiteralTooLarge 49 ∷ [] }
    ensures empty_range { model_faults texts.bounds_exchanged
        ≡ static_fault rules.EmptyRange 17 ∷ static_fault rules.InitialOutside 24 ∷ [] }
    ensures initial { model_faults texts.initial_before_unknown
        ≡ static_fault rules.InitialOutside 24 ∷ static_fault rules.UnknownName 44 ∷ [] }
    ensures large_initial { model_faults texts.large_initial
        ≡ static_fault rules.LiteralTooLarge 42 ∷ static_fault rules.InitialOutside 42 ∷ [] }
    ensures size { first_fault texts.no_cells ≡ Some (static_fault rules.SizeOutside 15) }
    ensures least_size { size_faults (figure 1 15) ≡ [] }
    ensures last_size { size_faults (figure 65536 15) ≡ [] }
    ensures size_beyond { size_faults (figure 65537 15) ≡ static_fault rules.SizeOutside 15 ∷ [] }
    ensures priority { model_faults texts.priority_zero
        ≡ static_fault rules.PriorityOutside 44 ∷ [] }
    ensures least_priority { priority_faults (figure 1 44) ≡ [] }
    ensures last_priority { priority_faults (figure 255 44) ≡ [] }
    ensures priority_beyond { priority_faults (figure 256 44)
        ≡ static_fault rules.PriorityOutside 44 ∷ [] }
{}

/// Streams, draws and weights are within their limits.
pub fn draws_are_within_limits()
    ensures stream { model_faults texts.large_stream ≡ static_fault rules.StreamOutside 52 ∷ [] }
    ensures last_stream { stream_outside (figure 63 52) ≡ [] }
    ensures uniform { model_faults texts.wide_uniform ≡ static_fault rules.DrawOutside 57 ∷ [] }
    ensures widest { draw_outside (minus_figure 1 57) (plain_figure 4294967294 61) ≡ [] }
    ensures large_draw { model_faults texts.large_draw
        ≡ static_fault rules.LiteralTooLarge 52 ∷ static_fault rules.StreamOutside 52
        ∷ static_fault rules.LiteralTooLarge 76 ∷ static_fault rules.DrawOutside 76 ∷ [] }
    ensures empty_draw { model_faults texts.empty_draw ≡ static_fault rules.EmptyRange 57 ∷ [] }
    ensures large_row { model_faults texts.large_row
        ≡ static_fault rules.LiteralTooLarge 19 ∷ static_fault rules.LiteralTooLarge 42
        ∷ static_fault rules.WeightOutside 42 ∷ [] }
    ensures no_weight { model_faults texts.no_weight ≡ static_fault rules.WeightOutside 23 ∷ [] }
    ensures sum_of_weights { model_faults texts.heavy_table
        ≡ static_fault rules.WeightOutside 46 ∷ [] }
{}

/// A number above 2^63 - 1 is compared by its sign and by being at least 2^63.
pub fn numbers_beyond_are_compared()
    ensures bounds { model_faults texts.far_below
        ≡ static_fault rules.LiteralTooLarge 20 ∷ static_fault rules.EmptyRange 17
        ∷ static_fault rules.InitialOutside 44 ∷ [] }
    ensures first_of_bounds { first_fault texts.far_below ≡ Some (static_fault rules.EmptyRange 17) }
    ensures uniform { model_faults texts.far_uniform
        ≡ static_fault rules.LiteralTooLarge 60 ∷ static_fault rules.DrawOutside 57 ∷ [] }
    ensures first_of_uniform { first_fault texts.far_uniform
        ≡ Some (static_fault rules.DrawOutside 57) }
    ensures size { size_faults (huge 15)
        ≡ static_fault rules.LiteralTooLarge 15 ∷ static_fault rules.SizeOutside 15 ∷ [] }
    ensures first_of_size { earliest_fault None (size_faults (huge 15))
        ≡ Some (static_fault rules.LiteralTooLarge 15) }
{}

/// Each rule has its row, and of two faults at one place the one of the earlier row is reported,
/// whichever is found first.
// pairs that can meet at one place, in both orders: a number too large beside an empty range, and
// beside a weight; an item beyond a limit that is unknown, that is declared twice, and that needs a
// version; a stream outside beside such a delay.
pub fn rules_have_rows()
    ensures rows { map rule_row
        (rules.NameTooLong ∷ rules.UnknownName ∷ rules.DuplicateName ∷ rules.WrongUse
        ∷ rules.KindMismatch ∷ rules.ValueCount ∷ rules.LiteralTooLarge ∷ rules.EmptyRange
        ∷ rules.InitialOutside ∷ rules.SizeOutside ∷ rules.PriorityOutside ∷ rules.StreamOutside
        ∷ rules.DrawOutside ∷ rules.WeightOutside ∷ rules.VersionUnknown ∷ rules.VersionNeeded
        ∷ rules.TooMany ∷ rules.ModelTooLong ∷ []) ≡ range_with_len 0 18 }
    ensures pairs { map (λ (a, b). earliest_fault None (static_fault a 7 ∷ static_fault b 7 ∷ []))
        ((rules.LiteralTooLarge, rules.EmptyRange) ∷ (rules.EmptyRange, rules.LiteralTooLarge)
        ∷ (rules.LiteralTooLarge, rules.WeightOutside)
        ∷ (rules.WeightOutside, rules.LiteralTooLarge)
        ∷ (rules.TooMany, rules.UnknownName) ∷ (rules.UnknownName, rules.TooMany)
        ∷ (rules.TooMany, rules.DuplicateName) ∷ (rules.DuplicateName, rules.TooMany)
        ∷ (rules.VersionNeeded, rules.TooMany) ∷ (rules.TooMany, rules.VersionNeeded)
        ∷ (rules.StreamOutside, rules.VersionNeeded)
        ∷ (rules.VersionNeeded, rules.StreamOutside) ∷ [])
        ≡ map (λ k. Some (static_fault k 7))
        (rules.LiteralTooLarge ∷ rules.LiteralTooLarge ∷ rules.LiteralTooLarge
        ∷ rules.LiteralTooLarge ∷ rules.UnknownName ∷ rules.UnknownName ∷ rules.DuplicateName
        ∷ rules.DuplicateName
        ∷ rules.VersionNeeded ∷ rules.VersionNeeded ∷ rules.StreamOutside
        ∷ rules.StreamOutside ∷ []) }
    ensures before_the_row_the_place { earliest_fault None
        (static_fault rules.NameTooLong 8 ∷ static_fault rules.ModelTooLong 7 ∷ [])
        ≡ Some (static_fault rules.ModelTooLong 7) }
{}

/// Of several faults the one with the least place is reported.
pub fn the_least_place_is_reported()
    ensures initial_before_unknown { first_fault texts.initial_before_unknown
        ≡ Some (static_fault rules.InitialOutside 24) }
    ensures empty_before_initial { first_fault texts.bounds_exchanged
        ≡ Some (static_fault rules.EmptyRange 17) }
    ensures unknown_before_twice { first_fault texts.unknown_watched_twice
        ≡ Some (static_fault rules.UnknownName 15) }
    ensures first_of_three { first_fault texts.too_few_values
        ≡ Some (static_fault rules.ValueCount 74) }
    ensures none { first_fault texts.plain_text ≡ None }
{}

/// The first item beyond a limit is reported.
pub fn counts_have_limits()
    ensures third_of_four { too_many 2 (5 ∷ 7 ∷ 9 ∷ 11 ∷ []) ≡ static_fault rules.TooMany 9 ∷ [] }
    ensures just_two { too_many 2 (5 ∷ 7 ∷ []) ≡ [] }
    ensures targets { model_faults texts.nine_targets ≡ static_fault rules.TooMany 68 ∷ [] }
    ensures parameters { model_faults texts.nine_parameters
        ≡ static_fault rules.DuplicateName 41 ∷ static_fault rules.DuplicateName 44
        ∷ static_fault rules.DuplicateName 47
        ∷ static_fault rules.DuplicateName 50 ∷ static_fault rules.DuplicateName 53
        ∷ static_fault rules.DuplicateName 56
        ∷ static_fault rules.DuplicateName 59 ∷ static_fault rules.DuplicateName 62
        ∷ static_fault rules.TooMany 62 ∷ [] }
{}

/// Each limit is its own: of so many items at one place the one beyond the limit is reported, and
/// with as many as it allows none is.
pub fn limits_on_counts_are_exact()
    ensures variables { faults_of_counts (texts.variables_at_nine 2001)
        ≡ static_fault rules.TooMany 9 ∷ [] }
    ensures as_many_variables { faults_of_counts (texts.variables_at_nine 2000) ≡ [] }
    ensures tables { faults_of_counts (texts.tables_at_nine 101)
        ≡ static_fault rules.TooMany 9 ∷ [] }
    ensures as_many_tables { faults_of_counts (texts.tables_at_nine 100) ≡ [] }
    ensures vertices { faults_of_counts (texts.vertices_at_nine 2001)
        ≡ static_fault rules.TooMany 9 ∷ [] }
    ensures as_many_vertices { faults_of_counts (texts.vertices_at_nine 2000) ≡ [] }
    ensures rows { model_faults (texts.rows_at_nineteen 1001) ≡ static_fault rules.TooMany 19 ∷ [] }
    ensures as_many_rows { faults_of_parts (texts.rows_at_nineteen 1000) ≡ [] }
    ensures changes { model_faults (texts.changes_at_forty 1001)
        ≡ static_fault rules.TooMany 40 ∷ [] }
    ensures as_many_changes { faults_of_parts (texts.changes_at_forty 1000) ≡ [] }
    ensures edges { model_faults (texts.edges_at_twenty_two 1001)
        ≡ static_fault rules.TooMany 22 ∷ [] }
    ensures as_many_edges { faults_of_parts (texts.edges_at_twenty_two 1000) ≡ [] }
{}

/// The canonical text is measured where no other rule is broken, and reported at the word `end`.
pub fn long_models_are_reported_last()
    ensures fits { or_too_long texts.plain_text 28 (faults_of_parts texts.plain_text) ≡ [] }
    ensures too_long { or_too_long texts.plain_text 27 (faults_of_parts texts.plain_text)
        ≡ static_fault rules.ModelTooLong 24 ∷ [] }
    ensures only_then { or_too_long texts.declared_twice 27 (faults_of_parts texts.declared_twice)
        ≡ static_fault rules.DuplicateName 31 ∷ [] }
{}

/// A text with each part of the language breaks no rule, and names the model whose canonical text
/// it is.
pub fn models_break_no_rule()
    ensures faults { model_faults texts.desk_written ≡ [] }
    ensures model { numbered texts.desk_written ≡ Some desk }
{}
