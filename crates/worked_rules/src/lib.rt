//! The definitions of the rules, of conflicts, of uses and of needed ranges, held half by half.
#![tactic(auto)]

mod apart_conditions;
mod checked_ranges;
mod counting;
mod edge_halves;
mod guards;
mod meeting_vertices;
mod merge_halves;
mod need_halves;
mod needed_rounds;
mod normal_rounds;
mod performing;
mod rows_of_bounds;
mod taken_values;
mod twin_parts;
mod twins;
mod using;

pub use apart_conditions::{
    comparisons_exclude_one_another, one_condition_excludes_the_other, some_conditions_compare,
    urgent_edges_are_plain, urgent_edges_come_singly,
};
pub use checked_ranges::{
    narrowed_models_have_texts, one_range_holds_what_is_taken, ranges_fit_models,
    ranges_fit_variables, ranges_hold_what_is_taken,
};
pub use counting::{one_change_counts, one_edge_counts};
pub use edge_halves::{
    drops_list_all, edges_have_conditions, the_first_edge_is_taken,
    vertices_are_reached_as_far_as_edges_go,
};
pub use guards::{
    clipped_variables_are_refined, comparisons_leave_ranges, comparisons_take_up_what_is_left,
    conditions_refine_together, other_conditions_leave_all, other_ranges_are_taken,
    parts_are_bounded_under_guards,
};
pub use meeting_vertices::{
    edges_that_are_never_taken_count, reasons_are_listed_together, some_cancel_the_other,
    some_draw_from_a_stream, some_meet, some_touch_a_variable,
};
pub use merge_halves::{
    each_half_of_meeting_at_once_fails_alone, each_other_edge_reads_nothing_written,
    merged_parts_come_in_turn, merged_vertices_have_room, the_first_of_two_merges_is_taken,
    watched_ones_are_followed_unseen,
};
pub use need_halves::{
    faults_are_needed_one_by_one, needed_ones_are_made_of_needed_ones, parts_are_sliced,
    slices_list_all, some_are_needed_at_once, streams_are_needed_one_by_one,
};
pub use needed_rounds::{
    cells_grow_in_rounds, ranges_are_found, ranges_grow, rounds_end, some_ranges_stay,
};
pub use normal_rounds::{a_round_has_three_parts, rounds_end_where_one_changes_nothing};
pub use performing::{
    entries_are_counted, events_have_places, faults_are_of_both, orders_may_differ,
};
pub use rows_of_bounds::{
    all_four_pairs_of_ends_count, both_operands_are_quiet, branches_are_taken,
    comparisons_turn_at_ends, draws_have_bounds, each_end_counts, operands_may_not_be_looked_at,
    parts_of_changes_are_quiet, parts_of_edges_are_quiet, quiet_conditions_are_decided,
    truths_are_put_together,
};
pub use taken_values::{
    values_are_carried_in_time, values_are_taken_side_by_side, variables_keep_some,
    variables_take_values,
};
pub use twin_parts::{graphs_are_equal_in_all_parts, parts_are_equal_to_themselves};
pub use twins::{
    each_half_of_fuse_fails_alone, fused_models_have_texts, fusing_goes_on, lists_are_the_same,
    rich_vertices_are_fused_where_they_are_equal, the_first_pair_is_taken, two_become_one,
};
pub use using::{
    numbers_are_moved, numbers_have_room, streams_are_drawn_from, variables_are_used_in_each_way,
    variables_occur_in_expressions,
};
