//! Definitions of the crates above `worked_runs` computed on small examples: tallies and their
//! totals, reports, descriptions, models that numbers make, trials, words of the command line, and
//! what is answered. The clauses are theorems. The functions that carry them do nothing.
#![tactic(auto)]

mod answers;
mod arguments;
mod comparisons;
mod descriptions;
mod jobs;
mod made_models;
mod part_complaints;
mod readings;
mod reports;
mod saved_answers;
mod seeds;
mod statuses;
mod tallies;
mod totals;
mod trials;

pub use answers::{answers_have_forms, answers_have_limits, models_are_answered};
pub use arguments::{
    arguments_are_looked_up, options_are_given_once, values_are_read, words_give_arguments,
    words_have_forms,
};
pub use comparisons::{names_of_forms_do_not_count, two_models_are_compared};
pub use descriptions::models_are_described;
pub use jobs::{
    limits_of_jobs_have_these_numbers, numbers_may_begin_with_zeros, other_words_are_no_job,
    plain_commands_are_jobs, replications_are_asked_for, resumed_runs_are_asked_for,
    runs_are_asked_for, saved_runs_are_asked_for, strides_are_asked_for, trials_are_asked_for,
    words_come_in_any_order,
};
pub use made_models::{numbers_make_models, vertices_have_forms, words_make_vertices};
pub use part_complaints::{
    documents_are_answered, jobs_may_stop_short, last_parts_are_complained_of,
};
pub use readings::{jobs_read_so, options_keep_limits, readings_have_limits};
pub use reports::{a_shelf_is_reported, items_have_names, items_have_rows};
pub use saved_answers::{
    resuming_is_answered, runs_are_answered, runs_are_saved_while_they_go_on,
    saved_runs_have_room_for_themselves, starting_values_are_judged,
};
pub use seeds::{reports_have_seeds, seeds_are_a_stride_apart};
pub use statuses::{ends_have_statuses, failures_have_lines, statuses_have_numbers};
pub use tallies::{
    cells_have_courses, courses_have_areas, courses_have_spans, items_are_those_watched,
    occurrences_are_counted, runs_end_at_a_time, runs_have_tallies,
};
pub use totals::{items_are_added_up, runs_are_totalled, spans_are_joined};
pub use trials::{models_have_sizes, steps_are_counted, trials_have_summaries};
