//! The rules prune, settle and drop: where they apply, their result, and the laws that the result is valid and means the same.
#![tactic(auto)]

mod dropping;
mod finding;
mod law;
mod one_edge;
mod walk;

pub use dropping::{drop_unreached, drop_vertices, unreached};
pub use finding::{EdgeRule, can_apply, first_prune, first_settle};
pub use law::{
    dropping_brings_no_rule_of_edges, dropping_keeps_the_meaning, dropping_one_leaves_lines,
    dropping_takes_lines, dropping_takes_no_notice_of_the_vertex, marks_are_of_reachable_vertices,
    merging_leaves_vertices_reached, pruning_brings_no_rule_of_edges, pruning_keeps_the_meaning,
    settling_brings_no_rule_of_edges, settling_keeps_the_meaning,
};
pub use one_edge::{prune, settle};
