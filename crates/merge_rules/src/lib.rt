//! The rule merge: an event takes over what a second one does, which it always schedules at once.
#![tactic(auto)]

mod at_once;
mod conditions;
mod first_pair;
mod growth;
mod kept_pairs;
mod kept_search;
mod law;
mod merging;
mod other_edges;
mod reads_written;
mod taking_over;
mod within_limits;

pub use first_pair::first_merge;
pub use kept_search::KeptPairs;
pub use law::{
    at_most_one_event_is_urgent, merging_adds_the_growth, merging_brings_no_rule_of_edges,
    merging_keeps_the_meaning, merging_takes_an_urgent_edge,
};
pub use merging::{merge, merge_holding, merge_measured};
pub use taking_over::SecondVertex;
