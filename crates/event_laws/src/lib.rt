//! Laws of events: what is made of an event in trees follows its run. What the functions ensure holds of all models.
#![tactic(auto)]

mod changes;
mod event_sums;
mod events;
mod tidied;

pub use changes::trees_of_changes_follow_a_run;
pub use event_sums::sums_of_events_follow_a_run;
pub use events::trees_of_events_follow_a_run;
pub use tidied::tidied_edges_are_tidied_at_each_moment;
