//! What is known of a model between one application of a rule and the next, and what of it stays known after each rule, so that
//! it isn't found again.
#![tactic(auto)]

mod after_drop;
mod after_edge;
mod bodies;
mod counts_law;
mod facts;
mod progress;

pub use after_drop::keep_after_drop;
pub use after_edge::{keep_after_prune, keep_after_settle};
pub use bodies::Bodies;
pub use counts_law::new_counts_count_nothing;
pub use facts::{FactsOfModel, version_length};
pub use progress::Progress;
