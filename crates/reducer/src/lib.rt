//! The reduction strategy: each time the first rule that is applicable, until none is.
#![tactic(auto)]

mod later_rules;
mod naming;
mod reached_after_merge;
mod strategy;
mod strategy_law;
mod sweeping;

pub use strategy::{Reduced, reduce};
pub use strategy_law::{strategies_are_determined, strategies_end, strategies_keep_the_meaning};
