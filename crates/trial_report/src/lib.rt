//! The summary of a model that a number makes: how large it is, what is left of it when it is reduced, and how a run
//! of each goes.
#![tactic(auto)]

mod law;
mod note_count;
mod run_measure;
mod summary;
mod trial;

pub use law::trials_are_determined;
pub use trial::trial_text;
