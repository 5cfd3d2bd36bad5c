//! The words of the command line: the commands with their options, the job that the words ask for, and what it reads.
#![tactic(auto)]

mod argument_values;
mod clap_matches;
mod command_line;
mod compare_options;
mod job;
mod limits_law;
mod reading;
mod replicate_options;
mod resume_options;
mod run_options;
mod save_options;
mod trial_options;
mod words_error;

pub use command_line::words;
pub use compare_options::CompareOptions;
pub use job::Job;
pub use limits_law::jobs_keep_their_limits;
pub use reading::{BareJob, DocumentJob, ModelJob, PairJob, Reading, SavedJob};
pub use replicate_options::ReplicateOptions;
pub use resume_options::ResumeOptions;
pub use run_options::RunOptions;
pub use save_options::SaveOptions;
pub use trial_options::TrialOptions;
pub use words_error::WordsError;
