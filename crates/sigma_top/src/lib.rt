//! The top call of the program, `sigma`: from words and bytes to bytes and a status. `program` is the same up to the exit
//! status, over any devices.
#![tactic(auto)]

mod buffered_output;
mod exit_status;
mod text_taking;
mod top_call;

pub use answer_delivery::Status;
pub use buffered_output::buffered;
pub use command_words::{Job, WordsError, words};
pub use exit_status::program;
pub use job_answers::readable_models_are_reduced;
pub use top_call::sigma;
