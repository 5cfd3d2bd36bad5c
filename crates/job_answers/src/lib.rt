//! The answer to a text, command by command: how the text is read, what is answered, what is refused, and the laws of the
//! answers. One call does all of it, `answer_text`.
#![tactic(auto)]

mod answering;
mod beginning;
mod commands;
mod compare_law;
mod complaint_law;
mod document_law;
mod document_reading;
mod history_writing;
mod job_laws;
mod last_text;
mod model_reading;
mod notes_dropped;
mod pair_reading;
mod reading_error;
mod saved_reading;
mod written_reading;

pub use answering::answer_text;
pub use commands::certify::sound_documents_mean_the_same;
pub use commands::fuse::fused_models_mean_the_same;
pub use commands::narrow::narrower_models_mean_the_same;
pub use commands::reduce::written_models_mean_the_same;
pub use commands::resume::good_snapshots_are_printed_again;
pub use commands::save::saved_runs_are_resumed;
pub use compare_law::compared_models_are_as_answered;
pub use complaint_law::{readable_models_are_reduced, texts_have_one_complaint};
pub use document_law::{
    documents_have_one_complaint, pairs_have_one_complaint, read_runs_are_answered,
    saved_documents_have_one_complaint,
};
pub use job_laws::answers_keep_their_laws;
