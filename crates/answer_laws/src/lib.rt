//! Laws of the program's answers: each job has one answer to each text, which texts are refused, a call over devices that
//! never fail, and the headline over two calls. Nothing that the program runs needs them.
#![tactic(auto)]

mod answer_law;
mod sure_devices;
mod two_calls;

pub use answer_law::{answers_are_determined, unreadable_texts_are_refused};
pub use sure_devices::sure_status;
pub use two_calls::{
    canonical_texts_determine_models, print_and_reduce, printed_and_reduced_models_are_the_same,
};
