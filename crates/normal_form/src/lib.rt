//! Normal forms: rounds of narrowing, reducing and fusing, so that two models may be found equal which were written otherwise.
#![tactic(auto)]

mod law;
mod limits;
mod one_form;
mod rounds;

pub use law::{
    models_with_one_normal_form_are_alike, normal_forms_keep_the_meaning, rounds_keep_the_meaning,
};
pub use limits::ROUNDS_MAX;
pub use one_form::have_one_form;
pub use rounds::normal;
