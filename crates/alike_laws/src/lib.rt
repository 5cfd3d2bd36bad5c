//! Laws of models that mean the same: what may be changed in a model so that its runs look the same. The functions have empty
//! bodies: what they ensure holds of all models.
#![tactic(auto)]

mod comparing;
mod folding;
mod meaning;
mod plainer_forms;
mod renaming;
mod reordering;
mod rewriting;

pub use comparing::{models_apart_are_not_alike, models_with_one_form_are_alike};
pub use folding::folding_keeps_the_meaning;
pub use meaning::meaning_alike_is_an_equivalence;
pub use plainer_forms::{plainer_forms_keep_the_meaning, plainer_models_are_the_same};
pub use renaming::{names_are_not_seen, reordered_and_renamed_models_are_the_same};
pub use reordering::reordering_keeps_the_meaning;
pub use rewriting::{rewriting_goes_inside, rewriting_keeps_the_meaning};
