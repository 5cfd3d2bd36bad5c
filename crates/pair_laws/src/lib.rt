//! Laws of two models whose events do the same: what edges do to the pending list, which of them may change places, and
//! when two models in which variables and vertices count as one look the same. The functions have empty bodies: what they
//! ensure holds of all models.
#![tactic(auto)]

mod effects;
mod pairing;

pub use effects::{
    due_order_suffices, edges_at_one_moment, edges_may_change_places, effects_of_edges,
};
pub use pairing::{
    agreeing_edges_suffice, paired_models_are_the_same, paired_models_look_the_same,
};
