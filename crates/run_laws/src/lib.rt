//! Laws of runs: facts that a run keeps, how it goes on, when two runs show the same, and what an event leaves as it is.
//! The functions have empty bodies: what they ensure holds of all models. The diagrams by which two runs are compared are in
//! `proofs/`, proved once for all rules.
#![tactic(auto)]

mod changes_without_fault;
mod runs_continued;
mod runs_in_range;
mod sameness;

pub use changes_without_fault::changes_leave_their_result;
pub use runs_continued::runs_go_on;
pub use runs_in_range::runs_stay_in_range;
pub use sameness::sameness_is_a_preorder;
