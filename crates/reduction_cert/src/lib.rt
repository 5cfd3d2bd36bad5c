//! Applications of rules in order: their certificate, printed and read, the checker that says whether they lead from
//! one model to another, and that a chain of them keeps a model valid and its meaning.
#![tactic(auto)]

mod by_name;
mod certificate;
mod chain_law;
mod checking;
mod looking_ahead;
mod reading;
mod token_calls;

pub use certificate::{print_certificate, put_certificate};
pub use chain_law::{
    applications_add_no_variables, applications_have_results, chains_keep_the_meaning,
    verdicts_tell_chains,
};
pub use checking::{Verdict, check_chain};
pub use reading::read_certificate_pieces;
pub use token_calls::read_certificate;
