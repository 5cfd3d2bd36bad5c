//! Sums of atoms, as code that gives the definitions of `tree_laws`.
#![tactic(auto)]

mod adding;
mod copying;
mod divisors;
mod ground;
mod limited;
mod same;
mod sum;
mod terms;
mod tree_error;

pub use adding::{added, scaled, subtracted};
pub use copying::{copy_atom, copy_sum, copy_terms};
pub use divisors::{divisor, primitive};
pub use ground::Ground;
pub use limited::{COEFFICIENT_MAX, CONSTANT_MAX, Coefficient, Ends, Number, TERMS_MAX};
pub use same::{same_atom, same_sum, same_terms};
pub use sum::Sum;
pub use terms::{Atom, Operation, Terms};
pub use tree_error::TreeError;
