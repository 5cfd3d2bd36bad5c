//! Why there is no sum or tree.

ghost use Rattle.std.specs.Prelude.{◌≡◌};

use sig_base::NoMemory as Refused;
use std::alloc::{AllocError, AllocFailed};

/// Why there is no sum or tree.
#[derive(Clone, Copy, Debug, PartialEq, Eq)]
pub enum TreeError {
    /// A limit was passed, or a choice had no truth value: the definition has no sum.
    TooLarge,
    /// Memory was refused.
    NoMemory,
}

impl From<AllocError> for TreeError {
    ghost use Rattle.case_trees.specs.declared.tree_error.TreeError.TheVariants.{NoMemory};

    ghost from_gives = { λ _ e. e ≡ NoMemory };

    fn from(_error: AllocError) -> TreeError {
        TreeError::NoMemory
    }
}

impl<T: Drop> From<AllocFailed<T>> for TreeError {
    ghost use Rattle.case_trees.specs.declared.tree_error.TreeError.TheVariants.{NoMemory};

    ghost from_gives = { λ _ e. e ≡ NoMemory };

    fn from(_error: AllocFailed<T>) -> TreeError {
        TreeError::NoMemory
    }
}

impl From<Refused> for TreeError {
    ghost use Rattle.case_trees.specs.declared.tree_error.TreeError.TheVariants.{NoMemory};

    ghost from_gives = { λ _ e. e ≡ NoMemory };

    fn from(_error: Refused) -> TreeError {
        TreeError::NoMemory
    }
}
