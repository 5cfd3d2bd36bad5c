//! Why a snapshot isn't read.

ghost use Rattle.std.specs.Prelude.{◌≡◌};
ghost use Rattle.snapshot_text.specs.declared.snapshot_error.SnapshotError.TheVariants.{NoMemory as OutOfMemory};

use sig_base::NoMemory;
use std::alloc::{AllocError, AllocFailed};
use thiserror::Error;

/// Why a snapshot isn't read.
#[derive(Clone, Copy, Debug, PartialEq, Eq, Error)]
pub enum SnapshotError {
    /// The snapshot isn't good for the model. The place is the byte at which its first part that breaks a rule begins, or
    /// where its `end` does if a variable has no value.
    #[error("byte {at}: bad snapshot")]
    Bad { at: usize },
    /// Memory was refused.
    #[error("out of memory")]
    NoMemory,
}

impl From<NoMemory> for SnapshotError {
    ghost from_gives = { λ _ e. e ≡ OutOfMemory };

    fn from(_error: NoMemory) -> SnapshotError {
        SnapshotError::NoMemory
    }
}

impl From<AllocError> for SnapshotError {
    ghost from_gives = { λ _ e. e ≡ OutOfMemory };

    fn from(_error: AllocError) -> SnapshotError {
        SnapshotError::NoMemory
    }
}

impl<T: Drop> From<AllocFailed<T>> for SnapshotError {
    ghost from_gives = { λ _ e. e ≡ OutOfMemory };

    fn from(_error: AllocFailed<T>) -> SnapshotError {
        SnapshotError::NoMemory
    }
}
