//! Why not all of a source could be taken.

ghost use Rattle.std.specs.Prelude.{◌≡◌};
ghost use Rattle.sig_base.specs.declared.take_error.TakeError.TheVariants.{ReadFault, NoMemory as OutOfMemory};

use crate::no_memory::Failed;
use std::alloc::AllocError;
use thiserror::Error;

/// Why not all of a source was taken.
#[derive(Clone, Copy, Debug, PartialEq, Eq, Error)]
pub enum TakeError {
    /// A read failed.
    #[error("a read failed")]
    ReadFault,
    /// The source has more bytes than the limit.
    #[error("too long")]
    TooLong,
    /// Memory was refused.
    #[error("out of memory")]
    NoMemory,
}

impl From<Failed> for TakeError {
    ghost from_gives = { λ _ e. e ≡ ReadFault };

    fn from(_error: Failed) -> TakeError {
        TakeError::ReadFault
    }
}

impl From<AllocError> for TakeError {
    ghost from_gives = { λ _ e. e ≡ OutOfMemory };

    fn from(_error: AllocError) -> TakeError {
        TakeError::NoMemory
    }
}
