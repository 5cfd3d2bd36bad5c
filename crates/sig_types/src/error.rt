//! Why a model isn't accepted.

ghost use Rattle.std.specs.Prelude.{◌≡◌};
ghost use Rattle.sig_types.specs.declared.error.StaticError.TheVariants as errors;

use model_core::StaticKind;
use sig_base::NoMemory;
use thiserror::Error;

/// Why a model isn't accepted.
#[derive(Clone, Copy, Debug, PartialEq, Eq, Error)]
pub enum StaticError {
    /// A static rule is broken at this byte of the text, counted from 0.
    #[error("static fault")]
    Fault { kind: StaticKind, at: usize },
    /// Memory was refused.
    #[error("out of memory")]
    NoMemory,
}

impl From<NoMemory> for StaticError {
    ghost from_gives = { λ _ e. e ≡ errors.NoMemory };

    fn from(_error: NoMemory) -> StaticError {
        StaticError::NoMemory
    }
}
