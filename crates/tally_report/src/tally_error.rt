//! Why a run can't be tallied.

ghost use Rattle.std.specs.Prelude.{◌≡◌};
ghost use Rattle.tally_report.specs.declared.tally_error.TallyError.TheVariants.{NoMemory as OutOfMemory};

use run_control::BeginError;
use sig_base::NoMemory;
use thiserror::Error;

/// Why a run can't be tallied.
#[derive(Clone, Copy, Debug, PartialEq, Eq, Error)]
pub enum TallyError {
    /// The first vertex has another number of parameters than there are starting values.
    #[error("{given} starting values where {needed} are needed")]
    StartCount { needed: usize, given: usize },
    /// A starting value lies outside its parameter's range. Places count from 1.
    #[error("the starting value {value} at place {place} is outside its range")]
    StartOutside { place: usize, value: i64 },
    /// Memory was refused.
    #[error("out of memory")]
    NoMemory,
}

impl From<NoMemory> for TallyError {
    ghost from_gives = { λ _ e. e ≡ OutOfMemory };

    fn from(_error: NoMemory) -> TallyError {
        TallyError::NoMemory
    }
}

impl From<BeginError> for TallyError {
    ghost use Rattle.tally_report.specs.TallyRefusals.{refusal_of};

    ghost from_gives = { λ b e. e ≡ refusal_of b };

    fn from(error: BeginError) -> TallyError {
        match error {
            BeginError::StartCount { needed, given } => TallyError::StartCount { needed, given },
            BeginError::StartOutside { place, value } => TallyError::StartOutside { place, value },
            BeginError::NoMemory => TallyError::NoMemory,
        }
    }
}
