//! Why reading in one pass gives no model.

ghost use Rattle.std.specs.Prelude.{◌≡◌};
ghost use Rattle.model_read.specs.declared.stop.Stop.TheVariants as stops;
ghost use Rattle.one_pass.specs.declared.not_read.NotRead.TheVariants.{Unexpected as NotExpected, NoMemory as OutOfMemory};

use model_read::Stop;
use sig_base::NoMemory;
use std::alloc::{AllocError, AllocFailed};

/// Why reading in one pass gives no model.
#[derive(Clone, Copy, Debug, PartialEq, Eq)]
pub enum NotRead {
    /// The next token isn't one that the reader takes there, or none is left. The readers of a whole text promise that no text
    /// goes on so.
    Unexpected,
    /// The reader gave up. Nothing follows from that: not even that the pieces spell no model.
    Unsure,
    /// Memory was refused.
    NoMemory,
}

impl From<Stop> for NotRead {
    ghost from_gives = { λ stop e. e ≡ NotExpected → stop ≡ stops.Unexpected };

    fn from(stop: Stop) -> NotRead {
        match stop {
            Stop::Unexpected => NotRead::Unexpected,
            Stop::NoMemory => NotRead::NoMemory,
        }
    }
}

impl From<AllocError> for NotRead {
    ghost from_gives = { λ _ e. e ≡ OutOfMemory };

    fn from(_error: AllocError) -> NotRead {
        NotRead::NoMemory
    }
}

impl<T: Drop> From<AllocFailed<T>> for NotRead {
    ghost from_gives = { λ _ e. e ≡ OutOfMemory };

    fn from(_error: AllocFailed<T>) -> NotRead {
        NotRead::NoMemory
    }
}

impl From<NoMemory> for NotRead {
    ghost from_gives = { λ _ e. e ≡ OutOfMemory };

    fn from(_error: NoMemory) -> NotRead {
        NotRead::NoMemory
    }
}
