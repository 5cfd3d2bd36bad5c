//! Why a reader stops.

ghost use Rattle.std.specs.Prelude.{◌≡◌, ℕ, List, length};
ghost use Rattle.model_core.specs.Text.FirstWrong.{wrong_place};
ghost use Rattle.model_read.specs.ReadCalls.{placed_at};
ghost use Rattle.model_read.specs.declared.stop.Stop.TheVariants.{NoMemory as OutOfMemory};

use crate::cursor::Cursor;
use model_lex::ParseError;
use sig_base::NoMemory;
use std::alloc::{AllocError, AllocFailed};

/// Why a reader stops.
#[derive(Clone, Copy, Debug, PartialEq, Eq)]
pub enum Stop {
    /// The first token that is left can't be at its place, or no token is left where one must come.
    Unexpected,
    /// Memory was refused.
    NoMemory,
}

impl From<AllocError> for Stop {
    ghost from_gives = { λ _ e. e ≡ OutOfMemory };

    fn from(_error: AllocError) -> Stop {
        Stop::NoMemory
    }
}

impl<T: Drop> From<AllocFailed<T>> for Stop {
    ghost from_gives = { λ _ e. e ≡ OutOfMemory };

    fn from(_error: AllocFailed<T>) -> Stop {
        Stop::NoMemory
    }
}

impl From<NoMemory> for Stop {
    ghost from_gives = { λ _ e. e ≡ OutOfMemory };

    fn from(_error: NoMemory) -> Stop {
        Stop::NoMemory
    }
}

/// What was read, or why not, with the place of the next token. The text has so many bytes.
pub fn with_place<T>(
    read: Result<T, Stop>,
    cursor: &Cursor<'_>,
    bytes: usize,
) -> Result<T, ParseError>
    ensures { (text : List ℕ) → bytes ≡ length text
        → result ≡ placed_at (wrong_place text cursor.now) read }
{
    match read {
        Ok(value) => Ok(value),
        Err(Stop::Unexpected) => Err(ParseError::Unexpected {
            at: cursor.place(bytes),
        }),
        Err(Stop::NoMemory) => Err(ParseError::NoMemory),
    }
}
