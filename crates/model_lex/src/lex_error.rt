//! Why a text has no tokens.

ghost use Rattle.std.specs.Prelude.{◌≡◌};
ghost use Rattle.model_lex.specs.declared.lex_error.LexError.TheVariants.{NoMemory as OutOfMemory};

use sig_base::NoMemory;
use thiserror::Error;

/// Why a text isn't cut into tokens.
#[derive(Clone, Copy, Debug, PartialEq, Eq, Error)]
pub enum LexError {
    /// A byte that begins no token. It is the first such byte of the text, counted from 0.
    #[error("byte {at}: bad byte")]
    BadByte { at: usize },
    /// Memory was refused.
    #[error("out of memory")]
    NoMemory,
}

impl From<NoMemory> for LexError {
    ghost from_gives = { λ _ e. e ≡ OutOfMemory };

    fn from(_error: NoMemory) -> LexError {
        LexError::NoMemory
    }
}
