//! Why a text reads as no model, or as no document.

ghost use Rattle.std.specs.Prelude.{◌≡◌};
ghost use Rattle.job_answers.specs.declared.reading_error.ReadingError.TheVariants.{NoMemory as OutOfMemory};
ghost use Rattle.job_answers.specs.Inner.Refusals.{lexing_complaint, parsing_complaint, static_complaint};

use answer_delivery::Complaint;
use model_lex::{LexError, ParseError};
use sig_base::NoMemory;
use sig_types::StaticError;

/// Why a text reads as no model, or as no document.
#[derive(Clone, Copy, Debug, PartialEq, Eq)]
pub enum ReadingError {
    /// There is this to complain of at this byte, which counts from 0.
    At { what: Complaint, at: usize },
    /// Memory was refused.
    NoMemory,
}

impl From<LexError> for ReadingError {
    ghost from_gives = { λ error e. e ≡ lexing_complaint error };

    fn from(error: LexError) -> ReadingError {
        match error {
            LexError::BadByte { at } => ReadingError::At {
                what: Complaint::BadByte,
                at,
            },
            LexError::NoMemory => ReadingError::NoMemory,
        }
    }
}

impl From<ParseError> for ReadingError {
    ghost from_gives = { λ error e. e ≡ parsing_complaint error };

    fn from(error: ParseError) -> ReadingError {
        match error {
            ParseError::Unexpected { at } => ReadingError::At {
                what: Complaint::Unexpected,
                at,
            },
            ParseError::TooDeep { at } => ReadingError::At {
                what: Complaint::TooDeep,
                at,
            },
            ParseError::NoMemory => ReadingError::NoMemory,
        }
    }
}

impl From<StaticError> for ReadingError {
    ghost from_gives = { λ error e. e ≡ static_complaint error };

    fn from(error: StaticError) -> ReadingError {
        match error {
            StaticError::Fault { kind, at } => ReadingError::At {
                what: Complaint::Static(kind),
                at,
            },
            StaticError::NoMemory => ReadingError::NoMemory,
        }
    }
}

impl From<NoMemory> for ReadingError {
    ghost from_gives = { λ _ e. e ≡ OutOfMemory };

    fn from(_error: NoMemory) -> ReadingError {
        ReadingError::NoMemory
    }
}
