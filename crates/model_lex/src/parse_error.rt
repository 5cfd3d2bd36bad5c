//! Why tokens can't be read.

use thiserror::Error;

/// Why a reader of tokens refuses them.
#[derive(Clone, Copy, Debug, PartialEq, Eq, Error)]
pub enum ParseError {
    /// The tokens spell nothing that is read here. The place is the byte at which a token begins, or
    /// the text's length.
    #[error("byte {at}: unexpected")]
    Unexpected { at: usize },
    /// A part of the text has more openings than the limit, the first one too many at this byte.
    #[error("byte {at}: too deep")]
    TooDeep { at: usize },
    /// Memory was refused.
    #[error("out of memory")]
    NoMemory,
}
