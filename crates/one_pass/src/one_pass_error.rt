//! Errors of reading in one pass.

use model_core::StaticKind;

/// Why one pass over a text gives no model. A place is a byte of the text, which counts from 0.
#[derive(Clone, Copy, Debug, PartialEq, Eq)]
pub enum OnePassError {
    /// No part has too many openings, and the pieces up to this byte, but not the piece that begins there, begin the text of a
    /// model. The byte is the text's length where no piece is left.
    Unexpected { at: usize },
    /// A part of the text has more openings than the limit, the first one too many at this byte.
    TooDeep { at: usize },
    /// The first fault of the model that the pieces spell.
    Fault { kind: StaticKind, at: usize },
    /// The reader gave up. Nothing follows from that: not even that the pieces spell no model.
    Unsure,
    /// Memory was refused.
    NoMemory,
}
