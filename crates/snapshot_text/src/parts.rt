//! The parts of a snapshot as they are written.

ghost use Rattle.std.specs.Prelude.{◌≡◌, [], unwrap_or};

use model_core::{RawNumber, RawSigned};
use model_read::Spelling;
use sig_base::List;

/// A stream and how many words it gave.
#[derive(Clone, Copy)]
pub(crate) struct RawStream {
    pub at: usize,
    pub stream: RawNumber,
    pub words: RawNumber,
}

/// The values of a variable.
#[derive(Drop)]
pub(crate) struct RawValue<'t> {
    pub at: usize,
    pub variable: Spelling<'t>,
    pub values: List<RawSigned>,
}

/// The values that were noted last.
#[derive(Drop)]
pub(crate) struct RawNoted {
    pub at: usize,
    pub values: Option<List<RawSigned>>,
}

/// A value that an event carries: its sign and its digits.
#[derive(Clone, Copy)]
pub(crate) struct RawCarried<'t> {
    pub negative: bool,
    pub digits: Spelling<'t>,
}

/// The values that are written, and none where none are.
pub(crate) fn written_values<T>(values: &Option<List<T>>) -> &[T]
    ensures { result.now ≡ unwrap_or values.now [] }
{
    match values {
        Some(values) => values.as_slice(),
        None => &[],
    }
}

/// A pending event.
#[derive(Drop)]
pub(crate) struct RawPending<'t> {
    pub at: usize,
    pub ticks: RawNumber,
    pub priority: RawNumber,
    pub vertex: Spelling<'t>,
    pub values: Option<List<RawCarried<'t>>>,
}

/// The parts of a snapshot before its streams.
#[derive(Clone, Copy)]
pub(crate) struct RawHead {
    pub seed_at: usize,
    pub seed: RawNumber,
    pub seed_rest: RawNumber,
    pub clock_at: usize,
    pub clock: RawNumber,
    pub events_at: usize,
    pub events: RawNumber,
}

/// A snapshot.
#[derive(Drop)]
pub(crate) struct RawSnapshot<'t> {
    pub head: RawHead,
    pub streams: List<RawStream>,
    pub values: List<RawValue<'t>>,
    pub noted: Option<RawNoted>,
    pub pending: List<RawPending<'t>>,
    pub end_at: usize,
}
