//! A sink that takes every byte and keeps none.

ghost use Rattle.std.specs.Prelude.{◌≡◌, ◌<◌, false, true, length, Ok, IsOk};

use crate::no_memory::Failed;
use crate::sink::Sink;
use std::marker::Model;

/// A sink that takes every piece whole, keeps none of its bytes, and never fails. Contracts see whether all that was
/// written is finished.
#[derive(Drop)]
pub struct NullSink {
    settled: bool,
}

impl Model for NullSink {
    ghost use Rattle.std.specs.Prelude.{Bool};

    ghost Value = { Bool };

    ghost view = { λ s. s.settled };
}

impl NullSink {
    /// A new sink, not yet finished.
    pub fn new() -> NullSink
        ensures { result ≡ false }
    {
        NullSink { settled: false }
    }
}

impl Sink for NullSink {
    ghost use Rattle.std.specs.Prelude.{None};

    ghost seen = { λ s. record { written = None; faults = 0; settled = s } };

    fn write(&mut self, piece: &[u8]) -> Result<usize, Failed>
        requires { 0 < length piece.now }
        ensures whole { result ≡ Ok (length piece.now) }
        ensures unsettled { self.new ≡ false }
    {
        self.settled = false;
        Ok(piece.len())
    }

    fn finish(&mut self) -> Result<(), Failed>
        ensures sure { IsOk result }
        ensures settled { self.new ≡ true }
    {
        self.settled = true;
        Ok(())
    }
}
