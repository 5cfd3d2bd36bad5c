//! Writing to one of std's writers.

ghost use Rattle.std.specs.Prelude.{◌≡◌, ◌+◌, ◌<◌, ◌≤◌, length, min, take, true, false, IfOk, OnOk, OnErr};
ghost use Rattle.sig_base.specs.Faults.{HasRisen, last_count};
ghost use Rattle.sig_base.specs.Source.{Stays};
ghost use Rattle.sig_base.specs.Sink.{GrowsBy};

use crate::count::one_more;
use crate::no_memory::Failed;
use crate::sink::Sink;
use crate::std_source::TRIES;
use std::io::{ErrorKind, Write};

/// A writer of std as a sink.
///
/// A call that is interrupted is tried at most 100 times in all. Every other error, the hundredth
/// interruption and a write of no byte are `Failed`. `finish` is the writer's flush. Contracts see
/// the bytes written where the writer shows them: a writer over memory does, and a terminal, a pipe
/// or a file doesn't.
#[derive(Drop)]
pub struct StdSink<W> {
    inner: W,
    faults: u64,
    settled: bool,
}

impl<W: Write> StdSink<W> {
    /// The sink that writes to the writer.
    pub fn new(inner: W) -> StdSink<W>
        ensures { ⟦<StdSink<W> as Sink>⟧.seen result
            ≡ record { written = W.contents inner; faults = 0; settled = false } }
    {
        StdSink {
            inner,
            faults: 0,
            settled: false,
        }
    }
}

impl<W: Write> Sink for StdSink<W> {
    ghost seen = { λ s.
        record { written = W.contents s.inner; faults = s.faults; settled = s.settled } };

    fn write(&mut self, piece: &[u8]) -> Result<usize, Failed>
        requires { 0 < length piece.now }
        ensures some { IfOk result (λ n. 0 < n) }
        ensures within { IfOk result (λ n. n ≤ length piece.now) }
        ensures grows { IfOk result
            (λ n. GrowsBy (W.contents self.old.inner) (W.contents self.new.inner)
            (take n piece.now)) }
        ensures stays { OnErr result
            (Stays (W.contents self.old.inner) (W.contents self.new.inner)) }
        ensures unsettled { self.new.settled ≡ false }
        ensures steady { OnOk result (self.new.faults ≡ self.old.faults) }
        ensures failed { OnErr result (HasRisen self.old.faults self.new.faults) }

        // One more at each failed call; the count stops at its last value.
        ensures counted { OnErr result (self.new.faults ≡ min (self.old.faults + 1) last_count) }
    {
        self.settled = false;
        for _ in 0..TRIES {
            match self.inner.write(piece) {
                Ok(0) => break,
                Ok(count) => return Ok(count),
                Err(error) if error.kind() == ErrorKind::Interrupted => {}
                Err(_) => break,
            }
        }
        self.faults = one_more(self.faults);
        Err(Failed)
    }

    fn finish(&mut self) -> Result<(), Failed>
        ensures stays { Stays (W.contents self.old.inner) (W.contents self.new.inner) }
        ensures settles { OnOk result (self.new.settled ≡ true) }
        ensures unchanged { OnErr result (self.new.settled ≡ self.old.settled) }
        ensures steady { OnOk result (self.new.faults ≡ self.old.faults) }
        ensures failed { OnErr result (HasRisen self.old.faults self.new.faults) }
        ensures counted { OnErr result (self.new.faults ≡ min (self.old.faults + 1) last_count) }
    {
        for _ in 0..TRIES {
            match self.inner.flush() {
                Ok(()) => {
                    self.settled = true;
                    return Ok(());
                }
                Err(error) if error.kind() == ErrorKind::Interrupted => {}
                Err(_) => break,
            }
        }
        self.faults = one_more(self.faults);
        Err(Failed)
    }
}
