//! Reading from one of std's readers.

ghost use Rattle.std.specs.Prelude.{◌≡◌, ◌+◌, ◌<◌, ◌≤◌, length, min, IfOk, OnOk, OnErr};
ghost use Rattle.sig_base.specs.Faults.{HasRisen, last_count};
ghost use Rattle.sig_base.specs.Source.{Stays, Takes, Shows, IsAtEnd};

use crate::count::one_more;
use crate::no_memory::Failed;
use crate::source::Source;
use std::io::{ErrorKind, Read};

/// How often a call that is interrupted is tried in all.
pub(crate) const TRIES: u32 = 100;

/// A reader of std as a source.
///
/// A call that is interrupted is tried at most 100 times in all. Every other error, and the
/// hundredth interruption, is `Failed`. Contracts see the bytes left where the reader shows them: a
/// reader over memory does, and a terminal, a pipe or a file doesn't.
#[derive(Drop)]
pub struct StdSource<R> {
    inner: R,
    faults: u64,
}

impl<R: Read> StdSource<R> {
    /// The source of what the reader has left.
    pub fn new(inner: R) -> StdSource<R>
        ensures { ⟦<StdSource<R> as Source>⟧.seen result
            ≡ record { left = R.remaining inner; faults = 0 } }
    {
        StdSource { inner, faults: 0 }
    }
}

impl<R: Read> Source for StdSource<R> {
    ghost seen = { λ s. record { left = R.remaining s.inner; faults = s.faults } };

    fn read(&mut self, into: &mut [u8]) -> Result<usize, Failed>
        requires { 0 < length into.old }
        ensures within { IfOk result (λ n. n ≤ length into.new) }
        ensures takes { IfOk result
            (λ n. Takes (R.remaining self.old.inner) (R.remaining self.new.inner) n) }
        ensures shows { IfOk result (λ n. Shows (R.remaining self.old.inner) n into.new) }
        ensures end { IfOk result (λ n. n ≡ 0 → IsAtEnd (R.remaining self.old.inner)) }
        ensures stays { OnErr result
            (Stays (R.remaining self.old.inner) (R.remaining self.new.inner)) }
        ensures steady { OnOk result (self.new.faults ≡ self.old.faults) }
        ensures failed { OnErr result (HasRisen self.old.faults self.new.faults) }

        // One more at each failed call; the count stops at its last value.
        ensures counted { OnErr result (self.new.faults ≡ min (self.old.faults + 1) last_count) }
    {
        for _ in 0..TRIES {
            match self.inner.read(into) {
                Ok(count) => return Ok(count),
                Err(error) if error.kind() == ErrorKind::Interrupted => {}
                Err(_) => break,
            }
        }
        self.faults = one_more(self.faults);
        Err(Failed)
    }
}
