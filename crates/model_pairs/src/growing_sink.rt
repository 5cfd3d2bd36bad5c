//! Memory as a sink, which grows as it takes bytes.

ghost use Rattle.std.specs.Prelude.{◌≡◌, ◌<◌, ◌++◌, [], false, true, length, IsOk, IfOk, OnOk, OnErr};
ghost use Rattle.sig_base.specs.Faults.{HasRisen};

use sig_base::{Failed, Sink};
use std::alloc::Global;

/// Memory as a sink, which grows as it takes bytes. A write fails only where memory is refused.
#[derive(Drop)]
pub(crate) struct GrowingSink {
    pub bytes: Vec<u8>,
    pub faults: u64,
    pub settled: bool,
}

impl GrowingSink {
    /// An empty sink, which takes no memory before bytes are written.
    pub fn begin(alloc: Global) -> GrowingSink
        ensures empty { result.bytes.items ≡ [] }
    {
        GrowingSink {
            bytes: Vec::new(alloc),
            faults: 0,
            settled: false,
        }
    }
}

impl Sink for GrowingSink {
    ghost use Rattle.std.specs.Prelude.{Some};

    ghost seen = { λ s. record { written = Some s.bytes.items; faults = s.faults; settled = s.settled } };

    fn write(&mut self, piece: &[u8]) -> Result<usize, Failed>
        requires { 0 < length piece.now }
        ensures whole { IfOk result (λ n. n ≡ length piece.now) }
        ensures some { IfOk result (λ n. 0 < n) }
        ensures grows { OnOk result (self.new.bytes.items ≡ self.old.bytes.items ++ piece.now) }
        ensures stays { OnErr result (self.new.bytes.items ≡ self.old.bytes.items) }
        ensures unsettled { self.new.settled ≡ false }
        ensures steady { OnOk result (self.new.faults ≡ self.old.faults) }
        ensures failed { OnErr result (HasRisen self.old.faults self.new.faults) }
    {
        self.settled = false;
        if self.bytes.extend_from_slice(piece).is_err() {
            self.faults = self.faults.saturating_add(1);
            return Err(Failed);
        }
        Ok(piece.len())
    }

    fn finish(&mut self) -> Result<(), Failed>
        ensures sure { IsOk result }
        ensures same { self.new.bytes ≡ self.old.bytes }
        ensures steady { self.new.faults ≡ self.old.faults }
        ensures settled { self.new.settled ≡ true }
    {
        self.settled = true;
        Ok(())
    }
}
