//! Where bytes are written to.

ghost use Rattle.std.specs.Prelude.{◌≡◌, ◌<◌, ◌≤◌, true, false, length, take, IfOk, OnOk, OnErr};
ghost use Rattle.sig_base.specs.Faults.{HasRisen};
ghost use Rattle.sig_base.specs.Source.{Stays};
ghost use Rattle.sig_base.specs.Sink.{Outlet, GrowsBy};

use crate::no_memory::Failed;

/// A place that takes bytes in pieces, by calls that may fail.
pub trait Sink {
    // What contracts see of it. The count of failed calls never falls.
    ghost seen: { Self → Outlet };

    /// Writes bytes from the front of the piece, and answers how many.
    fn write(&mut self, piece: &[u8]) -> Result<usize, Failed>
        requires { 0 < length piece.now }
        ensures some { IfOk result (λ n. 0 < n) }
        ensures within { IfOk result (λ n. n ≤ length piece.now) }
        ensures grows { IfOk result
            (λ n. GrowsBy (seen self.old).written (seen self.new).written (take n piece.now)) }
        ensures stays { OnErr result (Stays (seen self.old).written (seen self.new).written) }
        ensures unsettled { (seen self.new).settled ≡ false }
        ensures steady { OnOk result ((seen self.new).faults ≡ (seen self.old).faults) }
        ensures failed { OnErr result (HasRisen (seen self.old).faults (seen self.new).faults) };

    /// Hands on all that was written, as a flush does.
    fn finish(&mut self) -> Result<(), Failed>
        ensures stays { Stays (seen self.old).written (seen self.new).written }
        ensures settles { OnOk result ((seen self.new).settled ≡ true) }
        ensures unchanged { OnErr result ((seen self.new).settled ≡ (seen self.old).settled) }
        ensures steady { OnOk result ((seen self.new).faults ≡ (seen self.old).faults) }
        ensures failed { OnErr result (HasRisen (seen self.old).faults (seen self.new).faults) };
}
