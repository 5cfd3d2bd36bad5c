//! Where bytes are read from.

ghost use Rattle.std.specs.Prelude.{◌≡◌, ◌<◌, ◌≤◌, length, IfOk, OnOk, OnErr};
ghost use Rattle.sig_base.specs.Faults.{HasRisen};
ghost use Rattle.sig_base.specs.Source.{Inlet, Stays, Takes, Shows, IsAtEnd};

use crate::no_memory::Failed;

/// Bytes that come in pieces, from calls that may fail.
pub trait Source {
    // What contracts see of it. The count of failed calls never falls.
    ghost seen: { Self → Inlet };

    /// Reads into the front of the buffer, and answers how many bytes it read: 0 is the end of the
    /// input.
    ///
    /// After `Failed` the buffer's bytes may be any.
    fn read(&mut self, into: &mut [u8]) -> Result<usize, Failed>
        requires { 0 < length into.old }
        ensures within { IfOk result (λ n. n ≤ length into.new) }
        ensures takes { IfOk result (λ n. Takes (seen self.old).left (seen self.new).left n) }
        ensures shows { IfOk result (λ n. Shows (seen self.old).left n into.new) }
        ensures end { IfOk result (λ n. n ≡ 0 → IsAtEnd (seen self.old).left) }
        ensures stays { OnErr result (Stays (seen self.old).left (seen self.new).left) }
        ensures steady { OnOk result ((seen self.new).faults ≡ (seen self.old).faults) }
        ensures failed { OnErr result (HasRisen (seen self.old).faults (seen self.new).faults) };
}
