//! Writing all bytes of a slice to a sink.

ghost use Rattle.std.specs.Prelude.{◌≡◌, ◌<◌, ℕ, [], false, length, take, OnOk, OnErr};
ghost use Rattle.sig_base.specs.Faults.{HasRisen};
ghost use Rattle.sig_base.specs.Sink.{GrowsBy};

use crate::no_memory::Failed;
use crate::sink::Sink;

/// Writes all the bytes, and stops at the first call that fails.
pub fn put<K: Sink>(sink: &mut K, bytes: &[u8]) -> Result<(), Failed>
    ensures all { OnOk result
        (GrowsBy (K.seen sink.old).written (K.seen sink.new).written bytes.now) }
    ensures prefix { OnErr result ((n : ℕ) × (n < length bytes.now)
        × GrowsBy (K.seen sink.old).written (K.seen sink.new).written (take n bytes.now)) }
    ensures unsettled { 0 < length bytes.now → (K.seen sink.new).settled ≡ false }
    ensures unchanged { bytes.now ≡ [] → (K.seen sink.new).settled ≡ (K.seen sink.old).settled }
    ensures steady { OnOk result ((K.seen sink.new).faults ≡ (K.seen sink.old).faults) }
    ensures failed { OnErr result (HasRisen (K.seen sink.old).faults (K.seen sink.new).faults) }
{
    let mut done = 0;
    while done < bytes.len() {
        done += sink.write(&bytes[done..])?;
    }
    Ok(())
}
