//! A sink over memory whose writes fail only where its room is full.

ghost use Rattle.std.specs.Prelude.{◌≡◌, ◌<◌, ◌≤◌, ◌+◌, ◌-◌, ◌++◌, ℕ, [], false, true, Some, vec_len, vec_capacity, length, min, take, IsOk, IfOk, OnOk, OnErr};
ghost use Rattle.sig_base.specs.Faults.{HasRisen};

use sig_base::{Failed, NoMemory, Sink, append};
use std::alloc::Global;
use std::marker::{Brand, PhantomData};

/// How many bytes a room holds, as contracts name it.
pub trait Room {
    ghost size: { ℕ };
}

impl Room for Brand {
    ghost size = { 0 };
}

/// How many bytes a room holds, as the program counts them.
#[derive(Drop)]
struct Size<R: Room> {
    bytes: usize,
    of: PhantomData<R>,
    ghost is: { bytes ≡ R.size },
}

/// Bytes in memory as a sink, which takes as many as its room holds. A write fails only where the room is full.
#[derive(Drop)]
pub struct RoomSink<R: Room> {
    bytes: Vec<u8>,
    size: Size<R>,
    faults: u64,
    settled: bool,
    ghost fits: { vec_len bytes ≤ size.bytes },
    ghost enough: { size.bytes ≤ vec_capacity bytes },
    ghost full: { 0 < faults → vec_len bytes ≡ size.bytes },
}

impl<R: Room> RoomSink<R> {
    /// An empty sink with room for so many bytes. All its memory is taken here.
    pub fn begin(alloc: Global, size: usize) -> Result<RoomSink<R>, NoMemory>
        requires { size ≡ R.size }
        ensures { IfOk result (λ sink. ⟦<RoomSink<R> as Sink>⟧.seen sink ≡ record { written = Some []; faults = 0; settled = false }) }
    {
        Ok(RoomSink {
            bytes: Vec::with_capacity(alloc, size)?,
            size: Size {
                bytes: size,
                of: PhantomData,
            },
            faults: 0,
            settled: false,
        })
    }

    /// The bytes that it took.
    pub fn into_bytes(self) -> Vec<u8>
        ensures { result ≡ self.bytes }
    {
        self.bytes
    }
}

impl<R: Room> Sink for RoomSink<R> {
    ghost seen = { λ s. record { written = Some s.bytes.items; faults = s.faults; settled = s.settled } };

    fn write(&mut self, piece: &[u8]) -> Result<usize, Failed>
        requires { 0 < length piece.now }
        ensures count { IfOk result (λ n. n ≡ min (length piece.now)
            (self.old.size.bytes - vec_len self.old.bytes)) }
        ensures some { IfOk result (λ n. 0 < n) }
        ensures grows { IfOk result (λ n. self.new.bytes.items ≡ self.old.bytes.items ++ take n piece.now) }
        ensures stays { OnErr result (self.new.bytes ≡ self.old.bytes) }
        ensures unsettled { self.new.settled ≡ false }
        ensures steady { OnOk result (self.new.faults ≡ self.old.faults) }
        ensures failed { OnErr result (HasRisen self.old.faults self.new.faults) }
    {
        self.settled = false;
        let left = self.size.bytes - self.bytes.len();
        if left == 0 {
            self.faults = self.faults.saturating_add(1);
            return Err(Failed);
        }
        let count = piece.len().min(left);
        append(&mut self.bytes, &piece[..count]);
        Ok(count)
    }

    fn finish(&mut self) -> Result<(), Failed>
        ensures sure { IsOk result }
        ensures same { self.new.bytes ≡ self.old.bytes }
        ensures steady { self.new.faults ≡ self.old.faults }
        ensures settled { self.new.settled ≡ true }
    {
        self.settled = true;
        Ok(())
    }
}
