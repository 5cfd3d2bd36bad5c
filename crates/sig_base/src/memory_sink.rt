//! A sink over memory, with calls that fail as a test wants.

ghost use Rattle.std.specs.Prelude.{◌≡◌, ◌<◌, ◌≤◌, ◌+◌, ◌-◌, ◌↔◌, ◌⊎◌, false, true, [], ◌++◌, vec_len, vec_capacity, min, take, length, Contains, IsErr, IfOk, OnOk, OnErr};
ghost use Rattle.sig_base.specs.Faults.{HasRisen, last_count};

use crate::count::one_more;
use crate::filling::append;
use crate::list::List;
use crate::no_memory::{Failed, NoMemory};
use crate::sink::Sink;
use std::alloc::Global;
use std::marker::Model;

/// Memory as a sink, which takes bytes in pieces up to a capacity and fails at chosen calls.
#[derive(Drop)]
pub struct MemorySink {
    bytes: Vec<u8>,
    capacity: usize,
    piece: usize,
    failing: List<u64>,
    calls: u64,
    faults: u64,
    settled: bool,
}

impl Model for MemorySink {
    ghost use Rattle.std.specs.Prelude.{◌<◌, ◌≤◌, vec_len, vec_capacity};
    ghost use Rattle.sig_base.specs.Memory.{Store};

    ghost Value = { Store };

    ghost view = { λ s. record {
      written = s.bytes.items;
      capacity = s.capacity;
      piece = s.piece;
      failing = s.failing;
      calls = s.calls;
      faults = s.faults;
      settled = s.settled;
    } };

    ghost invariant = { λ s.
        (vec_len s.bytes ≤ s.capacity) × (s.capacity ≤ vec_capacity s.bytes) × (0 < s.piece) };
}

impl MemorySink {
    /// An empty sink that holds at most `capacity` bytes, and takes at most `piece` at a write. All
    /// its memory is taken here.
    ///
    /// The calls whose numbers are in `failing` fail, those of `finish` among them. The first call
    /// has the number 1. A write where the capacity is reached fails too.
    pub fn begin(
        alloc: Global,
        capacity: usize,
        piece: usize,
        failing: List<u64>,
    ) -> Result<MemorySink, NoMemory>
        requires { 0 < piece }
        ensures { IfOk result (λ sink. sink ≡ record {
          written = [];
          capacity = capacity;
          piece = piece;
          failing = failing;
          calls = 0;
          faults = 0;
          settled = false;
        }) }
    {
        Ok(MemorySink {
            bytes: Vec::with_capacity(alloc, capacity)?,
            capacity,
            piece,
            failing,
            calls: 0,
            faults: 0,
            settled: false,
        })
    }

    /// The bytes that it holds.
    pub fn written(&self) -> &[u8]
        ensures { result.now ≡ self.now.written }
    {
        self.bytes.as_slice()
    }

    /// How many calls were made on it, the failed ones among them.
    pub fn calls(&self) -> u64
        ensures { result ≡ self.now.calls }
    {
        self.calls
    }
}

impl Sink for MemorySink {
    ghost use Rattle.std.specs.Prelude.{Some};

    ghost seen = { λ s.
        record { written = Some s.written; faults = s.faults; settled = s.settled } };

    fn write(&mut self, piece: &[u8]) -> Result<usize, Failed>
        requires { 0 < length piece.now }

        // Each call counts, and those fail whose number is chosen and those without room.
        ensures counted { self.new.calls ≡ min (self.old.calls + 1) last_count }
        ensures fails { IsErr result
            ↔ (Contains self.old.failing self.new.calls
            ⊎ (length self.old.written ≡ self.old.capacity)) }

        // A write takes as much as there is, as a piece may have and as fits.
        ensures count { IfOk result (λ n. n ≡ min (min (length piece.now) self.old.piece)
            (self.old.capacity - length self.old.written)) }
        ensures some { IfOk result (λ n. 0 < n) }

        // The state after a call that succeeds, and after one that fails.
        ensures ok { IfOk result (λ n. self.new ≡ record self.old {
          written = self.old.written ++ take n piece.now;
          calls = self.new.calls;
          settled = false;
        }) }
        ensures err { OnErr result (self.new ≡ record self.old {
          calls = self.new.calls;
          faults = min (self.old.faults + 1) last_count;
          settled = false;
        }) }
        ensures failed { OnErr result (HasRisen self.old.faults self.new.faults) }
    {
        self.settled = false;
        self.calls = one_more(self.calls);
        let room = self.capacity - self.bytes.len();
        if room == 0 || self.failing.as_slice().contains(&self.calls) {
            self.faults = one_more(self.faults);
            return Err(Failed);
        }
        let count = piece.len().min(self.piece).min(room);
        append(&mut self.bytes, &piece[..count]);
        Ok(count)
    }

    fn finish(&mut self) -> Result<(), Failed>
        // Each call counts, and those fail whose number is chosen.
        ensures counted { self.new.calls ≡ min (self.old.calls + 1) last_count }
        ensures fails { IsErr result ↔ Contains self.old.failing self.new.calls }
        ensures ok { OnOk result (self.new ≡ record self.old {
          calls = self.new.calls;
          settled = true;
        }) }
        ensures err { OnErr result (self.new ≡ record self.old {
          calls = self.new.calls;
          faults = min (self.old.faults + 1) last_count;
        }) }
        ensures failed { OnErr result (HasRisen self.old.faults self.new.faults) }
    {
        self.calls = one_more(self.calls);
        if self.failing.as_slice().contains(&self.calls) {
            self.faults = one_more(self.faults);
            return Err(Failed);
        }
        self.settled = true;
        Ok(())
    }
}
