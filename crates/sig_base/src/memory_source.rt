//! A source over memory, with calls that fail as a test wants.

ghost use Rattle.std.specs.Prelude.{◌≡◌, ◌<◌, ◌+◌, ◌↔◌, [], min, take, drop, length, Contains, IsErr, IfOk, OnErr};
ghost use Rattle.sig_base.specs.Faults.{HasRisen, last_count};

use crate::count::one_more;
use crate::list::List;
use crate::no_memory::Failed;
use crate::source::Source;
use crate::text::Text;
use std::marker::Model;

/// Bytes in memory as a source, which gives them in pieces and fails at chosen calls.
#[derive(Drop)]
pub struct MemorySource {
    content: Text,
    taken: usize,
    piece: usize,
    failing: List<u64>,
    calls: u64,
    faults: u64,
}

impl Model for MemorySource {
    ghost use Rattle.std.specs.Prelude.{◌<◌, ◌≤◌, drop, length};
    ghost use Rattle.sig_base.specs.Memory.{Supply};

    ghost Value = { Supply };

    ghost view = { λ s. record {
      left = drop s.taken s.content;
      piece = s.piece;
      failing = s.failing;
      calls = s.calls;
      faults = s.faults;
    } };

    ghost invariant = { λ s. (s.taken ≤ length s.content) × (0 < s.piece) };
}

impl MemorySource {
    /// A source of the content, which gives at most `piece` bytes at a read.
    ///
    /// The calls whose numbers are in `failing` fail. The first call has the number 1.
    pub fn new(content: Text, piece: usize, failing: List<u64>) -> MemorySource
        requires { 0 < piece }
        ensures { result
            ≡ record { left = content; piece = piece; failing = failing; calls = 0; faults = 0 } }
    {
        MemorySource {
            content,
            taken: 0,
            piece,
            failing,
            calls: 0,
            faults: 0,
        }
    }

    /// How many calls were made on it, the failed ones among them.
    pub fn calls(&self) -> u64
        ensures { result ≡ self.now.calls }
    {
        self.calls
    }
}

impl Source for MemorySource {
    ghost use Rattle.std.specs.Prelude.{Some};

    ghost seen = { λ s. record { left = Some s.left; faults = s.faults } };

    fn read(&mut self, into: &mut [u8]) -> Result<usize, Failed>
        requires { 0 < length into.old }

        // Each call counts, and those fail whose number is chosen.
        ensures counted { self.new.calls ≡ min (self.old.calls + 1) last_count }
        ensures fails { IsErr result ↔ Contains self.old.failing self.new.calls }

        // A read gives as much as there is, as a piece may have and as fits.
        ensures count { IfOk result
            (λ n. n ≡ min (min (length self.old.left) self.old.piece) (length into.new)) }
        ensures shows { IfOk result (λ n. take n into.new ≡ take n self.old.left) }
        ensures end { IfOk result (λ n. n ≡ 0 → self.old.left ≡ []) }

        // The state after a call that succeeds, and after one that fails.
        ensures ok { IfOk result (λ n. self.new ≡ record self.old {
          left = drop n self.old.left;
          calls = self.new.calls;
        }) }
        ensures err { OnErr result (self.new ≡ record self.old {
          calls = self.new.calls;
          faults = min (self.old.faults + 1) last_count;
        }) }
        ensures failed { OnErr result (HasRisen self.old.faults self.new.faults) }
    {
        self.calls = one_more(self.calls);
        if self.failing.as_slice().contains(&self.calls) {
            self.faults = one_more(self.faults);
            return Err(Failed);
        }
        let left = &self.content.as_slice()[self.taken..];
        let count = left.len().min(self.piece).min(into.len());
        into[..count].copy_from_slice(&left[..count]);
        self.taken += count;
        Ok(count)
    }
}
