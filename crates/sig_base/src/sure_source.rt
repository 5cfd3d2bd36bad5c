//! A source over memory whose reads never fail.

ghost use Rattle.std.specs.Prelude.{◌≡◌, ◌<◌, [], min, take, drop, length, IsOk, IfOk};

use crate::no_memory::Failed;
use crate::source::Source;
use crate::text::Text;
use std::marker::Model;

/// Bytes in memory as a source, which gives them in pieces and never fails.
#[derive(Drop)]
pub struct SureSource {
    content: Text,
    taken: usize,
    piece: usize,
}

impl Model for SureSource {
    ghost use Rattle.std.specs.Prelude.{◌<◌, ◌≤◌, drop, length};
    ghost use Rattle.sig_base.specs.Memory.{SureSupply};

    ghost Value = { SureSupply };

    ghost view = { λ s. record { left = drop s.taken s.content; piece = s.piece } };

    ghost invariant = { λ s. (s.taken ≤ length s.content) × (0 < s.piece) };
}

impl SureSource {
    /// A source of the content, which gives at most `piece` bytes at a read.
    pub fn new(content: Text, piece: usize) -> SureSource
        requires { 0 < piece }
        ensures { result ≡ record { left = content; piece = piece } }
    {
        SureSource {
            content,
            taken: 0,
            piece,
        }
    }
}

impl Source for SureSource {
    ghost use Rattle.std.specs.Prelude.{Some};

    ghost seen = { λ s. record { left = Some s.left; faults = 0 } };

    fn read(&mut self, into: &mut [u8]) -> Result<usize, Failed>
        requires { 0 < length into.old }
        ensures sure { IsOk result }
        // A read gives as much as there is, as a piece may have and as fits.
        ensures count { IfOk result
            (λ n. n ≡ min (min (length self.old.left) self.old.piece) (length into.new)) }
        ensures shows { IfOk result (λ n. take n into.new ≡ take n self.old.left) }
        ensures end { IfOk result (λ n. n ≡ 0 → self.old.left ≡ []) }
        ensures ok { IfOk result (λ n. self.new ≡ record self.old { left = drop n self.old.left }) }
    {
        let left = &self.content.as_slice()[self.taken..];
        let count = left.len().min(self.piece).min(into.len());
        into[..count].copy_from_slice(&left[..count]);
        self.taken += count;
        Ok(count)
    }
}
