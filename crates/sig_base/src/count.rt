//! Counts that stop at their last value.

ghost use Rattle.std.specs.Prelude.{◌≡◌, ◌+◌, min};
ghost use Rattle.sig_base.specs.Faults.{HasRisen, last_count};

/// One more, or the same at the last value.
pub(crate) fn one_more(count: u64) -> u64
    ensures value { result ≡ min (count + 1) last_count }
    ensures risen { HasRisen count result }
{
    count.saturating_add(1)
}
