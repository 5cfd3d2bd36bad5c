//! The value of a number that a pending event carries in a snapshot, if it lies from -2^63 to 2^63 - 1.

ghost use Rattle.std.specs.Prelude.{◌≡◌, ◌^◌, ◌≤◌, suc, nat_lt, IfSome};
ghost use Rattle.model_core.specs.Text.Lexing.{digits_value};
ghost use Rattle.model_core.specs.Saved.GoodSnapshots.{carried_of, is_wide};
ghost use Rattle.snapshot_text.specs.Inner.Judging.{if_good};
ghost use Rattle.snapshot_text.specs.Inner.RawParts.{written_carried};

use crate::parts::RawCarried;

/// The number below the least value, without its sign.
const LEAST_SIZE: u64 = 9_223_372_036_854_775_808;

/// The number that the digits write, if it is at most 2^63.
fn size_of(digits: &[u8]) -> Option<u64>
    ensures is { result
        ≡ if_good (nat_lt (digits_value digits.now) (suc (2 ^ 63))) (digits_value digits.now) }
    ensures within { IfSome result (λ n. n ≤ 2 ^ 63) }
{
    let mut value: u64 = 0;
    for digit in digits {
        value = value
            .checked_mul(10)?
            .checked_add(u64::from(digit.saturating_sub(b'0')))?;
    }
    if value <= LEAST_SIZE {
        Some(value)
    } else {
        None
    }
}

/// The value, if it is a number of 64 bits.
pub(crate) fn carried_value(carried: RawCarried<'_>) -> Option<i64>
    ensures { result
        ≡ if_good (is_wide (written_carried carried.entry))
        (carried_of (written_carried carried.entry)) }
{
    let size = size_of(carried.digits.bytes)?;
    if size == LEAST_SIZE {
        return if carried.negative {
            Some(i64::MIN)
        } else {
            None
        };
    }
    let value = size as i64;
    Some(if carried.negative { -value } else { value })
}
