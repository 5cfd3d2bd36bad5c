//! Numbers of a snapshot, where they are in their limits.

ghost use Rattle.std.specs.Prelude.{◌≡◌, ◌≤◌, IfSome};
ghost use Rattle.model_core.specs.Code.WrittenViews.{written_number};
ghost use Rattle.model_core.specs.Text.Numbering.{natural};
ghost use Rattle.model_core.specs.Saved.GoodSnapshots.{number_or_zero, is_at_most, from_one_to};
ghost use Rattle.snapshot_text.specs.Inner.Judging.{if_good, seed_kept};

use model_core::RawNumber;

/// The seed is written as its quotient by this number and its rest.
pub(crate) const SEED_PART: u64 = 4_294_967_296;

/// The number, if it is known and not negative.
fn natural(number: RawNumber) -> Option<u64>
    ensures { result ≡ natural (written_number number) }
{
    match number.value {
        Some(value) if value >= 0 => Some(value as u64),
        _ => None,
    }
}

/// The number, if it is at most this.
pub(crate) fn at_most(number: RawNumber, most: u64) -> Option<u64>
    ensures is { result
        ≡ if_good (is_at_most most (written_number number))
        (number_or_zero (written_number number)) }
    ensures within { IfSome result (λ n. n ≤ most) }
{
    let value = natural(number)?;
    if value <= most { Some(value) } else { None }
}

/// The number, if it is from 1 to this.
pub(crate) fn from_one_to(number: RawNumber, most: u64) -> Option<u64>
    ensures is { result
        ≡ if_good (from_one_to most (written_number number))
        (number_or_zero (written_number number)) }
    ensures within { IfSome result (λ n. n ≤ most) }
{
    let value = natural(number)?;
    if value >= 1 && value <= most {
        Some(value)
    } else {
        None
    }
}

/// The seed of its two parts, if both are good.
pub(crate) fn seed_of(high: RawNumber, low: RawNumber) -> Option<u64>
    ensures { result ≡ seed_kept (written_number high) (written_number low) }
{
    let high = at_most(high, SEED_PART - 1)?;
    let low = at_most(low, SEED_PART - 1)?;
    Some(high * SEED_PART + low)
}
