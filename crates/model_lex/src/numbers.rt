//! The value that digits write.

ghost use Rattle.std.specs.Prelude.{◌≡◌};
ghost use Rattle.model_core.specs.Text.Lexing.{literal_value};

/// The first number that is no literal.
const BEYOND: u64 = 9_223_372_036_854_775_808;

/// Ten times a greater number is no literal.
const TENTH: u64 = 922_337_203_685_477_580;

/// The number that the digits write in decimal, or `None` above 2^63 - 1.
#[inline(always)]
pub fn literal_value(digits: &[u8]) -> Option<i64>
    ensures { result ≡ literal_value digits.now }
{
    let mut value: u64 = 0;
    for digit in digits {
        if value > TENTH {
            return None;
        }
        value = value * 10 + u64::from(digit.saturating_sub(b'0'));
    }
    if value < BEYOND {
        Some(value as i64)
    } else {
        None
    }
}
