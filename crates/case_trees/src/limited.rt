//! Numbers that keep the limits of sums.

ghost use Rattle.std.specs.Prelude.{◌≡◌, true};
ghost use Rattle.tree_laws.specs.Limits.{up_to, COEFFICIENT_MAX as greatest_coefficient, CONSTANT_MAX as greatest_constant};
ghost use Rattle.case_trees.specs.Rooms.{COEFFICIENT_ROOM, NUMBER_ROOM};

/// The most terms of a sum.
pub const TERMS_MAX: usize = 64;

/// The greatest coefficient of a sum, 2^40.
pub const COEFFICIENT_MAX: i64 = 1 << 40;

/// The greatest constant and the greatest end, 2^80.
pub const CONSTANT_MAX: i128 = 1 << 80;

/// A coefficient. While lists are added up, one may pass its limit; it stays within 2^62.
#[derive(Clone, Copy)]
pub struct Coefficient {
    /// The number.
    pub value: i64,
    ghost roomy: { up_to COEFFICIENT_ROOM value ≡ true },
}

/// A constant or an end. One that a fact gives may pass the limit by 1; it stays within 2^81.
#[derive(Clone, Copy)]
pub struct Number {
    /// The number.
    pub value: i128,
    ghost roomy: { up_to NUMBER_ROOM value ≡ true },
}

/// A least and a greatest number.
#[derive(Clone, Copy)]
pub struct Ends {
    /// The least number.
    pub lo: Number,
    /// The greatest number.
    pub hi: Number,
}

/// Whether a coefficient keeps its limit.
pub(crate) fn is_small_coefficient(value: i128) -> bool
    ensures { result ≡ up_to greatest_coefficient value }
{
    value <= COEFFICIENT_MAX as i128 && value >= -(COEFFICIENT_MAX as i128)
}

/// Whether a constant or an end keeps its limit.
pub(crate) fn is_small_number(value: i128) -> bool
    ensures { result ≡ up_to greatest_constant value }
{
    value <= CONSTANT_MAX && value >= -CONSTANT_MAX
}

/// The coefficient that is this number.
pub(crate) fn narrowed(value: i128) -> Coefficient
    requires { up_to COEFFICIENT_ROOM value ≡ true }
    ensures { result.value ≡ value }
{
    Coefficient {
        value: value as i64,
    }
}
