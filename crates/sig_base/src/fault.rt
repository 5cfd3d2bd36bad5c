//! Why an event can't be completed.

/// What ends a run at an event that can't be completed.
#[derive(Clone, Copy, Debug, PartialEq, Eq)]
pub enum FaultKind {
    /// A result outside the signed numbers of 64 bits.
    Overflow,
    /// A quotient or a remainder by 0.
    DivisionByZero,
    /// An index that names no cell of its array.
    IndexOutside,
    /// A value stored outside its variable's range.
    RangeOutside,
    /// A delay below 0.
    NegativeDelay,
}
