//! A holder that drops its value by one call, for functions that may return early.

ghost use Rattle.std.specs.Prelude.{◌≡◌};

use std::marker::Model;

/// A value that is dropped by one call, so that a function which may return early has few values to drop.
pub struct HeldValue<T> {
    value: T,
}

impl<T> Model for HeldValue<T> {
    ghost Value = { T };

    ghost view = { λ h. h.value };
}

impl<T: Drop> Drop for HeldValue<T> {
    fn drop(self) {
        let HeldValue { value } = self;
        drop(value);
    }
}

impl<T> HeldValue<T> {
    /// Holds the value.
    pub fn of(value: T) -> HeldValue<T>
        ensures { result ≡ value }
    {
        HeldValue { value }
    }

    /// Gives the value back.
    pub fn free(self) -> T
        ensures { result ≡ self }
    {
        let HeldValue { value } = self;
        value
    }
}
