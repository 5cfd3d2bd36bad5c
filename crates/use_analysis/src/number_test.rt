//! Tests of numbers: of variables, of random streams, or of other numbers in a part of a model. So one walk over a vertex serves
//! each test.

ghost use Rattle.std.specs.Prelude.{◌≡◌, ◌==◌};

/// A test of numbers.
pub trait NumberTest {
    ghost use Rattle.std.specs.Prelude.{ℕ, Bool};

    // Whether a number passes.
    ghost test: { Self → ℕ → Bool };

    /// Whether a number passes.
    fn passes(&self, number: usize) -> bool
        ensures { result ≡ test self.now number };
}

/// Only this number passes.
#[derive(Drop)]
pub struct Is {
    pub number: usize,
}

impl NumberTest for Is {
    ghost test = { λ t n. n == t.number };

    fn passes(&self, number: usize) -> bool {
        number == self.number
    }
}
