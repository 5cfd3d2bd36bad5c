//! A place of a state.

use std::marker::Model;

/// A variable and the index of a cell, which is 0 for a scalar.
#[derive(Clone, Copy, Default)]
pub struct Place {
    pub var: usize,
    pub index: usize,
}

impl Model for Place {
    ghost use Rattle.model_core.specs.Run.State.{Place as StatePlace};

    ghost Value = { StatePlace };

    ghost view = { λ p. record { variable = p.var; index = p.index } };

    ghost inverse = { λ p. record { var = p.variable; index = p.index } };
}
