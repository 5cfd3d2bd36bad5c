//! Atoms, and lists of atoms with coefficients.

use crate::limited::{Coefficient, Number};

/// An operation that atoms can be.
#[derive(Clone, Copy, PartialEq, Eq)]
pub enum Operation {
    /// A product.
    Mul,
    /// A quotient, whose fraction is dropped.
    Div,
    /// The rest of a quotient.
    Rem,
}

/// What a sum adds up. A sum inside an atom is a list of terms and a constant.
#[cycle(sums)]
#[derive(Drop)]
pub enum Atom {
    /// The scalar variable at this place.
    Var(usize),
    /// The received value at this place.
    Received(usize),
    /// The pick of the word at this place.
    Word(usize),
    /// The clock.
    Clk,
    /// The cell of the array at this place whose index is a sum.
    Cell(usize, Box<Terms>, Number),
    /// An operation on two sums.
    Combined(Operation, Box<Terms>, Number, Box<Terms>, Number),
}

/// Atoms with coefficients, in the order of the atoms.
#[cycle(sums)]
#[derive(Drop)]
pub enum Terms {
    /// No terms.
    None,
    /// A term, and those that follow it.
    Term(Coefficient, Atom, Box<Terms>),
}
