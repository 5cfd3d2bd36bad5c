//! Copies of sums. A copy has the same plain value as its original.

ghost use Rattle.std.specs.Prelude.{◌≡◌, IfOk};
ghost use Rattle.case_trees.specs.TermViews.{atom_of, terms_of};
ghost use Rattle.case_trees.specs.Views.{sum_of};

use crate::sum::Sum;
use crate::terms::{Atom, Terms};
use sig_base::NoMemory;
use std::alloc::Global;

/// A copy of a list of terms, in a box.
#[cycle(copying)]
fn boxed_copy(alloc: Global, terms: &Terms) -> Result<Box<Terms>, NoMemory>
    ensures { IfOk result (λ copy. terms_of copy.value ≡ terms_of terms.now) }
{
    Ok(Box::new(alloc, copy_terms(alloc, terms)?)?)
}

/// A copy of an atom.
#[cycle(copying)]
pub fn copy_atom(alloc: Global, atom: &Atom) -> Result<Atom, NoMemory>
    ensures { IfOk result (λ copy. atom_of copy ≡ atom_of atom.now) }
{
    match atom {
        Atom::Var(i) => Ok(Atom::Var(*i)),
        Atom::Received(i) => Ok(Atom::Received(*i)),
        Atom::Word(i) => Ok(Atom::Word(*i)),
        Atom::Clk => Ok(Atom::Clk),
        Atom::Cell(i, terms, constant) => {
            Ok(Atom::Cell(*i, boxed_copy(alloc, terms)?, *constant))
        }
        Atom::Combined(op, terms, constant, others, other) => {
            let terms = boxed_copy(alloc, terms)?;
            Ok(Atom::Combined(*op, terms, *constant, boxed_copy(alloc, others)?, *other))
        }
    }
}

/// A copy of a list of terms.
#[cycle(copying)]
pub fn copy_terms(alloc: Global, terms: &Terms) -> Result<Terms, NoMemory>
    ensures { IfOk result (λ copy. terms_of copy ≡ terms_of terms.now) }
{
    match terms {
        Terms::None => Ok(Terms::None),
        Terms::Term(coefficient, atom, rest) => {
            let atom = copy_atom(alloc, atom)?;
            Ok(Terms::Term(*coefficient, atom, boxed_copy(alloc, rest)?))
        }
    }
}

/// A copy of a sum.
pub fn copy_sum(alloc: Global, sum: &Sum) -> Result<Sum, NoMemory>
    ensures { IfOk result (λ copy. sum_of copy ≡ sum_of sum.now) }
{
    Ok(Sum {
        terms: copy_terms(alloc, &sum.terms)?,
        constant: sum.constant,
    })
}
