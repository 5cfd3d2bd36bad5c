//! Whether atoms and sums are the same.
#![tactic(auto, unfolding(tree_laws::specs::LinearSums::same_atom, tree_laws::specs::LinearSums::same_terms))]

ghost use Rattle.std.specs.Prelude.{◌≡◌};
ghost use Rattle.tree_laws.specs.LinearSums.{same_atom, same_terms, same_sum};
ghost use Rattle.case_trees.specs.TermViews.{atom_of, terms_of};
ghost use Rattle.case_trees.specs.Views.{sum_of};

use crate::sum::Sum;
use crate::terms::{Atom, Terms};

/// Whether two atoms are the same.
#[cycle(same)]
pub fn same_atom(a: &Atom, b: &Atom) -> bool
    ensures { result ≡ same_atom (atom_of a.now) (atom_of b.now) }
{
    match (a, b) {
        (Atom::Var(i), Atom::Var(j)) => i == j,
        (Atom::Received(i), Atom::Received(j)) => i == j,
        (Atom::Word(i), Atom::Word(j)) => i == j,
        (Atom::Clk, Atom::Clk) => true,
        (Atom::Cell(i, s, c), Atom::Cell(j, t, d)) => i == j
            && same_terms(s, t)
            && c.value == d.value,
        (Atom::Combined(p, s, c, t, d), Atom::Combined(q, u, e, v, f)) => {
            *p == *q
                && same_terms(s, u)
                && c.value == e.value
                && same_terms(t, v)
                && d.value == f.value
        }
        _ => false,
    }
}

/// Whether two lists of terms are the same.
#[cycle(same)]
pub fn same_terms(a: &Terms, b: &Terms) -> bool
    ensures { result ≡ same_terms (terms_of a.now) (terms_of b.now) }
{
    match (a, b) {
        (Terms::None, Terms::None) => true,
        (Terms::Term(c, x, s), Terms::Term(d, y, t)) => c.value == d.value
            && same_atom(x, y)
            && same_terms(s, t),
        _ => false,
    }
}

/// Whether two sums are the same.
pub fn same_sum(a: &Sum, b: &Sum) -> bool
    ensures { result ≡ same_sum (sum_of a.now) (sum_of b.now) }
{
    same_terms(&a.terms, &b.terms) && a.constant.value == b.constant.value
}
