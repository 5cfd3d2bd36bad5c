//! Sums that are added up and multiplied.
#![tactic(auto, unfolding(tree_laws::specs::LinearSums::with_term, tree_laws::specs::LinearSums::terms_added, tree_laws::specs::LinearSums::terms_scaled, tree_laws::specs::Limits::count, tree_laws::specs::Limits::small_coefficients, crate::specs::Rooms::has_room, crate::specs::Rooms::have_room))]

ghost use Rattle.std.specs.Prelude.{◌≡◌, true, nat_le, IfOk, ◌&&◌, ◌+ℤ◌, ◌*ℤ◌};
ghost use Rattle.tree_laws.specs.LinearSums.{with_term, terms_added, terms_scaled, sum_scaled};
ghost use Rattle.tree_laws.specs.Limits.{up_to, count, small_coefficients, limited, TERMS_MAX as most_terms};
ghost use Rattle.tree_laws.specs.SumSettled.{added, subtracted};
ghost use Rattle.case_trees.specs.Rooms.{COEFFICIENT_ROOM, has_room, have_room};
ghost use Rattle.case_trees.specs.TermViews.{atom_of, terms_of};
ghost use Rattle.case_trees.specs.Views.{Gave, GaveCoefficient, GaveSmall, sum_of};

use crate::ground::Ground;
use crate::limited::{
    Coefficient, Number, TERMS_MAX, is_small_coefficient, is_small_number, narrowed,
};
use crate::same::same_atom;
use crate::sum::Sum;
use crate::terms::{Atom, Terms};
use crate::tree_error::TreeError;
use sig_base::NoMemory;
use std::alloc::Global;

fn coefficients_added(a: Coefficient, b: Coefficient) -> Coefficient
    requires { up_to COEFFICIENT_ROOM (a.value +ℤ b.value) ≡ true }
    ensures { result.value ≡ a.value +ℤ b.value }
{
    narrowed(a.value as i128 + b.value as i128)
}

/// A term put into its place.
fn with_term<G: Ground>(
    alloc: Global,
    ground: &G,
    coefficient: Coefficient,
    atom: Atom,
    terms: Terms,
) -> Result<Terms, NoMemory>
    requires { has_room coefficient.value (terms_of terms) ≡ true }
    ensures { IfOk result (λ all. terms_of all ≡ with_term (G.base ground.now).before coefficient.value (atom_of atom) (terms_of terms)) }
{
    match terms {
        Terms::None => Ok(Terms::Term(coefficient, atom, Box::new(alloc, Terms::None)?)),
        Terms::Term(first, other, rest) => {
            if same_atom(&atom, &other) {
                let both = coefficients_added(coefficient, first);
                if both.value == 0 {
                    Ok(Box::into_inner(rest))
                } else {
                    Ok(Terms::Term(both, other, rest))
                }
            } else if ground.atom_before(&atom, &other) {
                let rest = Terms::Term(first, other, rest);
                Ok(Terms::Term(coefficient, atom, Box::new(alloc, rest)?))
            } else {
                let rest = with_term(alloc, ground, coefficient, atom, Box::into_inner(rest))?;
                Ok(Terms::Term(first, other, Box::new(alloc, rest)?))
            }
        }
    }
}

/// The terms of two lists.
fn terms_added<G: Ground>(
    alloc: Global,
    ground: &G,
    terms: Terms,
    others: Terms,
) -> Result<Terms, NoMemory>
    requires { have_room (G.base ground.now).before (terms_of terms) (terms_of others) ≡ true }
    ensures { IfOk result (λ all. terms_of all ≡ terms_added (G.base ground.now).before (terms_of terms) (terms_of others)) }
{
    match terms {
        Terms::None => Ok(others),
        Terms::Term(coefficient, atom, rest) => {
            let rest = terms_added(alloc, ground, Box::into_inner(rest), others)?;
            with_term(alloc, ground, coefficient, atom, rest)
        }
    }
}

/// Whether there are at most so many terms.
fn at_most_terms(terms: &Terms, most: usize) -> bool
    ensures { result ≡ nat_le (count (terms_of terms.now)) most }
{
    match terms {
        Terms::None => true,
        Terms::Term(_, _, rest) => most > 0 && at_most_terms(rest, most - 1),
    }
}

/// Whether each coefficient keeps its limit.
fn small_coefficients(terms: &Terms) -> bool
    ensures { result ≡ small_coefficients (terms_of terms.now) }
{
    match terms {
        Terms::None => true,
        Terms::Term(coefficient, _, rest) => {
            is_small_coefficient(coefficient.value as i128) && small_coefficients(rest)
        }
    }
}

/// Whether a list keeps the limits of a sum.
fn terms_fit(terms: &Terms) -> bool
    ensures { result ≡ nat_le (count (terms_of terms.now)) most_terms && small_coefficients (terms_of terms.now) }
{
    at_most_terms(terms, TERMS_MAX) && small_coefficients(terms)
}

/// The sum of these terms and this constant, unless it passes a limit.
fn limited(terms: Terms, constant: i128) -> Result<Sum, TreeError>
    ensures { Gave sum_of (limited (record { terms = terms_of terms; constant = constant })) result }
{
    if terms_fit(&terms) && is_small_number(constant) {
        let constant = Number { value: constant };
        Ok(Sum { terms, constant })
    } else {
        Err(TreeError::TooLarge)
    }
}

fn constants_added(a: Number, b: Number) -> i128
    ensures { result ≡ a.value +ℤ b.value }
{
    a.value + b.value
}

/// The sum of two sums.
#[tactic(auto, using(crate::proofs::RoomForSums::have_room_rules))]
pub fn added<G: Ground>(alloc: Global, ground: &G, a: Sum, b: Sum) -> Result<Sum, TreeError>
    ensures { Gave sum_of (added (G.base ground.now) (sum_of a) (sum_of b)) result }
{
    let constant = constants_added(a.constant, b.constant);
    let terms = terms_added(alloc, ground, a.terms, b.terms)?;
    limited(terms, constant)
}

/// A coefficient times a number, if it keeps its limit.
#[tactic(auto, using(crate::proofs::ScaledNumbers::scaled_rules))]
fn coefficient_scaled(by: i128, coefficient: Coefficient) -> Result<Coefficient, TreeError>
    ensures { GaveCoefficient (by *ℤ coefficient.value) result }
{
    match by.checked_mul(coefficient.value as i128) {
        Some(product) if is_small_coefficient(product) => Ok(narrowed(product)),
        _ => Err(TreeError::TooLarge),
    }
}

/// The terms times a number, if each coefficient keeps its limit.
fn terms_scaled(alloc: Global, by: i128, terms: Terms) -> Result<Terms, TreeError>
    ensures { GaveSmall (terms_scaled by (terms_of terms)) result }
{
    match terms {
        Terms::None => Ok(Terms::None),
        Terms::Term(coefficient, atom, rest) => {
            let rest = terms_scaled(alloc, by, Box::into_inner(rest))?;
            let product = coefficient_scaled(by, coefficient)?;
            Ok(Terms::Term(product, atom, Box::new(alloc, rest)?))
        }
    }
}

/// A sum times a number.
pub fn scaled(alloc: Global, by: i128, sum: Sum) -> Result<Sum, TreeError>
    ensures { Gave sum_of (limited (sum_scaled by (sum_of sum))) result }
{
    if by == 0 {
        return limited(Terms::None, 0);
    }
    let constant = by.checked_mul(sum.constant.value);
    let terms = terms_scaled(alloc, by, sum.terms)?;
    match constant {
        Some(constant) => limited(terms, constant),
        None => Err(TreeError::TooLarge),
    }
}

/// The difference of two sums.
pub fn subtracted<G: Ground>(alloc: Global, ground: &G, a: Sum, b: Sum) -> Result<Sum, TreeError>
    ensures { Gave sum_of (subtracted (G.base ground.now) (sum_of a) (sum_of b)) result }
{
    let b = scaled(alloc, -1, b)?;
    added(alloc, ground, a, b)
}
