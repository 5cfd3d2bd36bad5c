//! Sums that are copied, scaled, added up and divided, with ample memory.
#![tactic(auto, unfolding(tree_laws::specs::Limits::count, tree_laws::specs::Limits::small_coefficients))]

ghost use Rattle.std.specs.Prelude.{pos, false};
ghost use Rattle.tree_laws.specs.Limits.{Interval};

use case_trees::{
    Atom, Coefficient, Ground, Number, Sum, Terms, TreeError, added, copy_sum, divisor, primitive,
    same_sum, same_terms, scaled, subtracted,
};
use std::alloc::Global;
use std::test::*;

/// Atoms in the order in which they come.
#[derive(Drop)]
struct AsTheyCome;

impl Ground for AsTheyCome {
    ghost base = { λ g. record {
      before = λ a b. false;
      terms_before = λ a b. false;
      sum_before = λ a b. false;
      variable = λ i. record { lo = pos 0; hi = pos 0 };
      cell = λ i. record { lo = pos 0; hi = pos 0 };
      received = λ i. record { lo = pos 0; hi = pos 0 };
      word = λ i. record { lo = pos 0; hi = pos 0 };
    } };

    fn atom_before(&self, _a: &Atom, _b: &Atom) -> bool {
        false
    }
}

/// A variable, as often as the coefficient says, and a number.
fn of_variable(
    alloc: Global,
    coefficient: i8,
    variable: usize,
    constant: i8,
) -> Result<Sum, TreeError> {
    let coefficient = Coefficient {
        value: coefficient as i64,
    };
    let constant = Number {
        value: constant as i128,
    };
    let rest = Box::new(alloc, Terms::None)?;
    Ok(Sum {
        terms: Terms::Term(coefficient, Atom::Var(variable), rest),
        constant,
    })
}

/// The sum `-4 * Y + 4 * X + 3`, as `6 * X + 5 - (2 * X + 1 + 4 * Y + 1)`.
fn difference(alloc: Global) -> Result<Sum, TreeError> {
    let ground = AsTheyCome;
    let other = added(
        alloc,
        &ground,
        of_variable(alloc, 2, 0, 1)?,
        of_variable(alloc, 4, 1, 1)?,
    )?;
    subtracted(alloc, &ground, of_variable(alloc, 6, 0, 5)?, other)
}

/// The divisor and the constant of the difference.
fn numbers_of_difference(alloc: Global) -> Result<(i128, i128), TreeError> {
    let sum = difference(alloc)?;
    Ok((divisor(&sum.terms), sum.constant.value))
}

#[test]
fn equal_atoms_are_added_up(rt: HostRuntime) -> Result<(), Fail> {
    assert_eq!(rt; numbers_of_difference(rt.alloc())?, (-4, 3));
    Ok(())
}

/// Whether the difference and its multiple have one list, and whether they have one primitive list.
fn compared_to_multiple(alloc: Global, by: i128) -> Result<(bool, bool), TreeError> {
    let sum = difference(alloc)?;
    let multiple = scaled(alloc, by, copy_sum(alloc, &sum)?)?;
    let lists = same_terms(&sum.terms, &multiple.terms);
    let list = primitive(alloc, &sum.terms)?;
    Ok((
        lists,
        same_terms(&list, &primitive(alloc, &multiple.terms)?),
    ))
}

#[test]
fn multiples_have_one_primitive_list(rt: HostRuntime) -> Result<(), Fail> {
    assert_eq!(rt; compared_to_multiple(rt.alloc(), 1)?, (true, true));
    assert_eq!(rt; compared_to_multiple(rt.alloc(), -3)?, (false, true));
    assert_eq!(rt; compared_to_multiple(rt.alloc(), 0)?, (false, false));
    Ok(())
}

/// Whether a copy of the difference is the same, and whether it still is once this number of `X` is added.
fn copies(alloc: Global, more: i8) -> Result<(bool, bool), TreeError> {
    let sum = difference(alloc)?;
    let copy = copy_sum(alloc, &sum)?;
    let same = same_sum(&copy, &sum);
    let other = added(alloc, &AsTheyCome, copy, of_variable(alloc, more, 0, 0)?)?;
    Ok((same, same_sum(&other, &sum)))
}

#[test]
fn a_copy_is_the_same_sum(rt: HostRuntime) -> Result<(), Fail> {
    assert_eq!(rt; copies(rt.alloc(), -4)?, (true, false));
    Ok(())
}
