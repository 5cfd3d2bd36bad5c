//! Divisors of lists of terms, and primitive lists.
#![tactic(auto, using(crate::proofs::DivisorsFit::divisor_rules), unfolding(tree_laws::specs::LinearSums::terms_gcd, tree_laws::specs::LinearSums::terms_divided))]

ghost use Rattle.std.specs.Prelude.{◌≡◌, int_div, IfOk};
ghost use Rattle.tree_laws.specs.LinearSums.{gcd, terms_gcd, divisor, terms_divided, primitive};
ghost use Rattle.case_trees.specs.TermViews.{terms_of};

use crate::copying::copy_atom;
use crate::limited::{Coefficient, narrowed};
use crate::terms::Terms;
use sig_base::NoMemory;
use std::alloc::Global;

/// The greatest common divisor.
fn gcd(a: u64, b: u64) -> u64
    ensures { result ≡ gcd a b }
{
    if b == 0 { a } else { gcd(b, a % b) }
}

/// The greatest common divisor of the coefficients, 0 if there are none.
fn terms_gcd(terms: &Terms) -> u64
    ensures { result ≡ terms_gcd (terms_of terms.now) }
{
    match terms {
        Terms::None => 0,
        Terms::Term(coefficient, _, rest) => gcd(terms_gcd(rest), coefficient.value.unsigned_abs()),
    }
}

/// What a list of terms is the multiple of: the greatest common divisor, with the sign of the first coefficient.
pub fn divisor(terms: &Terms) -> i128
    ensures { result ≡ divisor (terms_of terms.now) }
{
    let size = terms_gcd(terms) as i128;
    match terms {
        Terms::None => size,
        Terms::Term(first, _, _) => { if first.value < 0 { -size } else { size } }
    }
}

/// A coefficient over a divisor; 0 over 0.
fn coefficient_divided(coefficient: Coefficient, by: i128) -> Coefficient
    ensures { result.value ≡ int_div coefficient.value by }
{
    if by == 0 {
        narrowed(0)
    } else {
        narrowed(coefficient.value as i128 / by)
    }
}

/// A copy of the terms, each over a divisor.
fn terms_divided(alloc: Global, by: i128, terms: &Terms) -> Result<Terms, NoMemory>
    ensures { IfOk result (λ parts. terms_of parts ≡ terms_divided by (terms_of terms.now)) }
{
    match terms {
        Terms::None => Ok(Terms::None),
        Terms::Term(coefficient, atom, rest) => {
            let rest = Box::new(alloc, terms_divided(alloc, by, rest)?)?;
            let atom = copy_atom(alloc, atom)?;
            Ok(Terms::Term(coefficient_divided(*coefficient, by), atom, rest))
        }
    }
}

/// The primitive list of which a list of terms is a multiple: its coefficients have no common divisor, and the first
/// is above 0.
pub fn primitive(alloc: Global, terms: &Terms) -> Result<Terms, NoMemory>
    ensures { IfOk result (λ parts. terms_of parts ≡ primitive (terms_of terms.now)) }
{
    terms_divided(alloc, divisor(terms), terms)
}
