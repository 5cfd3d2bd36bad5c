//! The destination of an edge: the vertex, and the values that the edge carries to it, read and checked at once.

ghost use Rattle.std.specs.Prelude.{◌≡◌, Some, map, slice_get, IfOk};
ghost use Rattle.model_core.specs.Code.Views.{expression_of};
ghost use Rattle.model_core.specs.Text.Language.{values_format};
ghost use Rattle.model_core.specs.Text.Numbering as numbering;
ghost use Rattle.model_core.specs.Text.Numbering.{each_numbered};
ghost use Rattle.model_core.specs.Static.Meanings.{meaning_of};
ghost use Rattle.model_read.specs.Spelled.{spelled_name};
ghost use Rattle.one_pass.specs.Inner.ReadParts.{ReadSure};
ghost use Rattle.one_pass.specs.Inner.ReadValues.{fitting_faults};
ghost use Rattle.one_pass.specs.Inner.ReadCarried.{ReadGiven, IsVertex, ReadCarried};

use crate::not_read::NotRead;
use crate::values::values;
use model_core::{Expr, Kind, Symbol};
use model_read::{Cursor, Spelling};
use sig_base::List;
use sig_types::{FirstFault, Names, spelled_vertex};
use std::alloc::Global;

/// Reads values in parentheses: one of each of these kinds.
fn values_in_parentheses(
    alloc: Global,
    cursor: &mut Cursor<'_>,
    names: &Names,
    kinds: &[Option<Kind>],
) -> Result<List<Expr>, NotRead>
    ensures { IfOk result
        (λ es. ReadSure values_format (meaning_of names.now)
        (fitting_faults (meaning_of names.now) kinds.now)
        (λ d. each_numbered (numbering.expression d)) cursor.old cursor.new
        (map expression_of es)) }
{
    cursor.symbol(Symbol::OpenParenthesis)?;
    let values = values(alloc, cursor, names, kinds)?;
    cursor.symbol(Symbol::CloseParenthesis)?;
    Ok(values)
}

/// Reads values in parentheses, which are left out where no kind is taken.
fn values_if_taken(
    alloc: Global,
    cursor: &mut Cursor<'_>,
    names: &Names,
    kinds: &[Option<Kind>],
) -> Result<List<Expr>, NotRead>
    ensures { IfOk result
        (λ es. ReadGiven (meaning_of names.now) kinds.now cursor.old cursor.new
        (map expression_of es)) }
{
    if cursor.begins_symbol(Symbol::OpenParenthesis) {
        return values_in_parentheses(alloc, cursor, names, kinds);
    }
    if kinds.len() != 0 {
        return Err(NotRead::Unsure);
    }
    Ok(List::new(alloc))
}

/// The place of the vertex of this name.
fn target(names: &Names, name: Spelling<'_>) -> Result<usize, NotRead>
    ensures { IfOk result (λ k. IsVertex (meaning_of names.now) (spelled_name name.entry) k) }
{
    let mut fault = FirstFault::new();
    let place = spelled_vertex(names, name.bytes, name.at, &mut fault);
    match (fault.first_fault(), place) {
        (None, Some(place)) => Ok(place),
        _ => Err(NotRead::Unsure),
    }
}

/// What the vertex at a place takes.
fn taken_at(taken: &[List<Option<Kind>>], place: usize) -> Result<&[Option<Kind>], NotRead>
    ensures { IfOk result (λ kinds. slice_get taken.now place ≡ Some kinds.now) }
{
    match taken.get(place) {
        Some(kinds) => Ok(kinds.as_slice()),
        None => Err(NotRead::Unsure),
    }
}

/// A vertex, and values of the kinds that it takes.
#[derive(Drop)]
pub(crate) struct Destination {
    pub target: usize,
    pub values: List<Expr>,
}

/// Reads the name of a vertex, and values of the kinds that it takes.
pub(crate) fn read_destination(
    alloc: Global,
    cursor: &mut Cursor<'_>,
    names: &Names,
    taken: &[List<Option<Kind>>],
) -> Result<Destination, NotRead>
    ensures { IfOk result
        (λ c. ReadCarried (meaning_of names.now) taken.now cursor.old cursor.new c.target
        (map expression_of c.values)) }
{
    let name = cursor.spelling()?;
    let target = target(names, name)?;
    let kinds = taken_at(taken, target)?;
    let values = values_if_taken(alloc, cursor, names, kinds)?;
    Ok(Destination { target, values })
}
