//! Values, which are checked as they are read: expressions of kinds that are known before. Where one breaks a static rule
//! these functions give up.

ghost use Rattle.std.specs.Prelude.{map, IfOk};
ghost use Rattle.model_core.specs.declared.token.Symbol.TheVariants.{Comma};
ghost use Rattle.model_core.specs.Code.Views.{expression_of};
ghost use Rattle.model_core.specs.Text.Format.{mark, ◌*>◌, separated};
ghost use Rattle.model_core.specs.Text.Expressions.{expression_format};
ghost use Rattle.model_core.specs.Text.Numbering as numbering;
ghost use Rattle.model_core.specs.Text.Numbering.{each_numbered};
ghost use Rattle.model_core.specs.Static.Meanings.{meaning_of};
ghost use Rattle.model_core.specs.Static.PartFaults.{operand_faults};
ghost use Rattle.one_pass.specs.Inner.ReadParts.{ReadSure};
ghost use Rattle.one_pass.specs.Inner.ReadValues.{fitting_faults};

use crate::expressions::{Operand, expect, expression};
use crate::not_read::NotRead;
use model_core::{Expr, Kind, Symbol};
use model_read::{Cursor, packed};
use sig_base::List;
use sig_types::{Names, wanted_at};
use std::alloc::Global;

/// Reads an expression of this kind, where both kinds are known.
// Inlined: so the expression goes from where it was read to where the caller keeps it.
#[inline(always)]
pub(crate) fn value(
    alloc: Global,
    cursor: &mut Cursor<'_>,
    names: &Names,
    wanted: Option<Kind>,
) -> Result<Expr, NotRead>
    ensures { IfOk result
        (λ e. ReadSure expression_format (meaning_of names.now)
        (operand_faults (meaning_of names.now) wanted) numbering.expression cursor.old cursor.new
        (expression_of e)) }
{
    let mut operand = Operand::unread();
    expression(alloc, cursor, names, &mut operand)?;
    expect(wanted, &operand)?;
    Ok(operand.into_expr())
}

/// Reads a comma and the value after it.
fn next(
    alloc: Global,
    cursor: &mut Cursor<'_>,
    names: &Names,
    wanted: Option<Kind>,
) -> Result<Expr, NotRead>
    ensures { IfOk result
        (λ e. ReadSure (mark Comma *> expression_format) (meaning_of names.now)
        (operand_faults (meaning_of names.now) wanted) numbering.expression cursor.old cursor.new
        (expression_of e)) }
{
    cursor.symbol(Symbol::Comma)?;
    let value = value(alloc, cursor, names, wanted)?;
    Ok(value)
}

/// Reads values, separated by commas: one of each of these kinds.
pub(crate) fn values(
    alloc: Global,
    cursor: &mut Cursor<'_>,
    names: &Names,
    kinds: &[Option<Kind>],
) -> Result<List<Expr>, NotRead>
    ensures { IfOk result
        (λ es. ReadSure (separated expression_format) (meaning_of names.now)
        (fitting_faults (meaning_of names.now) kinds.now)
        (λ d. each_numbered (numbering.expression d)) cursor.old cursor.new
        (map expression_of es)) }
{
    let mut all = List::from_vec(Vec::with_capacity(alloc, kinds.len())?);
    all.push(value(alloc, cursor, names, wanted_at(kinds, 0))?)?;
    while cursor.begins_symbol(Symbol::Comma) {
        let wanted = wanted_at(kinds, all.len());
        all.push(next(alloc, cursor, names, wanted)?)?;
    }
    if all.len() != kinds.len() {
        return Err(NotRead::Unsure);
    }
    Ok(packed(all))
}
