//! Pairs of a variable and each one that is read for it: but for those that are known to be needed, to which no pair has to
//! lead.

ghost use Rattle.std.specs.Prelude.{◌≡◌, ℕ, ◌++◌, map, zip, OnOk};
ghost use Rattle.std.specs.List.{flat_map};
ghost use Rattle.model_core.specs.EventGraph.{Location, Expression};
ghost use Rattle.model_core.specs.Rules.Uses.{variables_in, location_reads};
ghost use Rattle.model_core.specs.Code.Views.{location_of, expression_of};
ghost use Rattle.var_slicing.specs.Inner.Needing.{with_read, with_reads, target_pairs, value_pairs};

use marked_walks::is_marked;
use model_core::{Expr, Target};
use sig_base::NoMemory;

/// Adds a variable that is read beside the one for which it is.
fn add_beside(
    pairs: &mut Vec<(usize, usize)>,
    marks: &[bool],
    var: usize,
    read: usize,
) -> Result<(), NoMemory>
    ensures { OnOk result (pairs.new.items ≡ with_read marks.now var pairs.old.items read) }
{
    if !is_marked(marks, read) {
        pairs.push((var, read))?;
    }
    Ok(())
}

/// Adds what an expression reads beside a variable.
fn add_reads_beside(
    pairs: &mut Vec<(usize, usize)>,
    marks: &[bool],
    var: usize,
    expr: &Expr,
) -> Result<(), NoMemory>
    ensures { OnOk result
        (pairs.new.items
        ≡ with_reads marks.now var pairs.old.items (variables_in (expression_of expr.now))) }
{
    match expr {
        Expr::Int(_) | Expr::Truth(_) | Expr::Clk => {}
        Expr::Scalar(read) => add_beside(pairs, marks, var, *read)?,
        Expr::Cell(read, index) => {
            add_beside(pairs, marks, var, *read)?;
            add_reads_beside(pairs, marks, var, index)?;
        }
        Expr::Neg(a) | Expr::Not(a) => add_reads_beside(pairs, marks, var, a)?,
        Expr::Binary(_, left, right) => {
            add_reads_beside(pairs, marks, var, left)?;
            add_reads_beside(pairs, marks, var, right)?;
        }
        Expr::If(test, yes, no) => {
            add_reads_beside(pairs, marks, var, test)?;
            add_reads_beside(pairs, marks, var, yes)?;
            add_reads_beside(pairs, marks, var, no)?;
        }
    }
    Ok(())
}

/// Adds what the index of a target reads beside its variable.
pub(crate) fn add_index_beside(
    pairs: &mut Vec<(usize, usize)>,
    marks: &[bool],
    target: &Target,
) -> Result<(), NoMemory>
    ensures { OnOk result
        (pairs.new.items
        ≡ with_reads marks.now target.now.var pairs.old.items
        (location_reads (location_of target.now))) }
{
    match &target.index {
        None => Ok(()),
        Some(index) => add_reads_beside(pairs, marks, target.var, index),
    }
}

/// Adds what the index and the right side of a target read beside its variable.
fn add_target_beside(
    pairs: &mut Vec<(usize, usize)>,
    marks: &[bool],
    target: &Target,
    value: &Expr,
) -> Result<(), NoMemory>
    ensures { OnOk result
        (pairs.new.items
        ≡ pairs.old.items
        ++ target_pairs marks.now (location_of target.now) (expression_of value.now)) }
{
    add_index_beside(pairs, marks, target)?;
    add_reads_beside(pairs, marks, target.var, value)
}

/// Adds what the indexes and right sides of targets read beside their variables.
pub(crate) fn add_targets_beside(
    pairs: &mut Vec<(usize, usize)>,
    marks: &[bool],
    targets: &[Target],
    values: &[Expr],
) -> Result<(), NoMemory>
    ensures { OnOk result
        (pairs.new.items
        ≡ pairs.old.items
        ++ flat_map (λ ((l, e) : Location × Expression). target_pairs marks.now l e)
        (zip (map location_of targets.now) (map expression_of values.now))) }
{
    for (target, value) in targets.iter().zip(values) {
        add_target_beside(pairs, marks, target, value)?;
    }
    Ok(())
}

/// Adds what the values that are carried for parameters read beside these.
pub(crate) fn add_values_beside(
    pairs: &mut Vec<(usize, usize)>,
    marks: &[bool],
    params: &[usize],
    values: &[Expr],
) -> Result<(), NoMemory>
    ensures { OnOk result
        (pairs.new.items
        ≡ pairs.old.items
        ++ flat_map (λ ((v, x) : ℕ × Expression). value_pairs marks.now v x)
        (zip params.now (map expression_of values.now))) }
{
    for (param, value) in params.iter().zip(values) {
        add_reads_beside(pairs, marks, *param, value)?;
    }
    Ok(())
}
