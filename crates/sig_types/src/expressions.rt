//! Expressions: their faults, their kind and their numbers in one walk.

ghost use Rattle.std.specs.Prelude.{◌≡◌, IfOk};
ghost use Rattle.model_core.specs.Code.Views.{expression_of};
ghost use Rattle.model_core.specs.Code.WrittenViews.{written_expression};
ghost use Rattle.model_core.specs.Text.Numbering.{expression};
ghost use Rattle.model_core.specs.Static.Meanings.{meaning_of};
ghost use Rattle.model_core.specs.Static.Kinds.{expression_kind};
ghost use Rattle.model_core.specs.Static.PartFaults.{expression_faults, operand_faults};
ghost use Rattle.static_laws.specs.Checked.{CheckedPart};

use crate::first_fault::FirstFault;
use crate::kinds::{Typed, kinds_differ, known_or, operand_kind, result_kind, right_kind};
use crate::names::Names;
use crate::uses::variable;
use model_core::{Expr, Kind, RawExpr, RawForm, StaticKind};
use sig_base::NoMemory;
use std::alloc::Global;

/// An expression whose kind must be this one, where both are known.
#[cycle(expressions)]
pub(crate) fn operand(
    alloc: Global,
    names: &Names,
    wanted: Option<Kind>,
    raw: &RawExpr,
    fault: &mut FirstFault,
) -> Result<Typed<Expr>, NoMemory>
    ensures checked { IfOk result
        (λ e. CheckedPart (meaning_of names.now) fault.old fault.new
        (operand_faults (meaning_of names.now) wanted (written_expression raw.now))
        (λ d. expression d (written_expression raw.now)) (expression_of e.part)) }
    ensures kind { IfOk result
        (λ e. e.kind ≡ expression_kind (meaning_of names.now) (written_expression raw.now)) }
{
    let typed = typed_expression(alloc, names, raw, fault)?;
    let differs = kinds_differ(wanted, typed.kind);
    fault.note(differs, StaticKind::KindMismatch, raw.at);
    Ok(typed)
}

/// The same in a box, of a written one in a box, which is looked into once.
#[cycle(expressions)]
fn boxed_operand(
    alloc: Global,
    names: &Names,
    wanted: Option<Kind>,
    raw: &Box<RawExpr>,
    fault: &mut FirstFault,
) -> Result<Typed<Box<Expr>>, NoMemory>
    ensures checked { IfOk result
        (λ e. CheckedPart (meaning_of names.now) fault.old fault.new
        (operand_faults (meaning_of names.now) wanted (written_expression raw.now.value))
        (λ d. expression d (written_expression raw.now.value)) (expression_of e.part.value)) }
    ensures kind { IfOk result
        (λ e. e.kind ≡ expression_kind (meaning_of names.now) (written_expression raw.now.value)) }
{
    let typed = operand(alloc, names, wanted, raw, fault)?;
    let kind = typed.kind;
    let part = Box::new(alloc, typed.part)?;
    Ok(Typed { part, kind })
}

/// The expression with numbers in place of names. Where it has a fault, nothing is said of what is given.
#[cycle(expressions)]
fn typed_expression(
    alloc: Global,
    names: &Names,
    raw: &RawExpr,
    fault: &mut FirstFault,
) -> Result<Typed<Expr>, NoMemory>
    ensures checked { IfOk result
        (λ e. CheckedPart (meaning_of names.now) fault.old fault.new
        (expression_faults (meaning_of names.now) (written_expression raw.now))
        (λ d. expression d (written_expression raw.now)) (expression_of e.part)) }
    ensures kind { IfOk result
        (λ e. e.kind ≡ expression_kind (meaning_of names.now) (written_expression raw.now)) }
{
    match &raw.form {
        RawForm::Int(number) => {
            fault.note(
                number.value.is_none(),
                StaticKind::LiteralTooLarge,
                number.at,
            );
            Ok(Typed {
                part: Expr::Int(number.value.unwrap_or(0)),
                kind: Some(Kind::Range),
            })
        }
        RawForm::Truth(truth) => Ok(Typed {
            part: Expr::Truth(*truth),
            kind: Some(Kind::Truth),
        }),
        RawForm::Clk => Ok(Typed {
            part: Expr::Clk,
            kind: Some(Kind::Range),
        }),
        RawForm::Scalar(name) => {
            let var = variable(names, false, name, fault);
            Ok(Typed {
                part: Expr::Scalar(var.part),
                kind: var.kind,
            })
        }
        RawForm::Cell(name, index) => {
            let var = variable(names, true, name, fault);
            let index = boxed_operand(alloc, names, Some(Kind::Range), index, fault)?;
            Ok(Typed {
                part: Expr::Cell(var.part, index.part),
                kind: var.kind,
            })
        }
        RawForm::Neg(number) => {
            let number = boxed_operand(alloc, names, Some(Kind::Range), number, fault)?;
            Ok(Typed {
                part: Expr::Neg(number.part),
                kind: Some(Kind::Range),
            })
        }
        RawForm::Not(truth) => {
            let truth = boxed_operand(alloc, names, Some(Kind::Truth), truth, fault)?;
            Ok(Typed {
                part: Expr::Not(truth.part),
                kind: Some(Kind::Truth),
            })
        }
        RawForm::Binary(op, left, right) => {
            let wanted = operand_kind(*op);
            let left = boxed_operand(alloc, names, wanted, left, fault)?;
            let right = boxed_operand(alloc, names, right_kind(*op, left.kind), right, fault)?;
            Ok(Typed {
                part: Expr::Binary(*op, left.part, right.part),
                kind: Some(result_kind(*op)),
            })
        }
        RawForm::If(test, yes, no) => {
            let test = boxed_operand(alloc, names, Some(Kind::Truth), test, fault)?;
            let yes = boxed_operand(alloc, names, None, yes, fault)?;
            let no = boxed_operand(alloc, names, yes.kind, no, fault)?;
            let kind = known_or(yes.kind, no.kind);
            Ok(Typed {
                part: Expr::If(test.part, yes.part, no.part),
                kind,
            })
        }
    }
}
