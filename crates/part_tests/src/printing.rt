//! Canonical texts with ample memory.

use crate::copies::{drawing_model, limited};
use model_core::{Expr, Op};
use model_print::{print, print_expr};
use sig_base::{NoMemory, Text};
use std::alloc::Global;
use std::mem::forget;
use std::test::*;

const MODEL: &[u8] = b"model DRAWING;
var N : -9..9 clip = 1;
table T { 4 : 2; }
watch RUN;
vertex RUN(N) {
  draw N from 7 by T;
  cancel RUN(if N < 3 then N else -5);
}
end
";

/// The text of the model.
fn printed_model(alloc: Global) -> Result<Text, NoMemory> {
    let model = drawing_model(alloc, 5)?;
    let text = print(alloc, &model);
    forget(model);
    text
}

#[test]
fn a_model_is_printed(rt: HostRuntime) -> Result<(), Fail> {
    assert!(rt; printed_model(rt.alloc())?.as_slice() == MODEL);
    Ok(())
}

/// `N` and another operand with an operator between them.
fn before(alloc: Global, op: Op, right: Expr) -> Result<Expr, NoMemory> {
    Expr::binary(alloc, op, Expr::Scalar(0), right)
}

/// An expression as it is printed in a model whose variable is `N`.
fn printed_expr(alloc: Global, expr: &Expr) -> Result<Text, NoMemory> {
    let model = drawing_model(alloc, 5)?;
    let text = print_expr(alloc, expr, &model);
    forget(model);
    text
}

/// Whether the expression is printed so.
fn is_printed(alloc: Global, expr: Expr, text: &[u8]) -> Result<bool, NoMemory> {
    let printed = printed_expr(alloc, &expr);
    forget(expr);
    Ok(printed?.as_slice() == text)
}

#[test]
fn a_condition_is_printed(rt: HostRuntime) -> Result<(), Fail> {
    let chosen = limited(rt.alloc(), 5)?;
    assert!(rt; is_printed(rt.alloc(), chosen, b"if N < 3 then N else -5")?);
    Ok(())
}

#[test]
fn a_call_is_printed(rt: HostRuntime) -> Result<(), Fail> {
    let least = before(rt.alloc(), Op::Min, Expr::Int(10))?;
    assert!(rt; is_printed(rt.alloc(), least, b"min(N, 10)")?);
    Ok(())
}

#[test]
fn an_operand_is_printed_in_parentheses(rt: HostRuntime) -> Result<(), Fail> {
    let inner = before(rt.alloc(), Op::Sub, Expr::Int(2))?;
    let outer = before(rt.alloc(), Op::Sub, inner)?;
    assert!(rt; is_printed(rt.alloc(), outer, b"N - (N - 2)")?);
    Ok(())
}

#[test]
fn a_comparison_is_printed_after_not(rt: HostRuntime) -> Result<(), Fail> {
    let same = before(rt.alloc(), Op::Eq, Expr::Clk)?;
    let other = Expr::Not(Box::new(rt.alloc(), same)?);
    assert!(rt; is_printed(rt.alloc(), other, b"not N = clk")?);
    Ok(())
}

#[test]
fn two_signs_are_printed(rt: HostRuntime) -> Result<(), Fail> {
    let negative = Expr::Neg(Box::new(rt.alloc(), Expr::Scalar(0))?);
    let positive = Expr::Neg(Box::new(rt.alloc(), negative)?);
    assert!(rt; is_printed(rt.alloc(), positive, b"--N")?);
    Ok(())
}

#[test]
fn an_index_is_printed(rt: HostRuntime) -> Result<(), Fail> {
    let index = before(rt.alloc(), Op::Add, Expr::Int(1))?;
    let cell = Expr::Cell(0, Box::new(rt.alloc(), index)?);
    assert!(rt; is_printed(rt.alloc(), cell, b"N[N + 1]")?);
    Ok(())
}
