//! Copies of a model and of an expression, with ample memory.

use model_core::{
    Change, Choice, Edge, EdgeForm, Expr, Kind, Model, Op, Target, Var, Vertex, Watch, copy_expr,
    copy_model, same_expr, same_model,
};
use sig_base::{HeldValue, List, Name, NoMemory, Row, Table};
use std::alloc::Global;
use std::mem::forget;
use std::test::*;

fn name(alloc: Global, bytes: &[u8]) -> Result<Name, NoMemory> {
    Ok(Name::from_vec(Vec::from_slice(alloc, bytes)?))
}

/// The expression `if N < 3 then N else -limit`.
pub fn limited(alloc: Global, limit: i64) -> Result<Expr, NoMemory> {
    let test = Expr::binary(alloc, Op::Lt, Expr::Scalar(0), Expr::Int(3))?;
    let other = Expr::Neg(Box::new(alloc, Expr::Int(limit))?);
    Expr::conditional(alloc, test, Expr::Scalar(0), other)
}

/// The change that draws from the table.
fn draw() -> Change {
    Change::Draw {
        target: Target {
            var: 0,
            index: None,
        },
        stream: 7,
        choice: Choice::ByTable { table: 0 },
    }
}

/// The edge that cancels, with the expression of this limit.
fn cancelling(alloc: Global, limit: i64) -> Result<Edge, NoMemory> {
    Ok(Edge {
        target: 0,
        values: List::of_one(alloc, limited(alloc, limit)?)?,
        condition: Expr::Truth(true),
        form: EdgeForm::CancelEqual,
    })
}

/// A vertex `RUN` with a parameter, a draw and an edge that cancels.
fn drawing_vertex(alloc: Global, limit: i64) -> Result<Vertex, NoMemory> {
    let name = name(alloc, b"RUN")?;
    let params = List::of_one(alloc, 0)?;
    let changes = HeldValue::of(List::of_one(alloc, draw())?);
    let edges = List::of_one(alloc, cancelling(alloc, limit)?)?;
    Ok(Vertex {
        name,
        params,
        changes: changes.free(),
        edges,
    })
}

/// The variable `N`.
fn variable(alloc: Global) -> Result<Var, NoMemory> {
    Ok(Var {
        name: name(alloc, b"N")?,
        size: 0,
        kind: Kind::Range,
        lo: -9,
        hi: 9,
        clip: true,
        initial: 1,
    })
}

/// The table `T` of one row.
fn table(alloc: Global) -> Result<Table, NoMemory> {
    let row = Row {
        value: 4,
        weight: 2,
    };
    let name = name(alloc, b"T")?;
    Table::of_rows(alloc, name, List::of_one(alloc, row)?)
}

/// A model of one variable, one table and one vertex.
pub fn drawing_model(alloc: Global, limit: i64) -> Result<Model, NoMemory> {
    let name = name(alloc, b"DRAWING")?;
    let vars = HeldValue::of(List::of_one(alloc, variable(alloc)?)?);
    let tables = HeldValue::of(List::of_one(alloc, table(alloc)?)?);
    let watch = List::of_one(alloc, Watch::Event { vertex: 0 })?;
    let vertices = List::of_one(alloc, drawing_vertex(alloc, limit)?)?;
    Ok(Model {
        name,
        vars: vars.free(),
        tables: tables.free(),
        watch,
        vertices,
    })
}

/// Whether an expression is the one of this limit.
fn expr_has_limit(alloc: Global, expr: &Expr, limit: i64) -> Result<bool, NoMemory> {
    Ok(same_expr(expr, &limited(alloc, limit)?))
}

/// A copy of the expression of this limit.
fn copied_expr(alloc: Global, limit: i64) -> Result<Expr, NoMemory> {
    copy_expr(alloc, &limited(alloc, limit)?)
}

#[test]
fn an_expression_is_copied(rt: HostRuntime) -> Result<(), Fail> {
    let copy = copied_expr(rt.alloc(), 5)?;
    let same = expr_has_limit(rt.alloc(), &copy, 5);
    let other = expr_has_limit(rt.alloc(), &copy, 6);
    forget(copy);
    assert!(rt; same?);
    assert!(rt; !other?);
    Ok(())
}

/// Whether a model is the one of this limit.
fn has_limit(alloc: Global, model: &Model, limit: i64) -> Result<bool, NoMemory> {
    Ok(same_model(model, &drawing_model(alloc, limit)?))
}

/// A copy of the model of this limit.
fn copied_model(alloc: Global, limit: i64) -> Result<Model, NoMemory> {
    copy_model(alloc, &drawing_model(alloc, limit)?)
}

#[test]
fn a_model_is_copied(rt: HostRuntime) -> Result<(), Fail> {
    let copy = copied_model(rt.alloc(), 5)?;
    let same = has_limit(rt.alloc(), &copy, 5);
    let other = has_limit(rt.alloc(), &copy, 6);
    forget(copy);
    assert!(rt; same?);
    assert!(rt; !other?);
    Ok(())
}
