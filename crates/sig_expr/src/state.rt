//! The state of a run.

ghost use Rattle.std.specs.Prelude.{◌≡◌, ◌<◌, ◌≤◌, ◌+◌, ◌++◌, length, replicate, IfOk, OnOk};
ghost use Rattle.model_core.specs.Run.State.{cells_of, cell_at, with_cell, cell_count, initial_state};
ghost use Rattle.model_core.specs.Saved.Cells.{cells_declared};
ghost use Rattle.model_core.specs.Code.Views.{graph_of, variable_of, watched_of};
ghost use Rattle.sig_expr.specs.WatchedValues.{values_watched};
ghost use Rattle.sig_expr.specs.Inner.Pieces.{piece};

use model_core::{Model as Graph, Var, Watch};
use sig_base::NoMemory;
use std::alloc::Global;
use std::marker::Model;

/// The cells of a variable: the place of the first, and how many there are.
#[derive(Clone, Copy)]
struct Span {
    from: usize,
    size: usize,
}

/// The values of all variables of a model, in one list of cells. Contracts see a list of values for each variable, a
/// scalar's a list of one.
#[derive(Drop)]
pub struct State {
    cells: Vec<i64>,
    spans: Vec<Span>,
}

impl Model for State {
    ghost use Rattle.std.specs.Prelude.{List, ℤ, length};
    ghost use Rattle.sig_expr.specs.Inner.Pieces.{pieces, Laid};

    ghost Value = { List (List ℤ) };

    ghost view = { λ s. pieces s.cells.items s.spans.items };

    ghost invariant = { λ s. Laid 0 s.spans.items (length s.cells.items) };
}

/// The cells of a span.
fn part(cells: &[i64], span: Span) -> &[i64]
    requires { span.from + span.size ≤ length cells.now }
    ensures { result.now ≡ piece cells.now span }
{
    &cells[span.from..span.from + span.size]
}

/// How many cells a variable has.
fn cell_count(var: &Var) -> usize
    ensures { result ≡ cell_count (variable_of var.now) }
{
    var.size.max(1)
}

/// How many cells the variable at a place has: none if there is no such variable.
pub fn cells_declared(model: &Graph, var: usize) -> usize
    ensures { result ≡ cells_declared (graph_of model.now) var }
{
    match model.vars.as_slice().get(var) {
        Some(found) => cell_count(found),
        None => 0,
    }
}

/// Adds so many cells that hold `value`.
fn add_cells(cells: &mut Vec<i64>, count: usize, value: i64) -> Result<(), NoMemory>
    ensures { OnOk result (cells.new.items ≡ cells.old.items ++ replicate count value) }
{
    for _ in 0..count {
        cells.push(value)?;
    }
    Ok(())
}

impl State {
    /// The initial values of a model.
    pub fn begin(alloc: Global, model: &Graph) -> Result<State, NoMemory>
        ensures { IfOk result (λ state. state ≡ initial_state (graph_of model.now)) }
    {
        let vars = model.vars.as_slice();
        let mut spans = Vec::with_capacity(alloc, vars.len())?;
        let mut cells = Vec::with_capacity(alloc, vars.len())?;
        for var in vars {
            let span = Span {
                from: cells.len(),
                size: cell_count(var),
            };
            add_cells(&mut cells, span.size, var.initial)?;
            spans.push(span)?;
        }
        Ok(State { cells, spans })
    }

    /// The value of a cell, of which index 0 is a scalar's.
    pub fn cell(&self, var: usize, index: usize) -> i64
        requires exists { var < length self.now }
        requires inside { index < length (cells_of self.now var) }
        ensures { result ≡ cell_at self.now (record { variable = var; index = index }) }
    {
        self.cells[self.spans[var].from + index]
    }

    /// The values of a variable's cells: none where there is no such variable.
    pub fn cells(&self, var: usize) -> &[i64]
        ensures { result.now ≡ cells_of self.now var }
    {
        match self.spans.as_slice().get(var) {
            Some(span) => part(self.cells.as_slice(), *span),
            None => &[],
        }
    }

    /// The values of a watched thing: those of a variable's cells, and none of a vertex.
    pub fn values_watched(&self, watch: Watch) -> &[i64]
        ensures { result.now ≡ values_watched self.now (watched_of watch) }
    {
        match watch {
            Watch::Variable { var } => self.cells(var),
            Watch::Event { vertex: _ } => &[],
        }
    }

    /// Puts a value into a cell.
    pub(crate) fn put(&mut self, var: usize, index: usize, value: i64)
        requires exists { var < length self.old }
        requires inside { index < length (cells_of self.old var) }
        ensures { self.new ≡ with_cell self.old (record { variable = var; index = index }) value }
    {
        let at = self.spans[var].from + index;
        self.cells[at] = value;
    }
}
