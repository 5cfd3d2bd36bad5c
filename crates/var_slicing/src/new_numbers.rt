//! New numbers for the variables of expressions, of targets and of what an edge does. All is written in place.

ghost use Rattle.std.specs.Prelude.{◌≡◌, map};
ghost use Rattle.std.specs.Option.{option_map};
ghost use Rattle.model_core.specs.Rules.MarkedPlaces.{rank};
ghost use Rattle.model_core.specs.Rules.Slice.{expression_renumbered, location_renumbered, delay_renumbered, sliced_kind, sliced_watched};
ghost use Rattle.model_core.specs.Code.Views.{expression_of, location_of, edge_delay_of, edge_kind_of, watched_of};

use marked_walks::Staying;
use model_core::{Delay, EdgeForm, Expr, Target, Watch};

/// Gives the variables of an expression their new numbers.
pub(crate) fn renumber_expr(staying: &Staying, expr: &mut Expr)
    ensures { expression_of expr.new
        ≡ expression_renumbered (rank staying.now) (expression_of expr.old) }
{
    match expr {
        Expr::Int(_) | Expr::Truth(_) | Expr::Clk => {}
        Expr::Scalar(var) => *var = staying.number(*var),
        Expr::Cell(var, index) => {
            *var = staying.number(*var);
            renumber_expr(staying, index);
        }
        Expr::Neg(number) => renumber_expr(staying, number),
        Expr::Not(truth) => renumber_expr(staying, truth),
        Expr::Binary(_, left, right) => {
            renumber_expr(staying, left);
            renumber_expr(staying, right);
        }
        Expr::If(test, yes, no) => {
            renumber_expr(staying, test);
            renumber_expr(staying, yes);
            renumber_expr(staying, no);
        }
    }
}

/// Gives the variables of an index, where there is one, their new numbers.
fn renumber_index(staying: &Staying, index: &mut Option<Expr>)
    ensures { option_map expression_of index.new
        ≡ option_map (expression_renumbered (rank staying.now))
        (option_map expression_of index.old) }
{
    if let Some(index) = index {
        renumber_expr(staying, index);
    }
}

/// Gives a target and the variables of its index their new numbers.
pub(crate) fn renumber_target(staying: &Staying, target: &mut Target)
    ensures { location_of target.new
        ≡ location_renumbered (rank staying.now) (location_of target.old) }
{
    target.var = staying.number(target.var);
    renumber_index(staying, &mut target.index);
}

/// Gives the variables of a delay their new numbers.
fn renumber_delay(staying: &Staying, delay: &mut Delay)
    ensures { edge_delay_of delay.new
        ≡ delay_renumbered (rank staying.now) (edge_delay_of delay.old) }
{
    match delay {
        Delay::Fixed(expr) => renumber_expr(staying, expr),
        Delay::Drawn {
            stream: _,
            choice: _,
        } => {}
    }
}

/// Gives the variables of what an edge does their new numbers.
pub(crate) fn renumber_form(staying: &Staying, form: &mut EdgeForm)
    ensures { edge_kind_of form.new ≡ sliced_kind staying.now (edge_kind_of form.old) }
{
    match form {
        EdgeForm::Schedule { delay, priority: _ } => renumber_delay(staying, delay),
        EdgeForm::Urgent | EdgeForm::CancelNext | EdgeForm::CancelEqual | EdgeForm::CancelAll => {}
    }
}

/// A watch item with the new number of its variable.
fn item_left(staying: &Staying, watched: Watch) -> Watch
    ensures { watched_of result ≡ sliced_watched staying.now (watched_of watched) }
{
    match watched {
        Watch::Variable { var } => Watch::Variable {
            var: staying.number(var),
        },
        Watch::Event { vertex } => Watch::Event { vertex },
    }
}

/// Gives the watched variables their new numbers.
pub(crate) fn renumber_watched_vars(staying: &Staying, watch: &mut Vec<Watch>)
    ensures { map watched_of watch.new.items
        ≡ map (sliced_watched staying.now) (map watched_of watch.old.items) }
{
    for watched in watch.iter_mut() {
        *watched = item_left(staying, *watched);
    }
}
