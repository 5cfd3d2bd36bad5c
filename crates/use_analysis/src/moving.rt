//! Numbers of variables that move as a part of a model is walked: each once, however often its variable occurs in the part.
//! A stamp beside each number shows whether this part moved it already. So no memory is taken, and each node is visited once.
#![tactic(auto, using(crate::proofs::MovedNumbers::moved_together))]

ghost use Rattle.std.specs.Prelude.{◌≡◌, [], map};
ghost use Rattle.std.specs.List.{flat_map};
ghost use Rattle.std.specs.Option.{option_map_or};
ghost use Rattle.model_core.specs.EventGraph.{Location, delay_given};
ghost use Rattle.model_core.specs.Rules.PlacedEdges.{with_place};
ghost use Rattle.model_core.specs.Rules.Uses.{variables_in, location_reads, change_reads, change_writes, delay_reads, edge_reads};
ghost use Rattle.model_core.specs.Code.Views.{expression_of, location_of, change_of, edge_delay_of, edge_kind_of, edge_of};
ghost use Rattle.use_analysis.specs.Inner.Moving.{shifted, moved_number, moved_at};

use model_core::{Change, Delay, Edge, EdgeForm, Expr, Target};

/// A number, and the stamp of the last part that moved it.
#[derive(Clone, Copy, Drop)]
pub(crate) struct Stamped {
    pub number: u64,
    pub stamp: u64,
}

/// Whether numbers go up or down by one.
#[derive(Clone, Copy)]
pub(crate) enum Way {
    Up,
    Down,
}

/// The part that is walked: how it moves numbers, and its stamp.
#[derive(Clone, Copy)]
pub(crate) struct Part {
    pub way: Way,
    pub stamp: u64,
}

fn shifted(way: Way, number: u64) -> u64
    ensures { result ≡ shifted way number }
{
    match way {
        Way::Up => number.saturating_add(1),
        Way::Down => number.saturating_sub(1),
    }
}

/// Moves a number, unless the part moved it already.
fn move_one(number: &mut Stamped, part: Part)
    ensures { number.new ≡ moved_number part number.old }
{
    if number.stamp != part.stamp {
        number.number = shifted(part.way, number.number);
        number.stamp = part.stamp;
    }
}

/// Moves the number of this variable, if there is one.
fn move_at(numbers: &mut [Stamped], part: Part, var: usize)
    ensures { numbers.new ≡ with_place (moved_number part) var numbers.old }
{
    if var < numbers.len() {
        move_one(&mut numbers[var], part);
    }
}

/// Moves the numbers of the variables that occur in an expression.
fn move_in(numbers: &mut [Stamped], part: Part, expr: &Expr)
    ensures { numbers.new ≡ moved_at part (variables_in (expression_of expr.now)) numbers.old }
{
    match expr {
        Expr::Int(_) | Expr::Truth(_) | Expr::Clk => {}
        Expr::Scalar(v) => move_at(numbers, part, *v),
        Expr::Cell(v, index) => {
            move_at(numbers, part, *v);
            move_in(numbers, part, index);
        }
        Expr::Neg(a) | Expr::Not(a) => move_in(numbers, part, a),
        Expr::Binary(_, left, right) => {
            move_in(numbers, part, left);
            move_in(numbers, part, right);
        }
        Expr::If(test, yes, no) => {
            move_in(numbers, part, test);
            move_in(numbers, part, yes);
            move_in(numbers, part, no);
        }
    }
}

/// Moves the numbers of the variables that occur in expressions.
fn move_in_all(numbers: &mut [Stamped], part: Part, exprs: &[Expr])
    ensures { numbers.new
        ≡ moved_at part (flat_map variables_in (map expression_of exprs.now)) numbers.old }
{
    for expr in exprs {
        move_in(numbers, part, expr);
    }
}

/// Moves the numbers of the variables that occur in the index of a target.
fn move_in_index(numbers: &mut [Stamped], part: Part, target: &Target)
    ensures { numbers.new ≡ moved_at part (location_reads (location_of target.now)) numbers.old }
{
    if let Some(index) = &target.index {
        move_in(numbers, part, index);
    }
}

/// Moves the numbers of the variables that occur in the indexes of targets.
fn move_in_indexes(numbers: &mut [Stamped], part: Part, targets: &[Target])
    ensures { numbers.new
        ≡ moved_at part (flat_map location_reads (map location_of targets.now)) numbers.old }
{
    for target in targets {
        move_in_index(numbers, part, target);
    }
}

/// Moves the numbers of what a change reads.
pub(crate) fn move_read_by_change(numbers: &mut [Stamped], part: Part, change: &Change)
    ensures { numbers.new ≡ moved_at part (change_reads (change_of change.now)) numbers.old }
{
    match change {
        Change::Set { targets, values } => {
            move_in_indexes(numbers, part, targets.as_slice());
            move_in_all(numbers, part, values.as_slice());
        }
        Change::Draw {
            target,
            stream: _,
            choice: _,
        } => move_in_index(numbers, part, target),
    }
}

/// Moves the numbers of the variables that targets name.
fn move_targets(numbers: &mut [Stamped], part: Part, targets: &[Target])
    ensures { numbers.new
        ≡ moved_at part
        (map (λ (l : Location). l.variable) (map location_of targets.now)) numbers.old }
{
    for target in targets {
        move_at(numbers, part, target.var);
    }
}

/// Moves the numbers of what a change sets.
pub(crate) fn move_set_by_change(numbers: &mut [Stamped], part: Part, change: &Change)
    ensures { numbers.new ≡ moved_at part (change_writes (change_of change.now)) numbers.old }
{
    match change {
        Change::Set { targets, values: _ } => move_targets(numbers, part, targets.as_slice()),
        Change::Draw {
            target,
            stream: _,
            choice: _,
        } => move_at(numbers, part, target.var),
    }
}

/// Moves the numbers of what a delay reads.
fn move_in_delay(numbers: &mut [Stamped], part: Part, delay: &Delay)
    ensures { numbers.new ≡ moved_at part (delay_reads (edge_delay_of delay.now)) numbers.old }
{
    match delay {
        Delay::Fixed(expr) => move_in(numbers, part, expr),
        Delay::Drawn {
            stream: _,
            choice: _,
        } => {}
    }
}

/// Moves the numbers of what the delay of an edge of this form reads.
fn move_in_timing(numbers: &mut [Stamped], part: Part, form: &EdgeForm)
    ensures { numbers.new
        ≡ moved_at part
        (option_map_or delay_reads (delay_given (edge_kind_of form.now)) []) numbers.old }
{
    match form {
        EdgeForm::Schedule { delay, priority: _ } => move_in_delay(numbers, part, delay),
        EdgeForm::Urgent | EdgeForm::CancelNext | EdgeForm::CancelEqual | EdgeForm::CancelAll => {}
    }
}

/// Moves the numbers of what an edge reads.
pub(crate) fn move_read_by_edge(numbers: &mut [Stamped], part: Part, edge: &Edge)
    ensures { numbers.new ≡ moved_at part (edge_reads (edge_of edge.now)) numbers.old }
{
    move_in(numbers, part, &edge.condition);
    move_in_timing(numbers, part, &edge.form);
    move_in_all(numbers, part, edge.values.as_slice());
}
