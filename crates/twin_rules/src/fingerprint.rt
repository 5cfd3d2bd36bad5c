//! Fingerprints of what vertices do: vertices that do the same have the same numbers, so most pairs that don't are found
//! different at once. The targets of edges are left out.

ghost use Rattle.std.specs.Prelude.{◌≡◌, ℕ, map};
ghost use Rattle.std.specs.Option.{option_map};
ghost use Rattle.model_core.specs.EventGraph.{EventEdge, Expression, Location, StateChange};
ghost use Rattle.model_core.specs.Code.Views.{operator_of, expression_of, location_of, choice_of, change_of, edge_delay_of, edge_kind_of, edge_of, vertex_of};
ghost use Rattle.twin_rules.specs.Inner.Fingerprints.{mixed, half, list_fingerprint, truth_fingerprint, operator_fingerprint, expression_fingerprint, index_fingerprint, location_fingerprint, choice_fingerprint, change_fingerprint, delay_fingerprint, kind_fingerprint, edge_fingerprint, vertex_fingerprint};

use model_core::{Change, Choice, Delay, Edge, EdgeForm, Expr, Op, Target, Vertex};

/// The factor of a linear congruential generator that meets each word once (Knuth).
const FACTOR: u64 = 6_364_136_223_846_793_005;

/// A print with one more word in it.
pub(crate) fn mixed(print: u64, word: u64) -> u64
    ensures { result ≡ mixed print word }
{
    print.wrapping_mul(FACTOR).wrapping_add(word)
}

/// The upper half of a print, which depends on all words in it.
pub(crate) fn half(print: u64) -> u32
    ensures { result ≡ half print }
{
    (mixed(print, 0) >> 32) as u32
}

/// Parts of which a list has a fingerprint.
trait HasFingerprint {
    // The plain type of the parts.
    ghost Plain: { Type 0 };

    // The plain value of a part.
    ghost plain: { Self → Plain };

    // Its print.
    ghost print: { Plain → ℕ };

    /// The print of a part.
    fn print(&self) -> u64
        ensures { result ≡ print (plain self.now) };
}

/// The print of a list.
fn list_fingerprint<T: HasFingerprint>(parts: &[T]) -> u64
    ensures { result ≡ list_fingerprint (map T.print (map T.plain parts.now)) }
{
    let mut print = 0;
    for part in parts {
        print = mixed(print, part.print());
    }
    print
}

/// The print of a truth value.
fn truth_fingerprint(truth: bool) -> u64
    ensures { result ≡ truth_fingerprint truth }
{
    if truth { 1 } else { 0 }
}

/// The print of an operator.
fn operator_fingerprint(op: Op) -> u64
    ensures { result ≡ operator_fingerprint (operator_of op) }
{
    match op {
        Op::Add => 11,
        Op::Sub => 12,
        Op::Mul => 13,
        Op::Div => 14,
        Op::Rem => 15,
        Op::Min => 16,
        Op::Max => 17,
        Op::Eq => 18,
        Op::Ne => 19,
        Op::Lt => 20,
        Op::Le => 21,
        Op::Gt => 22,
        Op::Ge => 23,
        Op::And => 24,
        Op::Or => 25,
    }
}

/// The print of an expression.
fn expr_fingerprint(expr: &Expr) -> u64
    ensures { result ≡ expression_fingerprint (expression_of expr.now) }
{
    match expr {
        Expr::Int(number) => mixed(number.unsigned_abs(), 1),
        Expr::Truth(truth) => mixed(truth_fingerprint(*truth), 2),
        Expr::Clk => 3,
        Expr::Scalar(var) => mixed(*var as u64, 4),
        Expr::Cell(var, index) => mixed(mixed(expr_fingerprint(index), *var as u64), 5),
        Expr::Neg(of) => mixed(expr_fingerprint(of), 6),
        Expr::Not(of) => mixed(expr_fingerprint(of), 7),
        Expr::Binary(op, left, right) => mixed(
            mixed(expr_fingerprint(left), expr_fingerprint(right)),
            operator_fingerprint(*op),
        ),
        Expr::If(test, yes, no) => mixed(
            mixed(
                mixed(expr_fingerprint(test), expr_fingerprint(yes)),
                expr_fingerprint(no),
            ),
            8,
        ),
    }
}

impl HasFingerprint for Expr {
    ghost Plain = { Expression };

    ghost plain = { expression_of };

    ghost print = { expression_fingerprint };

    fn print(&self) -> u64
        ensures { result ≡ expression_fingerprint (expression_of self.now) }
    {
        expr_fingerprint(self)
    }
}

impl HasFingerprint for usize {
    ghost Plain = { ℕ };

    ghost plain = { λ n. n };

    ghost print = { λ n. n };

    fn print(&self) -> u64
        ensures { result ≡ self.now }
    {
        *self as u64
    }
}

/// The print of an index, if there is one.
fn index_fingerprint(index: &Option<Expr>) -> u64
    ensures { result ≡ index_fingerprint (option_map expression_of index.now) }
{
    match index {
        Some(index) => mixed(expr_fingerprint(index), 1),
        None => 0,
    }
}

/// The print of what takes a value.
fn target_print(target: &Target) -> u64
    ensures { result ≡ location_fingerprint (location_of target.now) }
{
    mixed(index_fingerprint(&target.index), target.var as u64)
}

impl HasFingerprint for Target {
    ghost Plain = { Location };

    ghost plain = { location_of };

    ghost print = { location_fingerprint };

    fn print(&self) -> u64
        ensures { result ≡ location_fingerprint (location_of self.now) }
    {
        target_print(self)
    }
}

/// The print of what a draw takes its value from.
fn choice_fingerprint(choice: Choice) -> u64
    ensures { result ≡ choice_fingerprint (choice_of choice) }
{
    match choice {
        Choice::Uniform { lo, hi } => mixed(mixed(lo.unsigned_abs(), hi.unsigned_abs()), 1),
        Choice::ByTable { table } => mixed(table as u64, 2),
    }
}

/// The print of a change.
fn change_fingerprint(change: &Change) -> u64
    ensures { result ≡ change_fingerprint (change_of change.now) }
{
    match change {
        Change::Set { targets, values } => mixed(
            list_fingerprint(targets.as_slice()),
            list_fingerprint(values.as_slice()),
        ),
        Change::Draw {
            target,
            stream,
            choice,
        } => mixed(
            mixed(target_print(target), *stream as u64),
            choice_fingerprint(*choice),
        ),
    }
}

impl HasFingerprint for Change {
    ghost Plain = { StateChange };

    ghost plain = { change_of };

    ghost print = { change_fingerprint };

    fn print(&self) -> u64
        ensures { result ≡ change_fingerprint (change_of self.now) }
    {
        change_fingerprint(self)
    }
}

/// The print of a delay.
fn delay_fingerprint(delay: &Delay) -> u64
    ensures { result ≡ delay_fingerprint (edge_delay_of delay.now) }
{
    match delay {
        Delay::Fixed(expr) => mixed(expr_fingerprint(expr), 1),
        Delay::Drawn { stream, choice } => mixed(choice_fingerprint(*choice), *stream as u64),
    }
}

/// The print of what an edge does.
fn form_print(form: &EdgeForm) -> u64
    ensures { result ≡ kind_fingerprint (edge_kind_of form.now) }
{
    match form {
        EdgeForm::Schedule { delay, priority } => mixed(delay_fingerprint(delay), *priority as u64),
        EdgeForm::Urgent => 1,
        EdgeForm::CancelNext => 2,
        EdgeForm::CancelEqual => 3,
        EdgeForm::CancelAll => 4,
    }
}

/// The print of an edge, whose target is left out.
fn edge_fingerprint(edge: &Edge) -> u64
    ensures { result ≡ edge_fingerprint (edge_of edge.now) }
{
    mixed(
        mixed(form_print(&edge.form), expr_fingerprint(&edge.condition)),
        list_fingerprint(edge.values.as_slice()),
    )
}

impl HasFingerprint for Edge {
    ghost Plain = { EventEdge };

    ghost plain = { edge_of };

    ghost print = { edge_fingerprint };

    fn print(&self) -> u64
        ensures { result ≡ edge_fingerprint (edge_of self.now) }
    {
        edge_fingerprint(self)
    }
}

/// The print of what a vertex does: of its parameters, changes and edges.
pub(crate) fn vertex_fingerprint(vertex: &Vertex) -> u64
    ensures { result ≡ vertex_fingerprint (vertex_of vertex.now) }
{
    mixed(
        mixed(
            list_fingerprint(vertex.params.as_slice()),
            list_fingerprint(vertex.changes.as_slice()),
        ),
        list_fingerprint(vertex.edges.as_slice()),
    )
}
