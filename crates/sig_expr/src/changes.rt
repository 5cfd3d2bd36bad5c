//! The changes of an event: what they do to the state, and which words they take.

ghost use Rattle.std.specs.Prelude.{◌≡◌, ℕ, [], ◌∷◌, ◌+◌, ◌<◌, ◌≤◌, ◌^◌, All, IsTrue, length, map};
ghost use Rattle.sig_base.specs.declared.limits.TheConstants.{CHANGES_MAX, STOP_MAX};
ghost use Rattle.sig_base.specs.Stream.{word};
ghost use Rattle.model_core.specs.EventGraph.{Draw};
ghost use Rattle.model_core.specs.Run.State.{in_range};
ghost use Rattle.model_core.specs.Run.Value.{in_turn};
ghost use Rattle.model_core.specs.Run.Changes.{set_all, drawn_value, make_change, taken_from, one_more};
ghost use Rattle.model_core.specs.Run.LeftByFaults.{left_by_set, left_by_draw, left_by_change, left_by_changes};
ghost use Rattle.model_core.specs.Code.Views.{graph_of, expression_of, location_of, choice_of, change_of};
ghost use Rattle.sig_expr.specs.Outcomes.{with_ok};
ghost use Rattle.sig_expr.specs.Possible.{PossibleExpression, PossibleLocation, PossibleSet, PossibleSource, PossibleDraw, PossibleChange};

use crate::evaluation::value;
use crate::lists::{place, put_places, put_values};
use crate::state::State;
use crate::storing::{store_all, store_at};
use arrayvec::ArrayVec;
use model_core::{Change, Choice, Expr, Model, Target};
use random_streams::Streams;
use sig_base::{FaultKind, List, TARGETS_MAX};

/// Makes a `set` of one target.
fn set_one(
    model: &Model,
    target: &Target,
    right: &Expr,
    state: &mut State,
    clk: u64,
) -> Result<(), FaultKind>
    requires location { PossibleLocation (graph_of model.now) (location_of target.now) }
    requires expression { PossibleExpression (graph_of model.now) (expression_of right.now) }
    requires inside { IsTrue (in_range (graph_of model.now) state.old) }
    requires soon { clk ≤ STOP_MAX }
    ensures sets { with_ok state.new result
        ≡ set_all (graph_of model.now) clk (location_of target.now ∷ [])
        (expression_of right.now ∷ []) state.old }
    ensures left { state.new
        ≡ left_by_set (graph_of model.now) clk (location_of target.now ∷ [])
        (expression_of right.now ∷ []) state.old }
    ensures stays_in_range { IsTrue (in_range (graph_of model.now) state.new) }
{
    let value = value(model, right, state, clk)?;
    let place = place(model, target, state, clk)?;
    store_at(model, place, value, state)
}

/// Makes a `set` of two targets.
fn set_two(
    model: &Model,
    first: &Target,
    second: &Target,
    left: &Expr,
    right: &Expr,
    state: &mut State,
    clk: u64,
) -> Result<(), FaultKind>
    requires first { PossibleLocation (graph_of model.now) (location_of first.now) }
    requires second { PossibleLocation (graph_of model.now) (location_of second.now) }
    requires left { PossibleExpression (graph_of model.now) (expression_of left.now) }
    requires right { PossibleExpression (graph_of model.now) (expression_of right.now) }
    requires inside { IsTrue (in_range (graph_of model.now) state.old) }
    requires soon { clk ≤ STOP_MAX }
    ensures sets { with_ok state.new result
        ≡ set_all (graph_of model.now) clk (location_of first.now ∷ location_of second.now ∷ [])
        (expression_of left.now ∷ expression_of right.now ∷ []) state.old }
    ensures left { state.new
        ≡ left_by_set (graph_of model.now) clk
        (location_of first.now ∷ location_of second.now ∷ [])
        (expression_of left.now ∷ expression_of right.now ∷ []) state.old }
    ensures stays_in_range { IsTrue (in_range (graph_of model.now) state.new) }
{
    let one = value(model, left, state, clk)?;
    let other = value(model, right, state, clk)?;
    let here = place(model, first, state, clk)?;
    let there = place(model, second, state, clk)?;
    store_at(model, here, one, state)?;
    store_at(model, there, other, state)
}

/// Makes a `set` of several targets: all right sides, then all indexes, then the stores.
fn set_several(
    model: &Model,
    targets: &[Target],
    rights: &[Expr],
    state: &mut State,
    clk: u64,
) -> Result<(), FaultKind>
    requires possible { PossibleSet (graph_of model.now) (map location_of targets.now)
        (map expression_of rights.now) }
    requires inside { IsTrue (in_range (graph_of model.now) state.old) }
    requires soon { clk ≤ STOP_MAX }
    ensures sets { with_ok state.new result
        ≡ set_all (graph_of model.now) clk (map location_of targets.now)
        (map expression_of rights.now) state.old }
    ensures left { state.new
        ≡ left_by_set (graph_of model.now) clk (map location_of targets.now)
        (map expression_of rights.now) state.old }
    ensures stays_in_range { IsTrue (in_range (graph_of model.now) state.new) }
{
    let mut values: ArrayVec<i64, TARGETS_MAX> = ArrayVec::new();
    put_values(model, rights, state, clk, &mut values)?;
    let mut places = ArrayVec::new();
    put_places(model, targets, state, clk, &mut places)?;
    store_all(model, places.as_slice(), values.as_slice(), state)
}

/// Makes a `set`. Most have one target or two, and need no lists of values and places.
fn set(
    model: &Model,
    targets: &[Target],
    rights: &[Expr],
    state: &mut State,
    clk: u64,
) -> Result<(), FaultKind>
    requires possible { PossibleSet (graph_of model.now) (map location_of targets.now)
        (map expression_of rights.now) }
    requires inside { IsTrue (in_range (graph_of model.now) state.old) }
    requires soon { clk ≤ STOP_MAX }
    ensures sets { with_ok state.new result
        ≡ set_all (graph_of model.now) clk (map location_of targets.now)
        (map expression_of rights.now) state.old }
    ensures left { state.new
        ≡ left_by_set (graph_of model.now) clk (map location_of targets.now)
        (map expression_of rights.now) state.old }
    ensures stays_in_range { IsTrue (in_range (graph_of model.now) state.new) }
{
    if let [target] = targets {
        if let [right] = rights {
            return set_one(model, target, right, state, clk);
        }
    }
    if let [first, second] = targets {
        if let [left, right] = rights {
            return set_two(model, first, second, left, right, state, clk);
        }
    }
    set_several(model, targets, rights, state, clk)
}

/// Draws a value by the next word of a stream, 0 to 63.
#[inline(always)]
pub fn pick(model: &Model, stream: u8, choice: Choice, streams: &mut Streams) -> i64
    requires possible { PossibleSource (graph_of model.now) stream (choice_of choice) }
    requires countable { taken_from streams.old.taken stream < 2 ^ 62 }
    ensures value { result
        ≡ drawn_value (graph_of model.now) (choice_of choice)
        (word streams.old.seed stream (taken_from streams.old.taken stream)) }
    ensures seed { streams.new.seed ≡ streams.old.seed }
    ensures taken { streams.new.taken ≡ one_more streams.old.taken stream }
{
    match choice {
        Choice::Uniform { lo, hi } => streams.uniform(stream, lo, hi),
        Choice::ByTable { table } => streams.table(stream, &model.tables.as_slice()[table]),
    }
}

/// Makes a `draw`: the target's index, then a word, then the store.
fn draw(
    model: &Model,
    target: &Target,
    stream: u8,
    choice: Choice,
    state: &mut State,
    streams: &mut Streams,
    clk: u64,
) -> Result<(), FaultKind>
    requires possible { PossibleDraw (graph_of model.now) (location_of target.now) stream
        (choice_of choice) }
    requires inside { IsTrue (in_range (graph_of model.now) state.old) }
    requires countable { taken_from streams.old.taken stream < 2 ^ 62 }
    requires soon { clk ≤ STOP_MAX }
    ensures makes { with_ok (record { state = state.new; taken = streams.new.taken }) result
        ≡ make_change (graph_of model.now) streams.old.seed clk
        (Draw (location_of target.now) stream (choice_of choice))
        (record { state = state.old; taken = streams.old.taken }) }
    ensures left { record { state = state.new; taken = streams.new.taken }
        ≡ left_by_draw (graph_of model.now) streams.old.seed clk (location_of target.now) stream
        (choice_of choice) (record { state = state.old; taken = streams.old.taken }) }
    ensures stays_in_range { IsTrue (in_range (graph_of model.now) state.new) }
    ensures seed { streams.new.seed ≡ streams.old.seed }
    ensures counted { (stream : ℕ)
        → taken_from streams.new.taken stream ≤ taken_from streams.old.taken stream + 1 }
{
    let place = place(model, target, state, clk)?;
    let value = pick(model, stream, choice, streams);
    store_at(model, place, value, state)
}

/// Makes one change.
fn make(
    model: &Model,
    change: &Change,
    state: &mut State,
    streams: &mut Streams,
    clk: u64,
) -> Result<(), FaultKind>
    requires possible { PossibleChange (graph_of model.now) (change_of change.now) }
    requires inside { IsTrue (in_range (graph_of model.now) state.old) }
    requires countable { (stream : ℕ) → taken_from streams.old.taken stream < 2 ^ 62 }
    requires soon { clk ≤ STOP_MAX }
    ensures makes { with_ok (record { state = state.new; taken = streams.new.taken }) result
        ≡ make_change (graph_of model.now) streams.old.seed clk (change_of change.now)
        (record { state = state.old; taken = streams.old.taken }) }
    ensures left { record { state = state.new; taken = streams.new.taken }
        ≡ left_by_change (graph_of model.now) streams.old.seed clk (change_of change.now)
        (record { state = state.old; taken = streams.old.taken }) }
    ensures stays_in_range { IsTrue (in_range (graph_of model.now) state.new) }
    ensures seed { streams.new.seed ≡ streams.old.seed }
    ensures counted { (stream : ℕ)
        → taken_from streams.new.taken stream ≤ taken_from streams.old.taken stream + 1 }
{
    match change {
        Change::Set { targets, values } => set(
            model,
            targets.as_slice(),
            values.as_slice(),
            state,
            clk,
        ),
        Change::Draw {
            target,
            stream,
            choice,
        } => draw(model, target, *stream, *choice, state, streams, clk),
    }
}

/// Makes changes in order, at a clock's time in ticks, up to the first that faults. The state then holds the stores made
/// before the fault, and the streams have given the words taken up to it, that of a draw whose store faults among them.
pub fn apply(
    model: &Model,
    changes: &List<Change>,
    state: &mut State,
    streams: &mut Streams,
    clk: u64,
) -> Result<(), FaultKind>
    requires few_changes { length changes.now ≤ CHANGES_MAX }
    requires possible { All (PossibleChange (graph_of model.now)) (map change_of changes.now) }
    requires inside { IsTrue (in_range (graph_of model.now) state.old) }
    requires countable { (stream : ℕ) → taken_from streams.old.taken stream < 2 ^ 61 }
    requires soon { clk ≤ STOP_MAX }
    ensures makes { with_ok (record { state = state.new; taken = streams.new.taken }) result
        ≡ in_turn (make_change (graph_of model.now) streams.old.seed clk)
        (map change_of changes.now) (record { state = state.old; taken = streams.old.taken }) }
    ensures left { record { state = state.new; taken = streams.new.taken }
        ≡ left_by_changes (graph_of model.now) streams.old.seed clk (map change_of changes.now)
        (record { state = state.old; taken = streams.old.taken }) }
    ensures stays_in_range { IsTrue (in_range (graph_of model.now) state.new) }
    ensures seed { streams.new.seed ≡ streams.old.seed }
    ensures counted { (stream : ℕ)
        → taken_from streams.new.taken stream
        ≤ taken_from streams.old.taken stream + length changes.now }
{
    for change in changes.as_slice() {
        make(model, change, state, streams, clk)?;
    }
    Ok(())
}
