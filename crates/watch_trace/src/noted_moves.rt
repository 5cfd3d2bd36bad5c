//! The moves of a run, with their notes, up to what the run comes to. What takes the notes is any `NoteTaker`.

ghost use Rattle.std.specs.Prelude.{◌≡◌, ◌++◌, None, IfOk, OnErr, IsOk};
ghost use Rattle.model_core.specs.Run.Pending.{next_entry};
ghost use Rattle.model_core.specs.Run.History.{leave};
ghost use Rattle.model_core.specs.Code.Views.{graph_of};
ghost use Rattle.run_control.specs.Running.{next_shown};
ghost use Rattle.run_control.specs.Turns.{IsNextTurn, StepKeeps, HasRoom, IsDue};
ghost use Rattle.watch_trace.specs.Tracing.{moment_of};
ghost use Rattle.watch_trace.specs.Inner.CanFollow.{CanFollow};
ghost use Rattle.watch_trace.specs.Inner.MoveNotes.{left, completed_by};
ghost use Rattle.watch_trace.specs.Inner.MadeMoves.{OneMove, OutcomeAtRest, MakesMoves, RanToOutcome};

use crate::last_notes::{LastNotes, leaves_time};
use crate::note_taker::NoteTaker;
use crate::outcome::Outcome;
use event_list::{First, Pending};
use run_control::{Run, Turn};
use sig_base::{NoMemory, Steps};
use std::sync::ledger::Ledger;

/// The clock leaves its time: takes the note of the values that aren't those noted last. Not inlined, so that a step at
/// which the clock doesn't move has no part in it.
#[inline(never)]
fn note_leaving<'m, P: Pending, K, T: NoteTaker<K>>(
    last_notes: &mut LastNotes<'m>,
    run: &Run<'m, P>,
    taker: &mut T,
    onto: &mut K,
)
    requires one_model { last_notes.old.model ≡ run.now.model }
    ensures noted { last_notes.new
        ≡ record last_notes.old {
          noted =
              (leave (graph_of run.now.model) (moment_of run.now last_notes.old)).noted;
        } }
    ensures taken { T.takes (graph_of run.now.model)
        (leave (graph_of run.now.model) (moment_of run.now last_notes.old)).notes
        (taker.old, onto.old) (taker.new, onto.new) }
{
    if last_notes.remember(run) {
        taker.take_at(onto, last_notes.model(), run.state(), run.clock());
    }
}

/// Takes the note of the time that the clock leaves before the next turn, where one is due. `next` is the run's next
/// event.
fn leave<'m, P: Pending, K, T: NoteTaker<K>>(
    last_notes: &mut LastNotes<'m>,
    run: &Run<'m, P>,
    next: Option<First>,
    until: u64,
    taker: &mut T,
    onto: &mut K,
)
    requires one_model { last_notes.old.model ≡ run.now.model }
    requires is_next { next ≡ next_shown run.now None }
    ensures noted { last_notes.new
        ≡ record last_notes.old {
          noted =
              (left (graph_of run.now.model) until (moment_of run.now last_notes.old)
              (next_entry run.now.now.pending)).noted;
        } }
    ensures taken { T.takes (graph_of run.now.model)
        (left (graph_of run.now.model) until (moment_of run.now last_notes.old)
        (next_entry run.now.now.pending)).notes (taker.old, onto.old) (taker.new, onto.new) }
{
    if leaves_time(run, next, until) {
        note_leaving(last_notes, run, taker, onto);
    }
}

/// Takes the note of the event that a turn completed, where its vertex is watched.
fn complete<'m, P: Pending, K, T: NoteTaker<K>>(
    last_notes: &LastNotes<'m>,
    run: &Run<'m, P>,
    turn: &Turn,
    taker: &mut T,
    onto: &mut K,
)
    requires one_model { last_notes.now.model ≡ run.now.model }
    ensures { T.takes (graph_of run.now.model)
        (completed_by (graph_of run.now.model) turn.now run.now.now) (taker.old, onto.old)
        (taker.new, onto.new) }
{
    if let Some(place) = last_notes.completed(turn) {
        taker.take_on(onto, last_notes.model(), run.state(), run.clock(), place);
    }
}

/// Makes a run's next move, with its notes: one turn, the note before it and the one after it.
pub fn advance<'m, P: Pending, K, T: NoteTaker<K>, L: Ledger>(
    last_notes: &mut LastNotes<'m>,
    run: &mut Run<'m, P>,
    until: u64,
    taker: &mut T,
    onto: &mut K,
    steps: &mut Steps<L>,
) -> Result<Turn, NoMemory>
    requires can { CanFollow until 1 run.old last_notes.old }
    ensures noted { last_notes.new
        ≡ record last_notes.old {
          noted =
              (left (graph_of run.old.model) until (moment_of run.old last_notes.old)
              (next_entry run.old.now.pending)).noted;
        } }
    ensures turn { IfOk result
        (λ turn. IsNextTurn run.old until turn run.new (next_entry run.old.now.pending)) }
    ensures ok { IfOk result
        (λ turn. T.takes (graph_of run.old.model)
        ((left (graph_of run.old.model) until (moment_of run.old last_notes.old)
        (next_entry run.old.now.pending)).notes
        ++ completed_by (graph_of run.old.model) turn run.new.now) (taker.old, onto.old)
        (taker.new, onto.new)) }
    ensures run_unchanged { OnErr result (run.new ≡ run.old) }
    ensures err { OnErr result
        (T.takes (graph_of run.old.model)
        (left (graph_of run.old.model) until (moment_of run.old last_notes.old)
        (next_entry run.old.now.pending)).notes (taker.old, onto.old) (taker.new, onto.new)) }
    ensures enough { HasRoom run.old (next_entry run.old.now.pending) → IsOk result }
    ensures due { OnErr result (IsDue until (next_entry run.old.now.pending)) }
    ensures keeps { StepKeeps run.old run.new }
{
    let next = run.next();
    leave(last_notes, run, next, until, taker, onto);
    let turn = run.go_on(next, until, steps)?;
    complete(last_notes, run, &turn, taker, onto);
    Ok(turn)
}

/// Makes a run's next move, with its notes. Gives what it comes to, `None` where it goes on.
fn make_move<'m, P: Pending, K, T: NoteTaker<K>, L: Ledger>(
    last_notes: &mut LastNotes<'m>,
    run: &mut Run<'m, P>,
    until: u64,
    taker: &mut T,
    onto: &mut K,
    steps: &mut Steps<L>,
) -> Option<Outcome>
    requires can { CanFollow until 1 run.old last_notes.old }
    ensures moves { OneMove T.takes
        (λ p. T.failed p.0) until run.old last_notes.old result run.new last_notes.new
        (taker.old, onto.old) (taker.new, onto.new) }
    ensures keeps { StepKeeps run.old run.new }
    ensures traced { last_notes.new.model ≡ last_notes.old.model }
{
    match advance(last_notes, run, until, taker, onto, steps) {
        Err(NoMemory) => Some(Outcome::NoMemory),
        Ok(Turn::Ended { time }) => Some(Outcome::Ended { time }),
        Ok(Turn::Stopped) => Some(Outcome::Stopped),
        Ok(Turn::Faulted { time, kind }) => Some(Outcome::Faulted { time, kind }),
        Ok(Turn::Ran { vertex: _, time: _ }) => {
            if taker.has_failed() {
                Some(Outcome::WriteFault)
            } else {
                None
            }
        }
    }
}

/// Makes moves, at most so many. Gives what they come to, `None` where all go on.
fn make_moves<'m, P: Pending, K, T: NoteTaker<K>, L: Ledger>(
    last_notes: &mut LastNotes<'m>,
    run: &mut Run<'m, P>,
    until: u64,
    events: u64,
    taker: &mut T,
    onto: &mut K,
    steps: &mut Steps<L>,
) -> Option<Outcome>
    requires can { CanFollow until events run.old last_notes.old }
    ensures { MakesMoves T.takes
        (λ p. T.failed p.0) until events run.old last_notes.old result run.new last_notes.new
        (taker.old, onto.old) (taker.new, onto.new) }
{
    for _ in 0..events {
        let outcome = make_move(last_notes, run, until, taker, onto, steps);
        if outcome.is_some() {
            return outcome;
        }
    }
    None
}

/// The outcome of a run that has made all its steps. Where it rests, the clock leaves its time.
fn outcome_at_rest<'m, P: Pending, K, T: NoteTaker<K>>(
    last_notes: &mut LastNotes<'m>,
    run: &Run<'m, P>,
    until: u64,
    taker: &mut T,
    onto: &mut K,
) -> Outcome
    requires one_model { last_notes.old.model ≡ run.now.model }
    requires goes_on { run.now.faulted ≡ None }
    ensures last { OutcomeAtRest T.takes
        (λ p. T.failed p.0) until run.now last_notes.old result run.now last_notes.new
        (taker.old, onto.old) (taker.new, onto.new) }
    ensures traced { last_notes.new.model ≡ last_notes.old.model }
{
    let next = run.next();
    match next {
        None => {
            leave(last_notes, run, next, until, taker, onto);
            Outcome::Ended { time: run.clock() }
        }
        Some(first) => {
            if first.time <= until {
                return Outcome::Budget;
            }
            leave(last_notes, run, next, until, taker, onto);
            Outcome::Stopped
        }
    }
}

/// Follows a run for at most so many events, with its notes.
pub fn run_to_outcome<'m, P: Pending, K, T: NoteTaker<K>, L: Ledger>(
    last_notes: &mut LastNotes<'m>,
    run: &mut Run<'m, P>,
    until: u64,
    events: u64,
    taker: &mut T,
    onto: &mut K,
    steps: &mut Steps<L>,
) -> Outcome
    requires can { CanFollow until events run.old last_notes.old }
    ensures { RanToOutcome T.takes
        (λ p. T.failed p.0) until events run.old last_notes.old result run.new last_notes.new
        (taker.old, onto.old) (taker.new, onto.new) }
{
    match make_moves(last_notes, run, until, events, taker, onto, steps) {
        Some(outcome) => outcome,
        None => outcome_at_rest(last_notes, run, until, taker, onto),
    }
}
