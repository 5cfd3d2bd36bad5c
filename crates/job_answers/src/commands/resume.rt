//! `resume`: the history of a saved run from where it was saved, written as it happens, or why it can't go on. And the law
//! that it goes on from what `save` would write.

ghost use Rattle.std.specs.Prelude.{◌≡◌, ◌<◌, ◌≤◌, ◌^◌, ℕ, List, [], ◌++◌, length, IfOk, None, Ok};
ghost use Rattle.sig_base.specs.declared.limits.TheConstants.{STOP_MAX};
ghost use Rattle.model_core.specs.EventGraph.{EventGraph};
ghost use Rattle.model_core.specs.Saved.GoodSnapshots.{bad_at, saved_run};
ghost use Rattle.model_core.specs.Saved.SavedRun.{IsGood};
ghost use Rattle.model_core.specs.Static.OwnRules.{KeepsStaticRules};
ghost use Rattle.model_core.specs.Static.Reading.{IsValid};
ghost use Rattle.model_core.specs.Text.Lexing.{Lexeme, tokens_from, tokens_of};
ghost use Rattle.model_core.specs.Text.SnapshotGrammar.{WrittenSnapshot, IsSnapshot};
ghost use Rattle.model_core.specs.Text.SnapshotText.{snapshot_text};
ghost use Rattle.model_core.specs.Text.Spellable.{IsSpellable};
ghost use Rattle.model_core.specs.Code.Views.{graph_of};
ghost use Rattle.job_answers.specs.PlainKinds.{plain_kinds};
ghost use Rattle.job_answers.specs.ResumeAnswer.{below_clock_line, too_many_events, resume_refusal, resume_answer, ResumedExceedsRoom};
ghost use Rattle.answer_delivery.specs.Delivery.{DeliversSome};

use crate::history_writing::write_history_from;
use answer_delivery::{DeliveryOutcome, Failure, Refusal};
use command_words::ResumeOptions;
use event_heap::HeapPending;
use event_list::Pending;
use model_core::Model;
use round_trip::validity_is_by_parts;
use run_control::kept_models_can_be_run;
use run_snapshot::Snapshot;
use sig_base::{EVENTS_MAX, NoMemory, Sink, Text, put_bytes, put_counted};
use snapshot_text::saved_runs_read_back;
use std::alloc::Global;

/// The least number of pending events that a run can't count.
const PENDING_COUNTED: usize = 1 << 61;

/// The line for a stop time before the clock of the saved run.
fn below_clock_line(alloc: Global, clock: u64) -> Result<Text, NoMemory>
    ensures { IfOk result (λ line. line ≡ below_clock_line clock) }
{
    let mut line = Vec::new(alloc);
    put_counted(&mut line, b"sigma: stop time below clock ", clock)?;
    put_bytes(&mut line, b"\n")?;
    Ok(Text::from_vec(line))
}

/// The line for more events than a run can have.
fn too_many_events_line(alloc: Global) -> Result<Text, NoMemory>
    ensures { IfOk result (λ line. line ≡ too_many_events) }
{
    let line = Vec::from_slice(alloc, b"sigma: too many events\n")?;
    Ok(Text::from_vec(line))
}

/// Why a saved run can't go on as it is asked to, if it can't.
fn resume_refusal(
    alloc: Global,
    snapshot: &Snapshot,
    options: &ResumeOptions,
) -> Result<Option<Text>, NoMemory>
    requires saved { snapshot.now.events ≤ EVENTS_MAX }
    requires budget { options.now.events ≤ EVENTS_MAX }
    ensures { IfOk result
        (λ refusal. refusal ≡ resume_refusal snapshot.now options.now.until options.now.events) }
{
    if options.until < snapshot.clock {
        return Ok(Some(below_clock_line(alloc, snapshot.clock)?));
    }
    if EVENTS_MAX < snapshot.events + options.events {
        return Ok(Some(too_many_events_line(alloc)?));
    }
    Ok(None)
}

/// Goes on with the run over an empty pending list.
fn resume_over<P: Pending + Drop, K: Sink>(
    alloc: Global,
    model: &Model,
    pending: P,
    snapshot: &Snapshot,
    options: &ResumeOptions,
    output: &mut K,
) -> Result<DeliveryOutcome, Failure>
    requires valid { IsValid (graph_of model.now) }
    requires good { IsGood (graph_of model.now) snapshot.now }
    requires can_be_counted { length snapshot.now.pending < 2 ^ 61 }
    requires empty { P.entries pending ≡ [] }
    requires fresh { P.numbered pending ≡ 0 }
    requires made_for { P.vertices pending ≡ length model.now.vertices }
    requires soon { options.now.until ≤ STOP_MAX }
    requires allowed { resume_refusal snapshot.now options.now.until options.now.events ≡ None }
    ensures { DeliversSome K.seen
        (λ a. a ≡ resume_answer
        (graph_of model.now) snapshot.now options.now.until options.now.events)
        (ResumedExceedsRoom
        (graph_of model.now) snapshot.now options.now) result output.old output.new }
{
    validity_is_by_parts();
    kept_models_can_be_run();
    let resumed = match run_snapshot::resume(alloc, model, pending, snapshot, options.room) {
        Ok(resumed) => resumed,
        Err(_) => return Err(Failure::NoMemory),
    };
    write_history_from(
        resumed.run,
        resumed.tracer,
        options.until,
        options.events,
        output,
    )
}

/// Goes on with a saved run, and writes the history from there on as it happens.
pub fn resume<K: Sink>(
    alloc: Global,
    model: &Model,
    snapshot: &Snapshot,
    options: &ResumeOptions,
    output: &mut K,
) -> Result<DeliveryOutcome, Failure>
    requires valid { IsValid (graph_of model.now) }
    requires good { IsGood (graph_of model.now) snapshot.now }
    requires soon { options.now.until ≤ STOP_MAX }
    requires budget { options.now.events ≤ EVENTS_MAX }
    ensures { DeliversSome K.seen
        (λ a. a ≡ resume_answer
        (graph_of model.now) snapshot.now options.now.until options.now.events)
        (ResumedExceedsRoom
        (graph_of model.now) snapshot.now options.now) result output.old output.new }
{
    match resume_refusal(alloc, snapshot, options) {
        Ok(Some(line)) => return Ok(DeliveryOutcome::Refused(Refusal::BadStart, line)),
        Ok(None) => {}
        Err(_) => return Err(Failure::NoMemory),
    }
    // No memory holds so many.
    if snapshot.pending.len() >= PENDING_COUNTED {
        return Err(Failure::NoMemory);
    }
    match HeapPending::begin(alloc, model.vertices.len()) {
        Ok(pending) => resume_over(alloc, model, pending, snapshot, options, output),
        Err(_) => Err(Failure::NoMemory),
    }
}

/// The tokens of a good snapshot, after any others of a text, are those of the text of the saved run that it means, wherever
/// that begins. Leading zeros of a number and a sign before a zero count for nothing. The function does nothing: what it
/// ensures holds of all texts.
pub fn good_snapshots_are_printed_again()
    ensures { (g : EventGraph) (text : List ℕ) (front behind : List Lexeme) (w : WrittenSnapshot)
        (at : ℕ) → KeepsStaticRules g → IsSpellable g
        → tokens_of text ≡ Ok (front ++ behind) → IsSnapshot behind w → bad_at g w ≡ None
        → (printed : List Lexeme)
        × (tokens_from at 0 (snapshot_text g (saved_run g w)) ≡ Ok printed)
        × (plain_kinds printed ≡ plain_kinds behind) }
{
    saved_runs_read_back();
}
