//! `save`: a run of a model, stopped while it goes on, as a document of the model and of the rest of the run, and the law
//! that `resume` goes on from it.

ghost use Rattle.std.specs.Prelude.{◌≡◌, ◌<◌, ◌≤◌, ◌^◌, ℕ, List, IfOk};
ghost use Rattle.sig_base.specs.declared.limits.TheConstants.{STOP_MAX, EVENTS_MAX};
ghost use Rattle.command_words.specs.declared.reading.ModelJob.TheVariants.{Save};
ghost use Rattle.command_words.specs.declared.reading.Reading.TheVariants.{Model as OfModel};
ghost use Rattle.command_words.specs.KeptLimits.{KeepsLimits};
ghost use Rattle.model_core.specs.Saved.SavedRun.{IsGood};
ghost use Rattle.model_core.specs.Static.Reading.{IsValid};
ghost use Rattle.model_core.specs.Code.Views.{graph_of};
ghost use Rattle.run_control.specs.Beginning.{BegunRun};
ghost use Rattle.answer_delivery.specs.Delivery.{DeliversSome};
ghost use Rattle.job_answers.specs.SaveAnswer.{run_finished, snapshot_too_long, saved_document, unless_too_long, saving_answer, save_answer};
ghost use Rattle.answer_delivery.specs.declared.answer.Answer.TheVariants.{Given as Gives, Refused as IsRefused};
ghost use Rattle.answer_delivery.specs.declared.status.Refusal.TheVariants.{Finished, TooLarge};
ghost use Rattle.job_answers.specs.Answers.{Answers};
ghost use Rattle.job_answers.specs.SavedAndResumed.{SavesTheRun};
ghost use Rattle.job_answers.specs.Inner.SaveSteps.{SavedOrFinished};

use crate::beginning::{begin, refuse_start};
use crate::notes_dropped::NotesDropped;
use answer_delivery::{Answer, DeliveryOutcome, End, Failure, Refusal, deliver};
use command_words::SaveOptions;
use event_list::Pending;
use model_core::Model;
use model_print::print;
use round_trip::validity_is_by_parts;
use run_control::{ROOM, Run};
use run_snapshot::{Snapshot, print_snapshot, saved_runs_resume};
use sig_base::{DOCUMENT_MAX, NoMemory, Sink, Text, put_bytes};
use snapshot_text::saved_documents_read_back;
use std::alloc::Global;
use watch_trace::{Outcome, Tracer, observe};

/// The snapshot of a run that has begun, after so many events: `None` where it doesn't go on then. Its notes are dropped.
fn saved_part<'m, P: Pending + Drop>(
    alloc: Global,
    run: Run<'m, P>,
    model: &'m Model,
    options: &SaveOptions,
) -> Result<Option<Snapshot>, NoMemory>
    requires soon { options.now.until ≤ STOP_MAX }
    requires budget { options.now.events ≤ EVENTS_MAX }
    requires begun { (room : ℕ) × BegunRun model.now options.now.seed options.now.starts room run }
    ensures { IfOk result
        (SavedOrFinished (graph_of model.now) options.now.until options.now.seed
        options.now.events options.now.starts) }
{
    let mut run = run;
    let mut tracer = Tracer::begin(alloc, model)?;
    let outcome = observe(
        &mut tracer,
        &mut run,
        options.until,
        options.events,
        &mut NotesDropped,
        &mut (),
    );
    match outcome {
        Outcome::Budget => Ok(Some(run_snapshot::save(alloc, model, run, &tracer, options.seed)?)),
        Outcome::Ended { .. } | Outcome::Stopped | Outcome::Faulted { .. } => Ok(None),
        Outcome::NoMemory | Outcome::WriteFault => Err(NoMemory),
    }
}

/// The text of the model, followed by that of the snapshot.
fn document_text(alloc: Global, model: &Model, snapshot: &Snapshot) -> Result<Text, NoMemory>
    requires { IsGood (graph_of model.now) snapshot.now }
    ensures { IfOk result (λ out. out ≡ saved_document (graph_of model.now) snapshot.now) }
{
    let mut out = print(alloc, model)?;
    let behind = print_snapshot(alloc, model, snapshot)?;
    put_bytes(out.as_mut_vec(), behind.as_slice())?;
    Ok(out)
}

/// The refusal to save a run that doesn't go on.
fn finished(alloc: Global) -> Result<Answer, NoMemory>
    ensures { IfOk result (λ a. a ≡ IsRefused Finished run_finished) }
{
    let line = Vec::from_slice(alloc, b"sigma: run finished\n")?;
    Ok(Answer::Refused(Refusal::Finished, Text::from_vec(line)))
}

/// The refusal of a document that is longer than one may be.
fn too_large(alloc: Global) -> Result<Answer, NoMemory>
    ensures { IfOk result (λ a. a ≡ IsRefused TooLarge snapshot_too_long) }
{
    let line = Vec::from_slice(alloc, b"sigma: snapshot too long\n")?;
    Ok(Answer::Refused(Refusal::TooLarge, Text::from_vec(line)))
}

/// The document of the model and the snapshot, unless it is too long.
fn document(alloc: Global, model: &Model, snapshot: &Snapshot) -> Result<Answer, NoMemory>
    requires { IsGood (graph_of model.now) snapshot.now }
    ensures { IfOk result
        (λ a. a ≡ unless_too_long (saved_document (graph_of model.now) snapshot.now)) }
{
    let out = document_text(alloc, model, snapshot)?;
    if out.as_slice().len() <= DOCUMENT_MAX {
        Ok(Answer::Given(End::Done, out))
    } else {
        too_large(alloc)
    }
}

/// The answer for a run that has begun.
fn saving<'m, P: Pending + Drop>(
    alloc: Global,
    run: Run<'m, P>,
    model: &'m Model,
    options: &SaveOptions,
) -> Result<Answer, NoMemory>
    requires valid { IsValid (graph_of model.now) }
    requires soon { options.now.until ≤ STOP_MAX }
    requires wide { options.now.seed < 2 ^ 64 }
    requires budget { options.now.events ≤ EVENTS_MAX }
    requires begun { (room : ℕ) × BegunRun model.now options.now.seed options.now.starts room run }
    ensures { IfOk result (λ a. a ≡ saving_answer (graph_of model.now) options.now) }
{
    validity_is_by_parts();
    saved_runs_resume();
    match saved_part(alloc, run, model, options)? {
        Some(snapshot) => document(alloc, model, &snapshot),
        None => finished(alloc),
    }
}

/// Runs the model for so many events, and writes the document from which it can go on.
pub fn save<K: Sink>(
    alloc: Global,
    model: &Model,
    options: &SaveOptions,
    output: &mut K,
) -> Result<DeliveryOutcome, Failure>
    requires valid { IsValid (graph_of model.now) }
    requires soon { options.now.until ≤ STOP_MAX }
    requires wide { options.now.seed < 2 ^ 64 }
    requires budget { options.now.events ≤ EVENTS_MAX }
    ensures { DeliversSome K.seen
        (λ a. a ≡ save_answer (graph_of model.now) options.now) ⊥ result output.old output.new }
{
    let run = match begin(alloc, model, options.seed, &options.starts, ROOM) {
        Ok(run) => run,
        Err(error) => return refuse_start(alloc, error),
    };
    deliver(output, saving(alloc, run, model, options))
}

/// What `save` writes for a text reads back, and what `resume` answers for that goes on as the whole run does. The function
/// does nothing: what it ensures holds of all texts.
pub fn saved_runs_are_resumed()
    ensures { (o : SaveOptions) (text document : List ℕ) (end : End)
        → KeepsLimits (OfModel (Save o))
        → Answers (OfModel (Save o)) text (Gives end document) → SavesTheRun text document o }
{
    validity_is_by_parts();
    saved_runs_resume();
    saved_documents_read_back();
}
