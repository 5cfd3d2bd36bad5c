//! The top call, `sigma`: from the words, the input and the outputs to a status. It calls `answer_words`, which calls
//! `answer_text` (in `job_answers`). It knows a job by what that reads, and everything else is proved once for all jobs.

ghost use Rattle.std.specs.Prelude.{◌≡◌, ◌⊎◌, Some, map, IfSome};
ghost use Rattle.std.specs.String.{string_bytes};
ghost use Rattle.sig_base.specs.Faults.{HasRisen};
ghost use Rattle.command_words.specs.declared.job.Job.{Job};
ghost use Rattle.command_words.specs.Jobs.{job_of};
ghost use Rattle.command_words.specs.Readings.{reading_of, limit_of};
ghost use Rattle.model_core.specs.EventGraph.{EventGraph};
ghost use Rattle.model_core.specs.Static.Reading.{Reads};
ghost use Rattle.job_answers.specs.Answers.{MayStopShort};
ghost use Rattle.sigma_top.specs.Comparisons.{ComparesModels};
ghost use Rattle.sigma_top.specs.Promises.{IsOfAnswer, KeepsPromises};
ghost use Rattle.sigma_top.specs.StatusTable.{text_of, ReportsLine, Ends};
ghost use Rattle.sigma_top.specs.Inner.CallSteps.{AnswersWords, Reports};

use crate::text_taking::{TakenText, take_text};
use answer_delivery::{DeliveryOutcome, Failure, Status, deliver, too_long_answer};
use command_words::{WordsError, jobs_keep_their_limits};
use job_answers::{
    answer_text, answers_keep_their_laws, compared_models_are_as_answered,
    fused_models_mean_the_same, narrower_models_mean_the_same, read_runs_are_answered,
    readable_models_are_reduced, saved_runs_are_resumed, sound_documents_mean_the_same,
    written_models_mean_the_same,
};
use sig_base::{Sink, Source, put};
use std::alloc::Global;

/// Does the job that the words ask for: takes the text of the job from the input, and writes the answer to it.
fn answer_words<S: Source, K: Sink>(
    alloc: Global,
    words: &[String],
    input: &mut S,
    output: &mut K,
) -> Result<DeliveryOutcome, Failure>
    ensures { AnswersWords S.seen K.seen (map string_bytes words.now) result
        input.old input.new output.old output.new }
{
    answers_keep_their_laws();
    let reading = match command_words::words(alloc, words) {
        Ok(job) => job.reading(),
        Err(WordsError::BadWords) => return Err(Failure::Usage),
        Err(WordsError::NoMemory) => return Err(Failure::NoMemory),
    };
    match take_text(alloc, reading.limit(), input) {
        Ok(TakenText::Whole(text)) => answer_text(alloc, &reading, text.as_slice(), output),
        Ok(TakenText::TooLong) => deliver(output, too_long_answer(alloc)),
        Err(failure) => Err(failure),
    }
}

/// Writes a line on the error output.
pub(crate) fn write_line<E: Sink>(errors: &mut E, line: &[u8])
    ensures { ReportsLine (E.seen errors.old) (E.seen errors.new) line.now }
{
    let _ = put(errors, line);
}

/// The status of a call that answered so. If the job wasn't done, the line that says why goes to the error output.
fn report<E: Sink>(answered: Result<DeliveryOutcome, Failure>, errors: &mut E) -> Status
    ensures { Reports E.seen answered errors.old errors.new result }
{
    match answered {
        Ok(DeliveryOutcome::Gave(end)) => end.status(),
        Ok(DeliveryOutcome::Refused(why, line)) => {
            write_line(errors, line.as_slice());
            why.status()
        }
        Err(failure) => {
            write_line(errors, failure.line());
            failure.status()
        }
    }
}

/// Does the job that the words ask for, from the text on `input` to the bytes on `output`. Where it isn't done, one line on
/// `errors` says why.
///
/// A failing error output changes no status. After a failed read nothing more is read, and after a
/// failed write nothing more is written.
pub fn sigma<S: Source, K: Sink, E: Sink>(
    alloc: Global,
    words: &[String],
    input: &mut S,
    output: &mut K,
    errors: &mut E,
) -> Status
    // What each status means, for the input, the output and the error output.
    ensures ends { Ends S.seen K.seen E.seen (map string_bytes words.now)
        input.old input.new output.old output.new errors.old errors.new result }

    // Words that are a job leave no status but that of the job's answer, unless memory, the input or the output fails.
    ensures complete { (job : Job) → job_of (map string_bytes words.now) ≡ Some job
        → (HasRisen (S.seen input.old).faults (S.seen input.new).faults → ⊥)
        → (HasRisen (K.seen output.old).faults (K.seen output.new).faults → ⊥)
        → (result ≡ Status.NoMemory)
        ⊎ IsOfAnswer (reading_of job) (S.seen input.old) result (K.seen output.old)
        (K.seen output.new) }

    // A text that reads as a model is reduced, unless memory, the input or the output fails.
    ensures always_reduced { job_of (map string_bytes words.now) ≡ Some Job.Reduce
        → (HasRisen (S.seen input.old).faults (S.seen input.new).faults → ⊥)
        → (HasRisen (K.seen output.old).faults (K.seen output.new).faults → ⊥)
        → IfSome (S.seen input.old).left (λ text.
        (g : EventGraph) → Reads text g → (result ≡ Status.Done) ⊎ (result ≡ Status.NoMemory)) }

    // If memory is refused, nothing is written, unless the job may stop short: `replicate`, and `run` and `resume` of a run
    // that exceeds the room that it was given.
    ensures writes_nothing { (job : Job) → job_of (map string_bytes words.now) ≡ Some job
        → result ≡ Status.NoMemory
        → IfSome (text_of (limit_of (reading_of job)) (S.seen input.old).left)
        (λ text. (MayStopShort (reading_of job) text → ⊥) → output.new ≡ output.old) }

    // What each job is for: the promises `printed`, `reduced`, `fused`, `narrowed`, `saved`, `resumed` and `certified`, one
    // field each.
    ensures promises { KeepsPromises (λ status. result ≡ status) (map string_bytes words.now)
        (S.seen input.old) (K.seen output.old) (K.seen output.new) }

    // What the answers of `compare` mean for the two models that were read: `same`, `differ` and `unknown`, one field each.
    ensures compared { ComparesModels (λ status. result ≡ status) (map string_bytes words.now)
        (S.seen input.old) (K.seen output.old) (K.seen output.new) }
{
    written_models_mean_the_same();
    fused_models_mean_the_same();
    narrower_models_mean_the_same();
    sound_documents_mean_the_same();
    readable_models_are_reduced();
    saved_runs_are_resumed();
    read_runs_are_answered();
    compared_models_are_as_answered();
    jobs_keep_their_limits();
    let answered = answer_words(alloc, words, input, output);
    report(answered, errors)
}
