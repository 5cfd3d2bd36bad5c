//! The answer to a text, on its way to the output: the text is read, the command answers, or the complaint is written.

ghost use Rattle.std.specs.Prelude.{◌≡◌, map};
ghost use Rattle.command_words.specs.declared.reading.PairJob.TheVariants.{Compare};
ghost use Rattle.command_words.specs.declared.reading.Reading.TheVariants.{Model as OfModel, Pair as OfPair, Saved as OfSaved, Nothing as OfNothing};
ghost use Rattle.command_words.specs.KeptLimits.{KeepsLimits};
ghost use Rattle.command_words.specs.Readings.{limit_of};
ghost use Rattle.model_core.specs.Saved.SavedRun.{IsGood};
ghost use Rattle.model_core.specs.Static.Reading.{IsValid};
ghost use Rattle.model_core.specs.Code.Views.{graph_of, application_of};
ghost use Rattle.job_answers.specs.Answers.{AnswersModel, AnswersDocument, AnswersPair, AnswersAlone, AnswersSaved, MayLackMemory, SavedMayLackMemory, IsWithin, Responds, MayStopShort};
ghost use Rattle.job_answers.specs.Inner.Refusals.{Complains};
ghost use Rattle.answer_delivery.specs.Delivery.{DeliversSome};

use crate::commands::certify::certify;
use crate::commands::check::check;
use crate::commands::compare::compare;
use crate::commands::conflicts::conflicts;
use crate::commands::describe_model::describe;
use crate::commands::fuse::fuse;
use crate::commands::narrow::narrow;
use crate::commands::print::print;
use crate::commands::reduce::reduce;
use crate::commands::replicate::replicate;
use crate::commands::resume::resume;
use crate::commands::run::run;
use crate::commands::save::save;
use crate::commands::trial::trial;
use crate::commands::uses::uses;
use crate::document_reading::{Document, document_of};
use crate::model_reading::model_of;
use crate::pair_reading::{ModelPair, pair_of};
use crate::reading_error::ReadingError;
use crate::saved_reading::{SavedDocument, saved_document_of};
use answer_delivery::{DeliveryOutcome, Failure, complaint_answer, deliver};
use command_words::{BareJob, CompareOptions, DocumentJob, ModelJob, PairJob, Reading, SavedJob};
use model_core::Model;
use sig_base::Sink;
use std::alloc::Global;
use std::mem::forget;

/// Writes the answer of a command on a model. The program ends after it, so the model isn't taken apart.
fn answer_model<K: Sink>(
    alloc: Global,
    job: &ModelJob,
    model: Model,
    output: &mut K,
) -> Result<DeliveryOutcome, Failure>
    requires valid { IsValid (graph_of model) }
    requires limits { KeepsLimits (OfModel job.now) }
    ensures { DeliversSome K.seen (AnswersModel job.now (graph_of model))
        (MayLackMemory job.now (graph_of model)) result output.old output.new }
{
    let said = match job {
        ModelJob::Reduce => return deliver(output, reduce(alloc, model)),
        ModelJob::Fuse => return deliver(output, fuse(alloc, model)),
        ModelJob::Narrow => return deliver(output, narrow(alloc, model)),
        ModelJob::Check => deliver(output, check(alloc, &model)),
        ModelJob::Print => deliver(output, print(alloc, &model)),
        ModelJob::Uses => deliver(output, uses(alloc, &model)),
        ModelJob::Conflicts => deliver(output, conflicts(alloc, &model)),
        ModelJob::Describe => deliver(output, describe(alloc, &model)),
        ModelJob::Run(options) => run(alloc, &model, options, output),
        ModelJob::Replicate(options) => replicate(alloc, &model, options, output),
        ModelJob::Save(options) => save(alloc, &model, options, output),
    };
    forget(model);
    said
}

/// Writes the answer of a command on a document.
fn answer_document<K: Sink>(
    alloc: Global,
    job: &DocumentJob,
    document: &Document,
    output: &mut K,
) -> Result<DeliveryOutcome, Failure>
    ensures { DeliversSome K.seen
        (AnswersDocument job.now (graph_of document.now.original)
        (map application_of document.now.applications) (graph_of document.now.reduced))
        ⊥ result output.old output.new }
{
    match job {
        DocumentJob::Certify => deliver(output, certify(alloc, document)),
    }
}

/// What a command on two models is asked for.
fn comparison_of(job: &PairJob) -> &CompareOptions
    ensures { job.now ≡ Compare result.now }
{
    match job {
        PairJob::Compare(options) => options,
    }
}

/// Writes the answer of a command on two models.
fn answer_pair<K: Sink>(
    alloc: Global,
    job: &PairJob,
    pair: &ModelPair,
    output: &mut K,
) -> Result<DeliveryOutcome, Failure>
    requires first_valid { IsValid (graph_of pair.now.first) }
    requires second_valid { IsValid (graph_of pair.now.second) }
    requires limits { KeepsLimits (OfPair job.now) }
    ensures { DeliversSome K.seen
        (AnswersPair job.now (graph_of pair.now.first) (graph_of pair.now.second))
        ⊥ result output.old output.new }
{
    compare(alloc, pair, comparison_of(job), output)
}

/// Writes the answer of a command on a saved run.
fn answer_saved<K: Sink>(
    alloc: Global,
    job: &SavedJob,
    saved: &SavedDocument,
    output: &mut K,
) -> Result<DeliveryOutcome, Failure>
    requires valid { IsValid (graph_of saved.now.model) }
    requires good { IsGood (graph_of saved.now.model) saved.now.snapshot }
    requires limits { KeepsLimits (OfSaved job.now) }
    ensures { DeliversSome K.seen
        (AnswersSaved job.now (graph_of saved.now.model) saved.now.snapshot)
        (SavedMayLackMemory job.now
        (graph_of saved.now.model) saved.now.snapshot) result output.old output.new }
{
    match job {
        SavedJob::Resume(options) => resume(alloc, &saved.model, &saved.snapshot, options, output),
    }
}

/// Writes the answer of a command that reads nothing.
fn answer_alone<K: Sink>(
    alloc: Global,
    job: &BareJob,
    output: &mut K,
) -> Result<DeliveryOutcome, Failure>
    requires { KeepsLimits (OfNothing job.now) }
    ensures { DeliversSome K.seen (AnswersAlone job.now) ⊥ result output.old output.new }
{
    match job {
        BareJob::Trial(options) => deliver(output, trial(alloc, options)),
    }
}

/// Refuses a text that can't be read, with the line of its complaint.
fn complain<K: Sink>(
    alloc: Global,
    error: ReadingError,
    output: &mut K,
) -> Result<DeliveryOutcome, Failure>
    ensures { Complains K.seen error result output.old output.new }
{
    match error {
        ReadingError::At { what, at } => deliver(output, complaint_answer(alloc, what, at)),
        ReadingError::NoMemory => Err(Failure::NoMemory),
    }
}

/// Reads the text as what the command reads, and writes the answer to it. A text that can't be read is refused. The program
/// ends after it, so the documents aren't taken apart.
pub fn answer_text<K: Sink>(
    alloc: Global,
    reading: &Reading,
    text: &[u8],
    output: &mut K,
) -> Result<DeliveryOutcome, Failure>
    requires within { IsWithin (limit_of reading.now) text.now }
    requires limits { KeepsLimits reading.now }
    ensures { DeliversSome K.seen (Responds reading.now text.now)
        (MayStopShort reading.now text.now)
        result output.old output.new }
{
    match reading {
        Reading::Model(job) => match model_of(alloc, text) {
            Ok(model) => answer_model(alloc, job, model, output),
            Err(error) => complain(alloc, error, output),
        },
        Reading::Document(job) => match document_of(alloc, text) {
            Ok(document) => {
                let said = answer_document(alloc, job, &document, output);
                forget(document);
                said
            }
            Err(error) => complain(alloc, error, output),
        },
        Reading::Pair(job) => match pair_of(alloc, text) {
            Ok(pair) => {
                let said = answer_pair(alloc, job, &pair, output);
                forget(pair);
                said
            }
            Err(error) => complain(alloc, error, output),
        },
        Reading::Saved(job) => match saved_document_of(alloc, text) {
            Ok(saved) => {
                let said = answer_saved(alloc, job, &saved, output);
                forget(saved);
                said
            }
            Err(error) => complain(alloc, error, output),
        },
        Reading::Nothing(job) => answer_alone(alloc, job, output),
    }
}
