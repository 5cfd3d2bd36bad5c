//! The top call over devices that never fail.

ghost use Rattle.std.specs.Prelude.{◌≡◌, ◌⊎◌, Some, map, IfSome};
ghost use Rattle.std.specs.String.{string_bytes};
ghost use Rattle.command_words.specs.declared.job.Job.{Job};
ghost use Rattle.command_words.specs.Jobs.{job_of};
ghost use Rattle.command_words.specs.Readings.{reading_of, limit_of};
ghost use Rattle.answer_delivery.specs.declared.answer.Answer.{Answer};
ghost use Rattle.job_answers.specs.Answers.{Answers};
ghost use Rattle.answer_delivery.specs.Statuses.{status_of_answer};
ghost use Rattle.sigma_top.specs.StatusTable.{text_of};

use answer_delivery::Status;
use sig_base::{NullSink, SureSource, Text};
use sigma_top::sigma;
use std::alloc::Global;

/// How the words end on a text that comes from a source which never fails, where outputs keep nothing.
pub fn sure_status(alloc: Global, words: &[String], text: Text) -> Status
    // Words that are a job leave no status but that of the job's answer to the text, and out of memory.
    ensures { (job : Job) → job_of (map string_bytes words.now) ≡ Some job
        → (result ≡ Status.NoMemory)
        ⊎ IfSome (text_of (limit_of (reading_of job)) (Some text))
        (λ bytes. (a : Answer) × Answers (reading_of job) bytes a × (result ≡ status_of_answer a)) }
{
    let mut input = SureSource::new(text, 4096);
    let mut output = NullSink::new();
    let mut errors = NullSink::new();
    sigma(alloc, words, &mut input, &mut output, &mut errors)
}
