//! `trial`: the summary of a generated model, its reduction, and a run of each.

ghost use Rattle.std.specs.Prelude.{IfOk};
ghost use Rattle.command_words.specs.declared.reading.BareJob.TheVariants.{Trial};
ghost use Rattle.command_words.specs.declared.reading.Reading.TheVariants.{Nothing};
ghost use Rattle.command_words.specs.KeptLimits.{KeepsLimits};
ghost use Rattle.trial_report.specs.TrialText.{Summarises};
ghost use Rattle.answer_delivery.specs.AnswerForms.{IsDone};

use answer_delivery::{Answer, End};
use command_words::TrialOptions;
use sig_base::NoMemory;
use std::alloc::Global;
use trial_report::trial_text;

/// The summary.
pub fn trial(alloc: Global, options: &TrialOptions) -> Result<Answer, NoMemory>
    requires { KeepsLimits (Nothing (Trial options.now)) }
    ensures { IfOk result
        (IsDone (Summarises options.now.seed options.now.vertices
        options.now.until options.now.events)) }
{
    let out = trial_text(
        alloc,
        options.seed,
        options.vertices,
        options.until,
        options.events,
    )?;
    Ok(Answer::Given(End::Done, out))
}
