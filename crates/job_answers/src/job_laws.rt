//! The law of the answers of all jobs. The function does nothing: what it ensures holds of whatever is read.

ghost use Rattle.command_words.specs.declared.reading.Reading.{Reading};
ghost use Rattle.job_answers.specs.AnswerLaws.{KeepsAnswerLaws};

use normal_form::normal_forms_keep_the_meaning;
use range_infer::narrowed_models_mean_the_same;
use reducer::{strategies_are_determined, strategies_end};
use run_laws::runs_go_on;
use trial_report::trials_are_determined;
use twin_rules::fusing_ends;

/// A job has one answer to whatever it reads. What is given has bytes, unless the job may have none, and no answer to what was
/// read refuses the text.
pub fn answers_keep_their_laws()
    ensures { (reading : Reading) → KeepsAnswerLaws reading }
{
    strategies_are_determined();
    strategies_end();
    fusing_ends();
    narrowed_models_mean_the_same();
    normal_forms_keep_the_meaning();
    trials_are_determined();
    runs_go_on();
}
