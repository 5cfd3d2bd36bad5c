//! The law of what the answers of `compare` mean. The function does nothing: what it ensures holds of all texts.

ghost use Rattle.std.specs.Prelude.{ℕ, List};
ghost use Rattle.command_words.specs.declared.compare_options.CompareOptions.{CompareOptions};
ghost use Rattle.command_words.specs.declared.reading.PairJob.TheVariants.{Compare};
ghost use Rattle.command_words.specs.declared.reading.Reading.TheVariants.{Pair as OfPair};
ghost use Rattle.command_words.specs.KeptLimits.{KeepsLimits};
ghost use Rattle.answer_delivery.specs.declared.answer.Answer.TheVariants.{Given as Gives};
ghost use Rattle.answer_delivery.specs.declared.status.End.TheVariants as ends;
ghost use Rattle.job_answers.specs.Answers.{Answers};
ghost use Rattle.job_answers.specs.ComparedModels.{FoundSame, FoundApart, FoundNothing};

use alike_laws::models_apart_are_not_alike;
use model_pairs::{declared_lines_decide, lines_apart_are_looks_apart};
use normal_form::models_with_one_normal_form_are_alike;

/// The answers of `compare` hold of the two models that were read: `same` of models that mean the same, `differs` of models that
/// don't, with what shows it, and `unknown` of models of which no run shows a difference.
pub fn compared_models_are_as_answered()
    ensures same { (o : CompareOptions) (text bytes : List ℕ)
        → Answers (OfPair (Compare o)) text (Gives ends.Done bytes) → FoundSame text bytes }
    ensures apart { (o : CompareOptions) (text bytes : List ℕ) → KeepsLimits (OfPair (Compare o))
        → Answers (OfPair (Compare o)) text (Gives ends.Differs bytes) → FoundApart o text bytes }
    ensures nothing { (o : CompareOptions) (text bytes : List ℕ)
        → Answers (OfPair (Compare o)) text (Gives ends.Unknown bytes) → FoundNothing o text bytes }
{
    models_with_one_normal_form_are_alike();
    declared_lines_decide();
    lines_apart_are_looks_apart();
    models_apart_are_not_alike();
}
