//! The headline over two calls at work: what it says of any two models whose texts were written.
//! The clause is a theorem.

ghost use Rattle.std.specs.Prelude.{◌++◌, ℕ, List};
ghost use Rattle.model_core.specs.EventGraph.{EventGraph};
ghost use Rattle.model_core.specs.Run.Same.{Same};
ghost use Rattle.model_core.specs.Text.Canonical.{canonical};
ghost use Rattle.answer_laws.specs.PrintedAndReduced.{HasText, ShowTheSame, certificate_of};

use answer_laws::canonical_texts_determine_models;

/// Where `print` wrote the canonical text of a model, and `reduce` that of another one with a
/// certificate after it, and both models have a text, these two are the same.
pub fn written_models_are_the_same()
    ensures { (g h : EventGraph) (lines : List ℕ) → HasText g → HasText h
        → ShowTheSame (canonical g) (canonical h ++ certificate_of lines) → Same g h }
{
    canonical_texts_determine_models();
}
