//! Models that mean the same, and models that don't.

ghost use Rattle.std.specs.Prelude.{◌≡◌, ◌∷◌, []};
ghost use Rattle.model_core.specs.EventGraph.{WatchedVariable};
ghost use Rattle.model_core.specs.Run.History.{look};
ghost use Rattle.model_core.specs.Run.Same.{Same, first_parameters};
ghost use Rattle.alike_laws.specs.AreAlike.{AreAlike};
ghost use Rattle.alike_laws.specs.LooksApart.{LooksApart};
ghost use Rattle.worked_runs.specs.Pairs.{ends, leaves, two_events, one_event, a_first, b_first, watching_two, due_after};
ghost use Rattle.worked_alike.specs.AskedKinds.{asking_number, asking_truth};

use alike_laws::{meaning_alike_is_an_equivalence, models_apart_are_not_alike};
use worked_runs::steps_may_be_fewer;

/// Models with other numbers of steps mean the same, both ways round.
pub fn steps_alone_do_not_count()
    ensures not_the_same { Same one_event two_events → ⊥ }
    ensures but_alike { AreAlike one_event two_events }
{
    steps_may_be_fewer();
    meaning_alike_is_an_equivalence();
}

/// Ends, notes, what is watched and the kinds of parameters do count.
pub fn what_is_seen_counts()
    ensures ends { AreAlike ends leaves → ⊥ }
    ensures notes { AreAlike a_first b_first → ⊥ }
    ensures watched { AreAlike
        (watching_two (WatchedVariable 0 ∷ []))
        (watching_two (WatchedVariable 0 ∷ WatchedVariable 1 ∷ [])) → ⊥ }
    ensures same_names { first_parameters asking_number ≡ first_parameters asking_truth }
    ensures kinds { AreAlike asking_number asking_truth → ⊥ }
{
    models_apart_are_not_alike();
}

/// A finished look is apart from one that goes on and shows something else, and not from one that shows less.
pub fn looks_are_apart_by_what_they_show()
    ensures first_over { LooksApart (look (due_after 9) 42 [] 5 2) (look b_first 42 [] 5 2) }
    ensures second_over { LooksApart (look b_first 42 [] 5 2) (look (due_after 9) 42 [] 5 2) }
    ensures less { LooksApart (look ends 42 [] 5 0) (look ends 42 [] 5 3) → ⊥ }
{}
