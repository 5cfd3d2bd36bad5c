//! What `compare` answers for small models, by their normal forms.

ghost use Rattle.std.specs.Prelude.{◌≡◌, pos, true, false, [], ◌∷◌, codes};
ghost use Rattle.model_core.specs.EventGraph.{WatchedVariable};
ghost use Rattle.normal_form.specs.OneForm.{equal_but_names};
ghost use Rattle.answer_delivery.specs.declared.answer.Answer.TheVariants.{Given, Refused};
ghost use Rattle.answer_delivery.specs.declared.status.End.TheVariants as ends;
ghost use Rattle.answer_delivery.specs.declared.status.Refusal.TheVariants as refusals;
ghost use Rattle.job_answers.specs.CompareAnswer.{compare_answer};
ghost use Rattle.worked_runs.specs.Models.{clock, strict_clock};
ghost use Rattle.worked_runs.specs.Pairs.{watching, due_after};
ghost use Rattle.worked_reports.specs.AskedOptions.{comparing, comparing_from_five};

/// Models are equal but for names where nothing else differs.
pub fn names_of_forms_do_not_count()
    ensures itself { equal_but_names clock clock ≡ true }
    ensures other_names { equal_but_names (watching (codes "X") (codes "A") (WatchedVariable 0 ∷ []))
        (watching (codes "Y") (codes "B") (WatchedVariable 0 ∷ [])) ≡ true }
    ensures other_number { equal_but_names (due_after 2) (due_after 3) ≡ false }
    ensures other_store { equal_but_names clock strict_clock ≡ false }
    ensures other_watch { equal_but_names (watching (codes "X") (codes "A") (WatchedVariable 0 ∷ []))
        (watching (codes "X") (codes "A") []) ≡ false }
{}

/// What is declared apart comes first, then equal forms, and then runs.
// Equal forms; lines that are declared apart, whatever the forms are; equal forms of models whose runs
// differ, as no such models have them; forms that differ, with a run that does and with none; starting
// values.
pub fn two_models_are_compared()
    ensures same { compare_answer clock clock clock clock (comparing 16 1)
        ≡ Given ends.Done (codes "same\n") }
    ensures declared { compare_answer
        (watching (codes "X") (codes "A") (WatchedVariable 0 ∷ []))
        (watching (codes "Y") (codes "A") (WatchedVariable 0 ∷ []))
        clock clock (comparing 16 1)
        ≡ Given ends.Differs (codes "differs\ndeclared\nfirst watch X;\nsecond watch Y;\n") }
    ensures forms_before_runs { compare_answer clock strict_clock clock clock (comparing 16 1)
        ≡ Given ends.Done (codes "same\n") }
    ensures a_run { compare_answer clock strict_clock clock strict_clock (comparing 16 1)
        ≡ Given ends.Differs
        (codes "differs\nrun 1 seed 42 line 4\nfirst stopped 16\nsecond fault 15 range\n") }
    ensures no_run { compare_answer clock strict_clock clock strict_clock (comparing 12 2)
        ≡ Given ends.Unknown (codes "unknown\n") }
    ensures starting_values { compare_answer clock clock clock clock comparing_from_five
        ≡ Refused refusals.BadStart (codes "sigma: starting values needed 0 given 1\n") }
{}
