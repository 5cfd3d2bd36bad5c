//! The text of the conflicts in a model.

ghost use Rattle.std.specs.Prelude.{◌≡◌, ◌++◌, ◌∷◌, [], true, false, codes};
ghost use Rattle.model_core.specs.EventGraph.{Fixed, Schedule};
ghost use Rattle.worked_runs.specs.Building.{whole, plain_edge, schedule};
ghost use Rattle.worked_runs.specs.Models.{bank, cut, cancel_three, ordering};
ghost use Rattle.conflict_report.specs.ConflictText.{conflict_text, reasons_text};

/// A line says which two vertices, or one with itself, are in conflict, and why: in the bank, in a
/// model that cancels, and in one where priorities keep all events apart.
pub fn conflicts_have_texts()
    ensures of_the_bank { conflict_text bank
        ≡ codes "RUN RUN variables\n"
        ++ codes "RUN ENTER variables\n"
        ++ codes "RUN LEAVE variables\n"
        ++ codes "ENTER ENTER variables,streams\n"
        ++ codes "ENTER START variables\n"
        ++ codes "ENTER LEAVE variables\n"
        ++ codes "START START variables\n"
        ++ codes "LEAVE LEAVE variables\n" }
    ensures of_cancelling { conflict_text (cut (cancel_three ∷ []))
        ≡ codes "RUN RUN cancels\n"
        ++ codes "RUN B cancels\n"
        ++ codes "B B variables\n" }
    ensures of_none { conflict_text
        (ordering (plain_edge (Schedule (Fixed (whole 2)) 7) 1 [] ∷ schedule 2 (whole 2) ∷ []))
        ≡ [] }
{}

/// A line names the reasons that hold in one order: variables, streams, cancels.
pub fn reasons_have_an_order()
    ensures all { reasons_text
        (record { meet = true; variables = true; streams = true; cancels = true })
        ≡ codes "variables,streams,cancels" }
    ensures two_without_cancels { reasons_text
        (record { meet = true; variables = true; streams = true; cancels = false })
        ≡ codes "variables,streams" }
    ensures two_without_streams { reasons_text
        (record { meet = true; variables = true; streams = false; cancels = true })
        ≡ codes "variables,cancels" }
    ensures two_without_variables { reasons_text
        (record { meet = true; variables = false; streams = true; cancels = true })
        ≡ codes "streams,cancels" }
    ensures variables_alone { reasons_text
        (record { meet = true; variables = true; streams = false; cancels = false })
        ≡ codes "variables" }
    ensures streams_alone { reasons_text
        (record { meet = true; variables = false; streams = true; cancels = false })
        ≡ codes "streams" }
    ensures cancels_alone { reasons_text
        (record { meet = true; variables = false; streams = false; cancels = true })
        ≡ codes "cancels" }
    ensures none { reasons_text
        (record { meet = true; variables = false; streams = false; cancels = false })
        ≡ [] }
{}
