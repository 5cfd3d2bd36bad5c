//! The English sentences of a model.

ghost use Rattle.std.specs.Prelude.{◌≡◌, ◌++◌, codes};
ghost use Rattle.describe.specs.Description.{description};
ghost use Rattle.worked_runs.specs.Models.{loop};
ghost use Rattle.worked_reports.specs.DescribedModels.{office, declared_sentences, enter_sentences, leave_sentences};

/// Each form of sentence: scalars, arrays, also of one cell, truth values and clip; tables; what is
/// watched; sets of one and of more targets, and draws; each form of edge, with and without values,
/// and with each condition but the word `true` described.
pub fn models_are_described()
    ensures each_sentence { description office
        ≡ declared_sentences ++ enter_sentences ++ leave_sentences }
    ensures nothing_declared { description loop
        ≡ codes "This is the model LOOP.\nNothing is watched.\nThe first event is RUN.\nEvent RUN takes no values.\nAfter RUN, event A follows at once.\n"
        ++ codes "Event A takes no values.\nAfter A, event B follows at once.\nEvent B takes no values.\nAfter B, event A follows at once.\n" }
{}
