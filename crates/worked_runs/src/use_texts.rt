//! The text of the uses in a model.

ghost use Rattle.std.specs.Prelude.{◌≡◌, ◌++◌, [], codes};
ghost use Rattle.use_analysis.specs.UsesText.{uses_text};
ghost use Rattle.worked_runs.specs.Models.{bank, loop};
ghost use Rattle.worked_runs.specs.Texts.{desk};

/// A line names the readers of a variable, its writers, as a parameter or by a change, and whether
/// it is watched. A vertex that only writes cells of an array doesn't read it, and a dash means no
/// vertex.
pub fn uses_have_texts()
    ensures of_the_bank { uses_text bank
        ≡ codes "QUEUE readers ENTER,START,LEAVE writers ENTER,START watched yes\n"
        ++ codes "IDLE readers ENTER,START,LEAVE writers RUN,START,LEAVE watched yes\n"
        ++ codes "GAP readers ENTER writers ENTER watched no\n"
        ++ codes "SEEN readers ENTER writers ENTER watched no\n" }
    ensures of_cells { uses_text desk
        ≡ codes "N readers SERVE writers SERVE watched yes\n"
        ++ codes "OPEN readers SERVE writers SERVE watched no\n"
        ++ codes "CELLS readers - writers SERVE watched no\n" }
    ensures of_no_variable { uses_text loop ≡ [] }
{}
