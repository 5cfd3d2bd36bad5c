//! Ranges that a model needs: how rounds find them, and which are inductive.
#![tactic(auto, unfolding(model_core::specs::Rules::BoundsTable::exact_bounds))]

ghost use Rattle.std.specs.Prelude.{◌≡◌, pos, neg_ℤ};
ghost use Rattle.model_core.specs.Ranges.Inductive.{Fitting, Inductive, Suffices};
ghost use Rattle.model_core.specs.Ranges.Inference.{after_rounds, IsInferred};
ghost use Rattle.worked_runs.specs.NarrowModel.{turning, range, of_three};

/// A counter that turns is known after a few rounds. One that grows without end grows by one a
/// round, until the 17th moves its end to the declared one. The 18th changes nothing.
pub fn ranges_grow_in_rounds()
    ensures before { after_rounds turning 0
        ≡ of_three (range (pos 0) (pos 0)) (range (pos 3) (pos 3)) (range (pos 0) (pos 0)) }
    ensures fourth { after_rounds turning 4
        ≡ of_three (range (pos 0) (pos 4)) (range (pos 3) (pos 3)) (range (pos 0) (pos 4)) }
    ensures sixteenth { after_rounds turning 16
        ≡ of_three (range (pos 0) (pos 5)) (range (pos 3) (pos 3)) (range (pos 0) (pos 16)) }
    ensures seventeenth { after_rounds turning 17
        ≡ of_three (range (pos 0) (pos 5)) (range (pos 3) (pos 3)) (range (pos 0) (pos 1000000)) }
    ensures eighteenth { after_rounds turning 18
        ≡ of_three (range (pos 0) (pos 5)) (range (pos 3) (pos 3)) (range (pos 0) (pos 1000000)) }
    ensures found { IsInferred turning
        (of_three (range (pos 0) (pos 5)) (range (pos 3) (pos 3)) (range (pos 0) (pos 1000000))) }
{}

/// The declared ranges are inductive. Where the counter that turns may only have 0 to 4, its own
/// change leaves its range.
pub fn ranges_are_checked()
    ensures declared_fit { Fitting turning
        (of_three (range (pos 0) (pos 1000)) (range (neg_ℤ (pos 50)) (pos 50))
        (range (pos 0) (pos 1000000))) }
    ensures declared { Inductive turning
        (of_three (range (pos 0) (pos 1000)) (range (neg_ℤ (pos 50)) (pos 50))
        (range (pos 0) (pos 1000000))) }
    ensures narrower_fit { Fitting turning
        (of_three (range (pos 0) (pos 4)) (range (pos 3) (pos 3)) (range (pos 0) (pos 1000000))) }
    ensures narrower { Suffices turning
        (of_three (range (pos 0) (pos 4)) (range (pos 3) (pos 3)) (range (pos 0) (pos 1000000))) 0
        → ⊥ }
{}
