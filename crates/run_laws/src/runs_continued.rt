//! The law of how a run goes on from any of its moments. The function has an empty body: what it ensures holds of all runs.

ghost use Rattle.std.specs.Prelude.{◌≡◌, ℕ, ◌+◌, Some};
ghost use Rattle.model_core.specs.EventGraph.{EventGraph};
ghost use Rattle.model_core.specs.Run.Machine.{Going, Reached, ahead};
ghost use Rattle.model_core.specs.Run.History.{Moment, look_from, reached_from};

/// A look goes on from the moment that steps reach, and steps after which a run is going on have all been
/// made.
pub fn runs_go_on()
    ensures onward { (g : EventGraph) (seed until n k : ℕ) (m : Moment) (r : Reached Moment)
        → reached_from g seed until n m ≡ Some r
        → look_from g seed until (n + k) m ≡ ahead r.notes (look_from g seed until k r.moment) }
    ensures going { (g : EventGraph) (seed until n : ℕ) (m : Moment)
        → (look_from g seed until n m).standing ≡ Going
        → (r : Reached Moment) × (reached_from g seed until n m ≡ Some r)
        × ((look_from g seed until n m).history ≡ r.notes) }
{}
