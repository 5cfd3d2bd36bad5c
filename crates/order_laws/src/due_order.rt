//! What can be seen of the order of scheduling. The function has an empty body: what it ensures holds of all runs.

ghost use Rattle.std.specs.Prelude.{◌≡◌, ℕ, ℤ, List, Option};
ghost use Rattle.model_core.specs.EventGraph.{EventGraph};
ghost use Rattle.model_core.specs.Run.Step.{Configuration};
ghost use Rattle.model_core.specs.Run.History.{look_from};
ghost use Rattle.model_core.specs.Saved.GoingOn.{Alike};

/// Of the order of scheduling only the order among events that are due alike counts.
pub fn due_order_decides()
    ensures { (g : EventGraph) (seed until n : ℕ) (noted : Option (List (List ℤ)))
        (c d : Configuration) → Alike c d
        → look_from g seed until n (record { now = c; noted = noted })
        ≡ look_from g seed until n (record { now = d; noted = noted }) }
{}
