//! The law of marks: they are of the least set. The function does nothing: what it ensures holds of all places.

ghost use Rattle.std.specs.Prelude.{◌≡◌, ◌↔◌, ℕ, true, List};
ghost use Rattle.model_core.specs.Rules.MarkedPlaces.{is_marked};
ghost use Rattle.model_core.specs.Rules.Entailed.{entailed_marks};
ghost use Rattle.model_core.specs.Rules.LeastRelations.{Entailed};

/// The places that passes over pairs mark are exactly those of the least set that holds the first ones, and with the first
/// place of a pair the second.
pub fn marks_are_of_entailed_places()
    ensures { (count : ℕ) (first : List ℕ) (pairs : List (ℕ × ℕ)) (k : ℕ)
        → (is_marked (entailed_marks count first pairs) k ≡ true) ↔ Entailed count first pairs k }
{}
