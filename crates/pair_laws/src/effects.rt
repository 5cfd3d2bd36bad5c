//! Laws of what edges do to the pending list. The functions have empty bodies: what they ensure holds of all models.

ghost use Rattle.std.specs.Prelude.{◌≡◌, ℕ, ℤ, ◌&&◌, IsTrue, true, false, List, [], ◌∷◌, ◌++◌};
ghost use Rattle.std.specs.List.{AllByRecursion};
ghost use Rattle.model_core.specs.EventGraph.{EventGraph, EventVertex};
ghost use Rattle.model_core.specs.Run.State.{State};
ghost use Rattle.model_core.specs.Run.Pending.{Entry, EntryAndRest};
ghost use Rattle.model_core.specs.Run.Step.{occur};
ghost use Rattle.model_core.specs.Saved.DueOrder.{in_due_order};
ghost use Rattle.pair_laws.specs.Effects.{Effect, after_effects, SameEffects, occur_by_effects};
ghost use Rattle.pair_laws.specs.EdgesNow.{EdgeNow, effect_at, may_change_now, joined_edge_now};
ghost use Rattle.pair_laws.specs.Exchanges.{EdgeEffect, effects_made, may_change_places, Exchanged, Ordered, joined_edge, Tidied};

/// An event is what it does to the state and the words, and then its effects on the pending list.
pub fn effects_of_edges()
    ensures { (g : EventGraph) (seed : ℕ) (vertex : EventVertex) (n : EntryAndRest) (s : State) (taken : List ℕ)
        → occur g seed vertex n s taken
        ≡ occur_by_effects g seed vertex n s taken }
{}

/// Of the order of scheduling effects need only the order in which events are next.
pub fn due_order_suffices()
    ensures { (fs : List Effect) (p q : List Entry) → in_due_order p ≡ in_due_order q
        → in_due_order (after_effects fs p) ≡ in_due_order (after_effects fs q) }
{}

/// Edges that may change places, and edges joined, do the same but for the order of scheduling.
pub fn edges_may_change_places()
    ensures exchanged { (ks ls : List EdgeEffect) → Exchanged ks ls → SameEffects (effects_made ks) (effects_made ls) }
    ensures ordered { (ks ls : List EdgeEffect) → Ordered ks ls → SameEffects (effects_made ks) (effects_made ls) }
    ensures one_edge { (front : List EdgeEffect) (a : EdgeEffect) (between : List EdgeEffect) (b : EdgeEffect) (back : List EdgeEffect)
        → (a.holds && b.holds) ≡ false
        → AllByRecursion (λ k. IsTrue (may_change_places k b)) between
        → SameEffects (effects_made (front ++ (a ∷ between ++ b ∷ back))) (effects_made (front ++ (joined_edge a b ∷ between ++ back))) }
    ensures tidied { (ks ls : List EdgeEffect) → Tidied ks ls → SameEffects (effects_made ks) (effects_made ls) }
{}

/// Edges in parts that may change places do so by their effects, and two of one form and target are joined by choosing delay and
/// values.
pub fn edges_at_one_moment()
    ensures may_change { (clk : ℕ) (a b : EdgeNow) → may_change_now a b ≡ true
        → may_change_places (effect_at clk a) (effect_at clk b) ≡ true }
    ensures joins { (clk : ℕ) (a b : EdgeNow) → a.form ≡ b.form → a.target ≡ b.target
        → effect_at clk (joined_edge_now a b) ≡ joined_edge (effect_at clk a) (effect_at clk b) }
{}
