//! The edges of an event, renewed, ordered and joined. The function has an empty body: what it ensures holds of all edges.

ghost use Rattle.std.specs.Prelude.{◌≡◌, ℕ, Bool, List, map, Some};
ghost use Rattle.tree_laws.specs.SumValues.{Valuation};
ghost use Rattle.tree_laws.specs.SumEnds.{Ground, Known};
ghost use Rattle.tree_laws.specs.Meaning.{Meets, Holds};
ghost use Rattle.pair_laws.specs.EdgesNow.{effect_at};
ghost use Rattle.pair_laws.specs.Exchanges.{Tidied};
ghost use Rattle.event_laws.specs.EdgesMade.{EdgeTrees, edge_now};
ghost use Rattle.event_laws.specs.EdgesTidied.{edges_tidied};

/// Edges whose trees were renewed, put in order and joined are edges that were ordered and joined at each moment.
pub fn tidied_edges_are_tidied_at_each_moment()
    ensures { (v : Valuation) (base : Ground) (k : Known) → Meets base v → Holds v k
        → (clk : ℕ) (less : EdgeTrees → EdgeTrees → Bool) (es rs : List EdgeTrees) → edges_tidied base k less es ≡ Some rs
        → Tidied (map (λ t. effect_at clk (edge_now v t)) es) (map (λ t. effect_at clk (edge_now v t)) rs) }
{}
