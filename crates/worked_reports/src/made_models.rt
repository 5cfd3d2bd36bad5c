//! The model that a number makes: the four forms of a vertex, and a whole model.

ghost use Rattle.std.specs.Prelude.{◌≡◌, [], ◌∷◌, codes};
ghost use Rattle.model_core.specs.EventGraph.{Scalar, Below, AtLeast, Above, WatchedVariable};
ghost use Rattle.model_gen.specs.Generated.{counter, gap, picked_below, vertex_by, generated_vertex, generated};
ghost use Rattle.worked_runs.specs.Building.{ranged, clipped, whole, set, draw, schedule, urgent, only_if, event, plus_one, scalar_is};

/// The counter that a vertex raises, a draw in the first and the last form, and the edges of each
/// form: to the vertex picked, to the next one, and from the last one back to the first.
pub fn vertices_have_forms()
    ensures first { vertex_by 7 4 5 0 2
        ≡ event (codes "E4") (set 5 (plus_one 5) ∷ draw 8 54 1 6 ∷ [])
        (schedule 2 (Scalar 8) ∷ []) }
    ensures second { vertex_by 7 4 5 1 2
        ≡ event (codes "E4") (set 5 (plus_one 5) ∷ []) (urgent 5 ∷ []) }
    ensures second_before_the_last { vertex_by 7 5 5 1 2
        ≡ event (codes "E5") (set 5 (plus_one 5) ∷ []) (urgent 6 ∷ []) }
    ensures second_of_the_last { vertex_by 7 6 5 1 2
        ≡ event (codes "E6") (set 5 (plus_one 5) ∷ []) (schedule 0 (whole 2) ∷ []) }
    ensures third { vertex_by 7 4 5 2 3 ≡ event (codes "E4") (set 5 (plus_one 5) ∷ [])
        (only_if (scalar_is Below 0 50) (schedule 3 (whole 3))
        ∷ only_if (scalar_is AtLeast 0 50) (schedule 0 (whole 9)) ∷ []) }
    ensures fourth { vertex_by 7 4 5 3 2
        ≡ event (codes "E4") (set 5 (plus_one 5) ∷ draw 8 54 1 6 ∷ [])
        (only_if (scalar_is Above 1 99) (schedule 2 (whole 1))
        ∷ only_if (scalar_is Below 1 100) (schedule 5 (Scalar 8)) ∷ []) }
    ensures fourth_of_the_last { vertex_by 7 6 5 3 2
        ≡ event (codes "E6") (set 5 (plus_one 5) ∷ draw 8 54 1 6 ∷ [])
        (only_if (scalar_is Above 1 99) (schedule 2 (whole 1))
        ∷ only_if (scalar_is Below 1 100) (schedule 0 (Scalar 8)) ∷ []) }
{}

/// Each vertex takes three words of stream 54, for one of eight counters, one of four forms and one
/// of the vertices. The first six of them under seed 42 pick 5, 1 and 1, and 4, 2 and 1.
#[tactic(auto, unfolding(rand_pcg::specs::Lcg::state_after))]
pub fn words_make_vertices()
    ensures counter_of_the_first { picked_below 42 0 8 ≡ 5 }
    ensures form_of_the_first { picked_below 42 1 4 ≡ 1 }
    ensures vertex_of_the_first { picked_below 42 2 2 ≡ 1 }
    ensures counter_of_the_second { picked_below 42 3 8 ≡ 4 }
    ensures form_of_the_second { picked_below 42 4 4 ≡ 2 }
    ensures vertex_of_the_second { picked_below 42 5 2 ≡ 1 }
    ensures first { generated_vertex 42 2 0 ≡ vertex_by 2 0 5 1 1 }
    ensures second { generated_vertex 42 2 1 ≡ vertex_by 2 1 4 2 1 }
    ensures one_of_100 { generated_vertex 42 100 1 ≡ vertex_by 100 1 4 2 79 }
{}

/// The variables are C0 to C7 and GAP, C0 and C1 are watched, and there are as many vertices as are
/// asked for.
pub fn numbers_make_models()
    ensures counters { counter 7 ≡ clipped (ranged (codes "C7") 0 99 0) }
    ensures gap { gap ≡ ranged (codes "GAP") 1 6 1 }
    ensures of_two { generated 42 2 ≡ record {
      name = codes "TRIAL";
      variables = clipped (ranged (codes "C0") 0 99 0) ∷ clipped (ranged (codes "C1") 0 99 0)
          ∷ clipped (ranged (codes "C2") 0 99 0) ∷ clipped (ranged (codes "C3") 0 99 0)
          ∷ clipped (ranged (codes "C4") 0 99 0) ∷ clipped (ranged (codes "C5") 0 99 0)
          ∷ clipped (ranged (codes "C6") 0 99 0) ∷ clipped (ranged (codes "C7") 0 99 0)
          ∷ ranged (codes "GAP") 1 6 1 ∷ [];
      tables = [];
      watch = WatchedVariable 0 ∷ WatchedVariable 1 ∷ [];
      vertices = event (codes "E0") (set 5 (plus_one 5) ∷ []) (urgent 1 ∷ [])
          ∷ event (codes "E1") (set 4 (plus_one 4) ∷ [])
          (only_if (scalar_is Below 0 50) (schedule 1 (whole 3))
          ∷ only_if (scalar_is AtLeast 0 50) (schedule 0 (whole 9)) ∷ []) ∷ [];
    } }
{}
