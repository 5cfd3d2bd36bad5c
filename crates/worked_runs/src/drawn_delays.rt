//! Delays that are drawn: which words they take, and how the rules and the texts treat them.
#![tactic(auto, unfolding(model_core::specs::Rules::BoundsTable::exact_bounds))]

ghost use Rattle.std.specs.Prelude.{◌≡◌, [], ◌∷◌, Some, None, false, Ok, Err, codes, replicate};
ghost use Rattle.sig_base.specs.declared.fault.FaultKind.TheVariants as faults;
ghost use Rattle.model_core.specs.declared.static_kind.StaticKind.TheVariants as rules;
ghost use Rattle.model_core.specs.EventGraph.{ByTable, Truth, Fixed, Drawn, Schedule, CancelNext, CancelEqual, CancelAll};
ghost use Rattle.model_core.specs.Run.Changes.{one_more};
ghost use Rattle.model_core.specs.Run.Edges.{delay_of};
ghost use Rattle.model_core.specs.Run.LeftByFaults.{left_by_delay};
ghost use Rattle.model_core.specs.Run.Machine.{At, On, Ended, Stopped, Faulted};
ghost use Rattle.model_core.specs.Run.History.{look};
ghost use Rattle.model_core.specs.Text.Canonical.{canonical};
ghost use Rattle.model_core.specs.Static.ModelFaults.{first_fault};
ghost use Rattle.model_core.specs.Rules.Conditions.{first_failed};
ghost use Rattle.model_core.specs.Rules.Merge.{merge_conditions};
ghost use Rattle.model_core.specs.Rules.Needed.{unneeded};
ghost use Rattle.worked_runs.specs.Building.{scalars, showing, whole, schedule, urgent, only_if, plain_edge, one_over_zero};
ghost use Rattle.worked_runs.specs.DrawnModels.{after_draw, one_to_six, below_zero, arriving, drawing_too, twisted, drawn_in};
ghost use Rattle.worked_runs.specs.VersionTexts.{second};
ghost use Rattle.worked_runs.specs.WrittenParts.{static_fault, figure};

/// Each edge that is taken takes the next word of its stream, and one whose condition is false
/// takes none.
#[tactic(auto, unfolding(rand_pcg::specs::Lcg::state_after))]
pub fn delays_are_drawn()
    ensures one_a_turn { look (arriving (after_draw 0 one_to_six ∷ [])) 42 [] 12 1000
        ≡ showing (At 0 (scalars (1 ∷ [])) ∷ At 4 (scalars (2 ∷ [])) ∷ At 7 (scalars (3 ∷ []))
        ∷ At 12 (scalars (4 ∷ [])) ∷ []) Stopped }
    ensures two_in_order { look
        (arriving (after_draw 1 one_to_six ∷ after_draw 2 one_to_six ∷ [])) 42 [] 100 1000
        ≡ showing (At 0 (scalars (1 ∷ [])) ∷ On 3 2 (scalars (1 ∷ []))
        ∷ On 4 1 (scalars (1 ∷ [])) ∷ []) (Ended 4) }
    ensures none_where_it_is_false { look
        (arriving (only_if (Truth false) (after_draw 1 one_to_six)
        ∷ after_draw 2 one_to_six ∷ [])) 42 [] 100 1000
        ≡ showing (At 0 (scalars (1 ∷ [])) ∷ On 4 2 (scalars (1 ∷ [])) ∷ []) (Ended 4) }
    ensures by_a_table { look
        (arriving (after_draw 1 (ByTable 0) ∷ after_draw 2 (ByTable 0) ∷ [])) 42 [] 100 1000
        ≡ showing (At 0 (scalars (1 ∷ [])) ∷ On 2 1 (scalars (1 ∷ []))
        ∷ On 8 2 (scalars (1 ∷ [])) ∷ []) (Ended 8) }
{}

/// A delay below 0 is a fault, before any value is looked at. Its word is taken by then.
#[tactic(auto, unfolding(rand_pcg::specs::Lcg::state_after))]
pub fn drawn_delays_may_fault()
    ensures faults { look (arriving (after_draw 0 below_zero ∷ [])) 42 [] 100 1000
        ≡ showing [] (Faulted 0 faults.NegativeDelay) }
    ensures before_its_values { look
        (arriving (plain_edge (Schedule (Drawn 54 below_zero) 5) 1
        (one_over_zero ∷ []) ∷ [])) 42 [] 100 1000
        ≡ showing [] (Faulted 0 faults.NegativeDelay) }
    ensures delay { delay_of (arriving []) 42 [] 0 (Drawn 54 below_zero) (replicate 64 0)
        ≡ Err faults.NegativeDelay }
    ensures word { left_by_delay (Drawn 54 below_zero) (replicate 64 0)
        ≡ one_more (replicate 64 0) 54 }
{}

/// A delay that isn't drawn takes no word, and no other kind of edge takes or gives back one.
#[tactic(auto, unfolding(rand_pcg::specs::Lcg::state_after))]
pub fn only_drawn_delays_take_words()
    ensures fixed { delay_of (arriving []) 42 [] 0 (Fixed (whole 3)) (replicate 64 0)
        ≡ Ok (record { ticks = 3; taken = replicate 64 0 }) }
    ensures at_once { delay_of (arriving []) 42 [] 0 (Fixed (whole 0)) (replicate 64 0)
        ≡ Ok (record { ticks = 0; taken = replicate 64 0 }) }
    ensures drawn { delay_of (arriving []) 42 [] 0 (Drawn 54 one_to_six) (replicate 64 0)
        ≡ Ok (record { ticks = 4; taken = one_more (replicate 64 0) 54 }) }
    ensures left_by_fixed { left_by_delay (Fixed one_over_zero) (replicate 64 0) ≡ replicate 64 0 }
    ensures between_others { look
        (arriving (after_draw 1 one_to_six ∷ schedule 1 (whole 9) ∷ plain_edge CancelNext 1 []
        ∷ plain_edge CancelEqual 2 [] ∷ plain_edge CancelAll 1 [] ∷ urgent 1
        ∷ after_draw 2 one_to_six ∷ [])) 42 [] 100 1000
        ≡ showing (On 0 1 (scalars (1 ∷ [])) ∷ At 0 (scalars (1 ∷ []))
        ∷ On 3 2 (scalars (1 ∷ [])) ∷ []) (Ended 3) }
{}

/// Two events aren't merged where an edge of the first would take its word before a draw of the
/// second. After it, it may.
#[tactic(auto, unfolding(rand_pcg::specs::Lcg::state_after))]
pub fn drawn_delays_stay_in_order()
    ensures before { first_failed (merge_conditions (twisted (after_draw 2 one_to_six ∷ []) []) 0 1)
        ≡ Some 6 }
    ensures after { first_failed (merge_conditions (twisted [] (after_draw 2 one_to_six ∷ [])) 0 1)
        ≡ None }
    ensures first_word_delays { look (twisted (after_draw 2 one_to_six ∷ []) []) 42 [] 100 1000
        ≡ showing (At 0 (scalars (3 ∷ [])) ∷ []) (Ended 4) }
    ensures second_word_delays { look (twisted [] (after_draw 2 one_to_six ∷ [])) 42 [] 100 1000
        ≡ showing (At 0 (scalars (4 ∷ [])) ∷ []) (Ended 3) }
{}

/// A variable is needed where it is drawn from a stream from which a delay is drawn too.
pub fn streams_of_delays_are_needed()
    ensures of_the_stream { unneeded (drawing_too 54) ≡ [] }
    ensures of_another { unneeded (drawing_too 53) ≡ 1 ∷ [] }
{}

/// A drawn delay needs version 2 of a text, is refused at its word `draw` in any other, and is
/// always printed.
pub fn drawn_delays_need_a_version()
    ensures none { first_fault (drawn_in None) ≡ Some (static_fault rules.VersionNeeded 140) }
    ensures first { first_fault (drawn_in (Some (figure 1 8)))
        ≡ Some (static_fault rules.VersionNeeded 140) }
    ensures second { first_fault (drawn_in second) ≡ None }
    ensures bounds { canonical (arriving (after_draw 0 one_to_six ∷ []))
        ≡ codes "version 2;\nmodel DELAY;\nvar N : 0..9 clip = 0;\ntable T { 8 : 1; 2 : 1; }\nwatch N, A, B;\nvertex RUN {\n  set N := N + 1;\n  schedule RUN after draw from 54 in 1..6;\n}\nvertex A {\n}\nvertex B {\n}\nend\n" }
    ensures table { canonical (arriving (only_if (Truth false) (after_draw 1 (ByTable 0)) ∷ []))
        ≡ codes "version 2;\nmodel DELAY;\nvar N : 0..9 clip = 0;\ntable T { 8 : 1; 2 : 1; }\nwatch N, A, B;\nvertex RUN {\n  set N := N + 1;\n  schedule A after draw from 54 by T when false;\n}\nvertex A {\n}\nvertex B {\n}\nend\n" }
{}
