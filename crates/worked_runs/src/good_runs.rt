//! Which saved runs are good for a model: both ends of each number, and each part alone.

ghost use Rattle.std.specs.Prelude.{pos, neg_ℤ, [], ◌∷◌, Some, replicate, slice_set};
ghost use Rattle.model_core.specs.EventGraph.{WatchedVertex};
ghost use Rattle.model_core.specs.Saved.SavedRun.{IsGoodEntry, IsGood};
ghost use Rattle.worked_runs.specs.HarbourModel.{harbour, harbour_watching};
ghost use Rattle.worked_runs.specs.HarbourRuns.{two_events_saved, bare_saved, a_due};
ghost use Rattle.worked_runs.specs.SavedExamples.{due};

/// The seed is below 2^64, the clock at most 2^48 and the events at most 2^40. There are 64
/// streams, and each gave at most 2^52 words.
pub fn numbers_of_good_runs_have_limits()
    ensures whole { IsGood harbour two_events_saved }
    ensures least { IsGood harbour bare_saved }
    ensures greatest { IsGood harbour
        (record bare_saved { seed = 18446744073709551615; clock = 281474976710656; events = 1099511627776 }) }
    ensures seed { IsGood harbour (record bare_saved { seed = 18446744073709551616 }) → ⊥ }
    ensures clock { IsGood harbour (record bare_saved { clock = 281474976710657 }) → ⊥ }
    ensures events { IsGood harbour (record bare_saved { events = 1099511627777 }) → ⊥ }
    ensures most_words { IsGood harbour
        (record bare_saved { taken = slice_set (replicate 64 0) 63 4503599627370496 }) }
    ensures one_word_too_many { IsGood harbour
        (record bare_saved { taken = slice_set (replicate 64 0) 63 4503599627370497 }) → ⊥ }
    ensures one_stream_too_few { IsGood harbour (record bare_saved { taken = replicate 63 0 }) → ⊥ }
    ensures one_stream_too_many { IsGood harbour (record bare_saved { taken = replicate 65 0 })
        → ⊥ }
{}

/// There is one value in range for each cell and, where a note was taken, for each watched cell.
pub fn values_of_good_runs_are_in_range()
    ensures below { IsGood harbour
        (record bare_saved { values = neg_ℤ (pos 4) ∷ pos 0 ∷ pos 0 ∷ pos 0 ∷ [] }) → ⊥ }
    ensures above { IsGood harbour
        (record bare_saved { values = pos 9 ∷ pos 1 ∷ pos 2 ∷ pos 0 ∷ [] }) → ⊥ }
    ensures one_too_few { IsGood harbour (record bare_saved { values = pos 0 ∷ pos 0 ∷ pos 0 ∷ [] })
        → ⊥ }
    ensures one_too_many { IsGood harbour
        (record bare_saved { values = pos 0 ∷ pos 0 ∷ pos 0 ∷ pos 0 ∷ pos 0 ∷ [] }) → ⊥ }
    ensures noted { IsGood harbour
        (record bare_saved { noted = Some (pos 1 ∷ pos 0 ∷ pos 9 ∷ []) }) }
    ensures noted_by_declaration { IsGood harbour
        (record bare_saved { noted = Some (pos 9 ∷ pos 1 ∷ pos 0 ∷ []) }) → ⊥ }
    ensures one_noted_too_few { IsGood harbour
        (record bare_saved { noted = Some (pos 1 ∷ pos 0 ∷ []) }) → ⊥ }
    ensures one_noted_too_many { IsGood harbour
        (record bare_saved { noted = Some (pos 1 ∷ pos 0 ∷ pos 9 ∷ pos 0 ∷ []) }) → ⊥ }
    ensures none_watched { IsGood (harbour_watching (WatchedVertex 0 ∷ []))
        (record bare_saved { noted = Some [] }) }
    ensures one_of_none_watched { IsGood (harbour_watching (WatchedVertex 0 ∷ []))
        (record bare_saved { noted = Some (pos 0 ∷ []) }) → ⊥ }
{}

/// A pending event is due from the clock on and at most 2^63 - 1 later, has a priority of at most
/// 255 and a vertex, and carries a number of 64 bits for each parameter of that.
pub fn events_of_good_runs_may_be_pending()
    ensures now { IsGoodEntry harbour 5 (due 5 255 0) }
    ensures latest { IsGoodEntry harbour 5 (due 9223372036854775812 0 0) }
    ensures before { IsGoodEntry harbour 5 (due 4 5 0) → ⊥ }
    ensures too_late { IsGoodEntry harbour 5 (due 9223372036854775813 5 0) → ⊥ }
    ensures priority { IsGoodEntry harbour 5 (due 5 256 0) → ⊥ }
    ensures no_vertex { IsGoodEntry harbour 5 (due 5 5 2) → ⊥ }
    ensures no_value_of_two { IsGoodEntry harbour 5 (due 5 5 1) → ⊥ }
    ensures ends { IsGoodEntry harbour 5
        (a_due 5 5 (neg_ℤ (pos 9223372036854775808) ∷ pos 9223372036854775807 ∷ [])) }
    ensures below { IsGoodEntry harbour 5 (a_due 5 5 (pos 0 ∷ neg_ℤ (pos 9223372036854775809) ∷ []))
        → ⊥ }
    ensures above { IsGoodEntry harbour 5 (a_due 5 5 (pos 0 ∷ pos 9223372036854775808 ∷ [])) → ⊥ }
    ensures one_too_many { IsGoodEntry harbour 5 (a_due 5 5 (pos 0 ∷ pos 0 ∷ pos 0 ∷ [])) → ⊥ }
    ensures later_one { IsGood harbour
        (record bare_saved { pending = due 0 5 0 ∷ due 0 256 0 ∷ [] }) → ⊥ }
    ensures before_the_clock { IsGood harbour
        (record bare_saved { clock = 5; pending = due 4 5 0 ∷ [] }) → ⊥ }
{}
