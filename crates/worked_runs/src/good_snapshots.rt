//! Which written snapshots are good for a model, and where one that isn't is refused: both ends of
//! each number, and each place.

ghost use Rattle.std.specs.Prelude.{◌≡◌, [], ◌∷◌, Some, None, codes};
ghost use Rattle.model_core.specs.EventGraph.{WatchedVertex};
ghost use Rattle.model_core.specs.Saved.GoodSnapshots.{bad_at, saved_run};
ghost use Rattle.worked_runs.specs.HarbourModel.{harbour, harbour_watching};
ghost use Rattle.worked_runs.specs.HarbourRuns.{two_pending, two_events_saved, bare_saved};
ghost use Rattle.worked_runs.specs.WrittenParts.{figure, huge, plain_figure, minus_figure, plain_huge, minus_huge};
ghost use Rattle.worked_runs.specs.WrittenSnapshots.{stream_part, words_of, value_part, carried, minus_carried, event_part, numbered_so, bare, taking_streams, with_two_streams, with_values, with_n, with_flags, with_z, with_noted, with_pending, with_run_at, with_a, with_event_of, bad_stream, bad_value, bad_noted, bad_event};

/// The two parts of the seed are below 2^32, the clock is at most 2^48, and the events are at most
/// 2^40. A number above 2^63 - 1 is none of these.
pub fn seed_clock_and_events_have_limits()
    ensures least { bad_at harbour bare ≡ None }
    ensures greatest { bad_at harbour
        (numbered_so (figure 4294967295 14) (figure 4294967295 25) (figure 281474976710656 40)
        (figure 1099511627776 60)) ≡ None }
    ensures seed { bad_at harbour
        (numbered_so (figure 4294967296 14) (figure 0 25) (figure 0 40) (figure 0 60)) ≡ Some 9 }
    ensures seed_too_large { bad_at harbour
        (numbered_so (huge 14) (figure 0 25) (figure 0 40) (figure 0 60)) ≡ Some 9 }
    ensures rest_of_seed { bad_at harbour
        (numbered_so (figure 0 14) (figure 4294967296 25) (figure 0 40) (figure 0 60)) ≡ Some 9 }
    ensures rest_too_large { bad_at harbour
        (numbered_so (figure 0 14) (huge 25) (figure 0 40) (figure 0 60)) ≡ Some 9 }
    ensures clock { bad_at harbour
        (numbered_so (figure 0 14) (figure 0 25) (figure 281474976710657 40) (figure 0 60))
        ≡ Some 20 }
    ensures clock_too_large { bad_at harbour
        (numbered_so (figure 0 14) (figure 0 25) (huge 40) (figure 0 60)) ≡ Some 20 }
    ensures events { bad_at harbour
        (numbered_so (figure 0 14) (figure 0 25) (figure 0 40) (figure 1099511627777 60))
        ≡ Some 30 }
    ensures events_too_large { bad_at harbour
        (numbered_so (figure 0 14) (figure 0 25) (figure 0 40) (huge 60)) ≡ Some 30 }
{}

/// Streams are below 64 and rise, each from the one before it on, and each gave from 1 to 2^52
/// words. The one that doesn't rise is reported itself.
pub fn streams_rise()
    ensures first_and_last { bad_at harbour (with_two_streams 0 63) ≡ None }
    ensures next_to_one_another { bad_at harbour (with_two_streams 62 63) ≡ None }
    ensures beyond { bad_at harbour (with_two_streams 63 64) ≡ Some 50 }
    ensures too_large { bad_at harbour
        (taking_streams (stream_part 40 (huge 47) (figure 1 70) ∷ [])) ≡ Some 40 }
    ensures twice { bad_at harbour (with_two_streams 54 54) ≡ Some 50 }
    ensures falling { bad_at harbour (with_two_streams 54 53) ≡ Some 50 }
    ensures falling_to_the_first { bad_at harbour (with_two_streams 54 0) ≡ Some 50 }
    ensures falling_later { bad_at harbour
        (taking_streams (words_of 40 3 1 ∷ words_of 50 7 1 ∷ words_of 55 6 1 ∷ [])) ≡ Some 55 }
    ensures most_words { bad_at harbour (taking_streams (words_of 40 54 4503599627370496 ∷ []))
        ≡ None }
    ensures one_word_too_many { bad_at harbour
        (taking_streams (words_of 40 54 4503599627370497 ∷ [])) ≡ Some 40 }
    ensures no_word { bad_at harbour (taking_streams (words_of 40 54 0 ∷ [])) ≡ Some 40 }
    ensures words_too_large { bad_at harbour
        (taking_streams (stream_part 40 (figure 54 47) (huge 50) ∷ [])) ≡ Some 40 }
{}

/// There is one `value` part for each variable, in order. Where one is missing at the end, the
/// `end` is reported; one too many, or with another name, is reported itself.
pub fn each_variable_has_its_values()
    ensures none { bad_at harbour (with_values []) ≡ Some 200 }
    ensures last_missing { bad_at harbour
        (with_values
        (value_part 60 (codes "N") (plain_figure 0 68 ∷ [])
        ∷ value_part 70 (codes "FLAGS") (plain_figure 0 82 ∷ plain_figure 0 84 ∷ []) ∷ []))
        ≡ Some 200 }
    ensures first_missing { bad_at harbour
        (with_values
        (value_part 70 (codes "FLAGS") (plain_figure 0 82 ∷ plain_figure 0 84 ∷ [])
        ∷ value_part 90 (codes "Z") (plain_figure 0 98 ∷ []) ∷ [])) ≡ Some 70 }
    ensures another_name { bad_at harbour
        (with_values
        (value_part 60 (codes "Z") (plain_figure 0 68 ∷ [])
        ∷ value_part 70 (codes "FLAGS") (plain_figure 0 82 ∷ plain_figure 0 84 ∷ [])
        ∷ value_part 90 (codes "Z") (plain_figure 0 98 ∷ []) ∷ [])) ≡ Some 60 }
    ensures longer_name { bad_at harbour
        (with_values (value_part 60 (codes "NO") (plain_figure 0 68 ∷ []) ∷ [])) ≡ Some 60 }
    ensures unknown_name_last { bad_at harbour
        (with_values
        (value_part 60 (codes "N") (plain_figure 0 68 ∷ [])
        ∷ value_part 70 (codes "FLAGS") (plain_figure 0 82 ∷ plain_figure 0 84 ∷ [])
        ∷ value_part 90 (codes "X") (plain_figure 0 98 ∷ []) ∷ [])) ≡ Some 90 }
    ensures exchanged { bad_at harbour
        (with_values
        (value_part 60 (codes "N") (plain_figure 0 68 ∷ [])
        ∷ value_part 70 (codes "Z") (plain_figure 0 78 ∷ [])
        ∷ value_part 90 (codes "FLAGS") (plain_figure 0 102 ∷ plain_figure 0 104 ∷ []) ∷ []))
        ≡ Some 70 }
    ensures twice { bad_at harbour
        (with_values
        (value_part 60 (codes "N") (plain_figure 0 68 ∷ [])
        ∷ value_part 65 (codes "N") (plain_figure 0 73 ∷ [])
        ∷ value_part 70 (codes "FLAGS") (plain_figure 0 82 ∷ plain_figure 0 84 ∷ [])
        ∷ value_part 90 (codes "Z") (plain_figure 0 98 ∷ []) ∷ [])) ≡ Some 65 }
    ensures one_too_many { bad_at harbour
        (with_values
        (value_part 60 (codes "N") (plain_figure 0 68 ∷ [])
        ∷ value_part 70 (codes "FLAGS") (plain_figure 0 82 ∷ plain_figure 0 84 ∷ [])
        ∷ value_part 90 (codes "Z") (plain_figure 0 98 ∷ [])
        ∷ value_part 100 (codes "Z") (plain_figure 0 108 ∷ []) ∷ [])) ≡ Some 100 }
{}

/// Each `value` part has as many values as its variable has cells, each in its range and below
/// 2^63.
pub fn values_are_in_range()
    ensures least { bad_at harbour (with_n (minus_figure 3 68 ∷ [])) ≡ None }
    ensures greatest { bad_at harbour (with_n (plain_figure 9 68 ∷ [])) ≡ None }
    ensures below { bad_at harbour (with_n (minus_figure 4 68 ∷ [])) ≡ Some 60 }
    ensures above { bad_at harbour (with_n (plain_figure 10 68 ∷ [])) ≡ Some 60 }
    ensures two_of_a_scalar { bad_at harbour (with_n (plain_figure 1 68 ∷ plain_figure 1 70 ∷ []))
        ≡ Some 60 }
    ensures none_of_a_scalar { bad_at harbour (with_n []) ≡ Some 60 }
    ensures truths { bad_at harbour (with_flags (plain_figure 0 82 ∷ plain_figure 1 84 ∷ []))
        ≡ None }
    ensures no_truth { bad_at harbour (with_flags (plain_figure 2 82 ∷ plain_figure 1 84 ∷ []))
        ≡ Some 70 }
    ensures no_truth_later { bad_at harbour
        (with_flags (plain_figure 0 82 ∷ minus_figure 1 84 ∷ [])) ≡ Some 70 }
    ensures one_of_two { bad_at harbour (with_flags (plain_figure 1 82 ∷ [])) ≡ Some 70 }
    ensures three_of_two { bad_at harbour
        (with_flags (plain_figure 1 82 ∷ plain_figure 0 84 ∷ plain_figure 0 86 ∷ [])) ≡ Some 70 }
    ensures far_below { bad_at harbour (with_z (minus_figure 4611686018427387905 98)) ≡ Some 90 }
    ensures far_above { bad_at harbour (with_z (plain_figure 4611686018427387905 98)) ≡ Some 90 }
    ensures too_large { bad_at harbour (with_z (plain_huge 98)) ≡ Some 90 }
    ensures too_large_below { bad_at harbour (with_z (minus_huge 98)) ≡ Some 90 }
{}

/// `noted` may be left out. If it is there it has one value in range for each watched cell, in the
/// order of the watch list, and none where nothing but vertices is watched.
pub fn noted_values_are_those_watched()
    ensures in_order { bad_at harbour
        (with_noted (plain_figure 0 126 ∷ plain_figure 1 128 ∷ minus_figure 3 130 ∷ [])) ≡ None }
    ensures greatest { bad_at harbour
        (with_noted (plain_figure 1 126 ∷ plain_figure 1 128 ∷ plain_figure 9 130 ∷ [])) ≡ None }
    ensures by_declaration { bad_at harbour
        (with_noted (minus_figure 3 126 ∷ plain_figure 0 128 ∷ plain_figure 1 130 ∷ []))
        ≡ Some 120 }
    ensures below { bad_at harbour
        (with_noted (plain_figure 0 126 ∷ plain_figure 1 128 ∷ minus_figure 4 130 ∷ []))
        ≡ Some 120 }
    ensures above { bad_at harbour
        (with_noted (plain_figure 0 126 ∷ plain_figure 2 128 ∷ plain_figure 0 130 ∷ []))
        ≡ Some 120 }
    ensures too_large { bad_at harbour
        (with_noted (plain_figure 0 126 ∷ plain_figure 1 128 ∷ plain_huge 130 ∷ [])) ≡ Some 120 }
    ensures too_few { bad_at harbour (with_noted (plain_figure 0 126 ∷ plain_figure 1 128 ∷ []))
        ≡ Some 120 }
    ensures too_many { bad_at harbour
        (with_noted (plain_figure 0 126 ∷ plain_figure 1 128 ∷ plain_figure 0 130
        ∷ plain_figure 0 132 ∷ [])) ≡ Some 120 }
    ensures no_value { bad_at harbour (with_noted []) ≡ Some 120 }
    ensures of_no_variable { bad_at (harbour_watching (WatchedVertex 1 ∷ [])) (with_noted [])
        ≡ None }
    ensures one_of_no_variable { bad_at (harbour_watching (WatchedVertex 1 ∷ []))
        (with_noted (plain_figure 0 126 ∷ [])) ≡ Some 120 }
{}

/// Each `pending` part has ticks of at most 2^63 - 1, a priority of at most 255, the name of a
/// vertex and as many values as that has parameters, each from -2^63 to 2^63 - 1. A value need not
/// be in its parameter's range.
pub fn pending_events_are_known()
    ensures least { bad_at harbour (with_run_at (figure 0 138) (figure 0 140)) ≡ None }
    ensures greatest { bad_at harbour
        (with_run_at (figure 9223372036854775807 138) (figure 255 160)) ≡ None }
    ensures ticks { bad_at harbour (with_run_at (figure 9223372036854775808 138) (figure 5 160))
        ≡ Some 130 }
    ensures ticks_too_large { bad_at harbour (with_run_at (huge 138) (figure 5 160)) ≡ Some 130 }
    ensures priority { bad_at harbour (with_run_at (figure 0 138) (figure 256 140)) ≡ Some 130 }
    ensures priority_too_large { bad_at harbour (with_run_at (figure 0 138) (huge 140)) ≡ Some 130 }
    ensures unknown_vertex { bad_at harbour (with_event_of (codes "B") []) ≡ Some 130 }
    ensures variable_for_vertex { bad_at harbour (with_event_of (codes "N") []) ≡ Some 130 }
    ensures one_value_of_none { bad_at harbour (with_event_of (codes "RUN") (carried 0 ∷ []))
        ≡ Some 130 }
    ensures no_value_of_two { bad_at harbour (with_a []) ≡ Some 140 }
    ensures one_value_of_two { bad_at harbour (with_a (carried 0 ∷ [])) ≡ Some 140 }
    ensures three_values_of_two { bad_at harbour (with_a (carried 0 ∷ carried 0 ∷ carried 0 ∷ []))
        ≡ Some 140 }
    ensures ends_of_values { bad_at harbour
        (with_a (minus_carried 9223372036854775808 ∷ carried 9223372036854775807 ∷ [])) ≡ None }
    ensures value_below { bad_at harbour
        (with_a (minus_carried 9223372036854775809 ∷ carried 0 ∷ [])) ≡ Some 140 }
    ensures value_above { bad_at harbour (with_a (carried 9223372036854775808 ∷ carried 0 ∷ []))
        ≡ Some 140 }
    ensures later_value_below { bad_at harbour
        (with_a (carried 0 ∷ minus_carried 9223372036854775809 ∷ [])) ≡ Some 140 }
    ensures later_value_above { bad_at harbour
        (with_a (carried 0 ∷ carried 9223372036854775808 ∷ [])) ≡ Some 140 }
{}

/// Of two parts that are bad the first is reported, also where a variable has no value, which is
/// reported at the `end`.
pub fn the_first_bad_part_is_reported()
    ensures seed_before_clock { bad_at harbour
        (numbered_so (huge 14) (figure 0 25) (huge 40) (figure 0 60)) ≡ Some 9 }
    ensures clock_before_events { bad_at harbour
        (numbered_so (figure 0 14) (figure 0 25) (huge 40) (huge 60)) ≡ Some 20 }
    ensures events_before_streams { bad_at harbour
        (record bare { events = huge 37; streams = bad_stream ∷ [] }) ≡ Some 30 }
    ensures streams_before_values { bad_at harbour
        (record bare { streams = bad_stream ∷ []; values = bad_value ∷ [] }) ≡ Some 40 }
    ensures first_of_two_streams { bad_at harbour (with_two_streams 64 64) ≡ Some 40 }
    ensures values_before_noted { bad_at harbour
        (record bare { values = bad_value ∷ []; noted = Some bad_noted }) ≡ Some 60 }
    ensures noted_before_pending { bad_at harbour
        (record bare { noted = Some bad_noted; pending = bad_event ∷ [] }) ≡ Some 120 }
    ensures first_of_two_events { bad_at harbour
        (with_pending (bad_event ∷ event_part 140 (huge 148) (figure 5 170) (codes "RUN") [] ∷ []))
        ≡ Some 130 }
    ensures value_before_the_end { bad_at harbour (with_values (bad_value ∷ [])) ≡ Some 60 }
    ensures noted_before_the_end { bad_at harbour
        (record bare { values = []; noted = Some bad_noted }) ≡ Some 120 }
    ensures pending_before_the_end { bad_at harbour
        (record bare { values = []; pending = bad_event ∷ [] }) ≡ Some 130 }
{}

/// A good snapshot spells its numbers, the words of each stream, the values in order, and the
/// events in order: the time of each is the clock and its ticks.
pub fn good_snapshots_are_of_runs()
    ensures is_good { bad_at harbour two_pending ≡ None }
    ensures is_saved { saved_run harbour two_pending ≡ two_events_saved }
    ensures bare_is_good { bad_at harbour bare ≡ None }
    ensures of_a_bare_one { saved_run harbour bare ≡ bare_saved }
    ensures nothing_watched { (saved_run harbour (with_noted [])).noted ≡ Some [] }
{}
