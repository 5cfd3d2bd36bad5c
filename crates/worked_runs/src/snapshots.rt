//! The grammar of a snapshot: what texts spell, and where they are refused.

ghost use Rattle.std.specs.Prelude.{◌++◌, [], codes};
ghost use Rattle.model_core.specs.Text.SnapshotGrammar.{snapshot_format};
ghost use Rattle.worked_runs.specs.GrammarTexts.{IsSpelled};
ghost use Rattle.worked_runs.specs.SnapshotTexts.{IsNoSnapshotText};
ghost use Rattle.worked_runs.specs.SpelledSnapshots.{until_streams, shortest, each_part, each_part_text, words_for_names, too_large};

/// Each part is at the place of its first token. Streams, values, noted values and events may be
/// left out, `noted` may have no values and an event none, and the words of the grammar may be
/// names. A number above 2^63 - 1 has no value, but an event's values are read from their digits.
pub fn snapshots_are_spelled()
    ensures shortest { IsSpelled snapshot_format
        (codes "snapshot seed 1 2 clk 3 events 4 end # of it") shortest }
    ensures each_part { IsSpelled snapshot_format each_part_text each_part }
    ensures words_for_names { IsSpelled snapshot_format
        (codes "snapshot seed 1 2 clk 3 events 4 value value 5 noted pending 6 7 pending end") words_for_names }
    ensures too_large { IsSpelled snapshot_format
        (codes "snapshot seed 1 2 clk 3 events 4 stream 9223372036854775808 5 value V -9223372036854775808 pending 9223372036854775808 6 A(-9223372036854775808) end") too_large }
{}

/// A text that is no snapshot is refused at the first token that can't be there, or at its end.
pub fn snapshots_are_refused()
    ensures empty { IsNoSnapshotText [] 0 }
    ensures another_word { IsNoSnapshotText (codes "snap seed 1 2 clk 3 events 4 end") 0 }
    ensures capital { IsNoSnapshotText (codes "Snapshot seed 1 2 clk 3 events 4 end") 0 }
    ensures no_seed { IsNoSnapshotText (codes "snapshot clk 3 events 4 end") 9 }
    ensures one_part_of_the_seed { IsNoSnapshotText
        (codes "snapshot seed 1 clk 3 events 4 end") 16 }
    ensures three_parts_of_the_seed { IsNoSnapshotText
        (codes "snapshot seed 1 2 3 clk 3 events 4 end") 18 }
    ensures sign_of_the_seed { IsNoSnapshotText (codes "snapshot seed 1 -2 clk 3 events 4 end") 16 }
    ensures no_clock { IsNoSnapshotText (codes "snapshot seed 1 2 events 4 end") 18 }
    ensures no_events { IsNoSnapshotText (codes "snapshot seed 1 2 clk 3 end") 24 }
    ensures no_end { IsNoSnapshotText (until_streams ++ codes "value N 1") 42 }
    ensures after_the_end { IsNoSnapshotText (until_streams ++ codes "end end") 37 }
    ensures stream_without_words { IsNoSnapshotText (until_streams ++ codes "stream 5 end") 42 }
    ensures sign_of_a_stream { IsNoSnapshotText (until_streams ++ codes "stream -5 6 end") 40 }
    ensures stream_after_values { IsNoSnapshotText
        (until_streams ++ codes "value N 1 stream 5 6 end") 43 }
    ensures value_without_a_name { IsNoSnapshotText (until_streams ++ codes "value 1 end") 39 }
    ensures value_of_a_reserved_word { IsNoSnapshotText
        (until_streams ++ codes "value end 1 end") 39 }
    ensures value_without_values { IsNoSnapshotText (until_streams ++ codes "value N end") 41 }
    ensures values_without_a_comma { IsNoSnapshotText
        (until_streams ++ codes "value N 1 2 end") 43 }
    ensures values_in_parentheses { IsNoSnapshotText (until_streams ++ codes "value N (1) end") 41 }
    ensures comma_after_values { IsNoSnapshotText (until_streams ++ codes "value N 1, end") 44 }
    ensures two_signs { IsNoSnapshotText (until_streams ++ codes "value N --1 end") 42 }
    ensures truth { IsNoSnapshotText (until_streams ++ codes "value N true end") 41 }
    ensures value_after_noted { IsNoSnapshotText
        (until_streams ++ codes "noted 1 value N 1 end") 41 }
    ensures noted_twice { IsNoSnapshotText (until_streams ++ codes "noted 1 noted 1 end") 41 }
    ensures comma_after_noted { IsNoSnapshotText (until_streams ++ codes "noted , end") 39 }
    ensures noted_after_events { IsNoSnapshotText
        (until_streams ++ codes "pending 1 2 A noted end") 47 }
    ensures event_without_priority { IsNoSnapshotText
        (until_streams ++ codes "pending 1 A end") 43 }
    ensures sign_of_ticks { IsNoSnapshotText (until_streams ++ codes "pending -1 2 A end") 41 }
    ensures sign_of_a_priority { IsNoSnapshotText (until_streams ++ codes "pending 1 -2 A end") 43 }
    ensures event_without_a_name { IsNoSnapshotText (until_streams ++ codes "pending 1 2 end") 45 }
    ensures no_values_in_parentheses { IsNoSnapshotText
        (until_streams ++ codes "pending 1 2 B() end") 47 }
    ensures open_parenthesis { IsNoSnapshotText (until_streams ++ codes "pending 1 2 B(1 end") 49 }
    ensures comma_in_parentheses { IsNoSnapshotText
        (until_streams ++ codes "pending 1 2 B(1,) end") 49 }
    ensures values_without_parentheses { IsNoSnapshotText
        (until_streams ++ codes "pending 1 2 B 1 end") 47 }
    ensures semicolon { IsNoSnapshotText (until_streams ++ codes "value N 1; end") 42 }
{}
