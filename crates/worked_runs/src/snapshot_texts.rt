//! The text of a snapshot: a line for each part, in order.

ghost use Rattle.std.specs.Prelude.{◌≡◌, ◌++◌, [], Some, codes};
ghost use Rattle.model_core.specs.Text.SnapshotText.{snapshot_text};
ghost use Rattle.worked_runs.specs.HarbourModel.{harbour};
ghost use Rattle.worked_runs.specs.HarbourRuns.{two_events_saved, bare_saved};
ghost use Rattle.worked_runs.specs.Models.{clock};
ghost use Rattle.worked_runs.specs.SavedExamples.{saved_clock};

/// The seed is written as its quotient by 2^32 and its rest, streams that gave no word are left
/// out, ticks count from the clock on, events are in the order in which they are kept, and lists
/// are joined by commas.
pub fn saved_runs_have_texts()
    ensures of_the_clock { snapshot_text clock saved_clock
        ≡ codes "snapshot\nseed 0 42\nclk 5\nevents 2\nvalue N 2\nnoted 1\npending 5 5 RUN\nend\n" }
    ensures each_line { snapshot_text harbour two_events_saved
        ≡ codes "snapshot\nseed 3 7\nclk 5\nevents 2\nstream 0 4\nstream 54 2\nstream 63 9\nvalue N -3\nvalue FLAGS 1,0\nvalue Z 12\nnoted 0,1,-2\n"
        ++ codes "pending 6 0 A(-9223372036854775808,4)\npending 0 255 RUN\npending 0 9 A(0,-2)\nend\n" }
    ensures bare { snapshot_text harbour bare_saved
        ≡ codes "snapshot\nseed 0 0\nclk 0\nevents 0\nvalue N -3\nvalue FLAGS 0,0\nvalue Z -4611686018427387904\nend\n" }
    ensures nothing_watched { snapshot_text harbour (record bare_saved { noted = Some [] })
        ≡ codes "snapshot\nseed 0 0\nclk 0\nevents 0\nvalue N -3\nvalue FLAGS 0,0\nvalue Z -4611686018427387904\nnoted\nend\n" }
    ensures greatest_seed { snapshot_text harbour
        (record bare_saved { seed = 18446744073709551615 })
        ≡ codes "snapshot\nseed 4294967295 4294967295\nclk 0\nevents 0\nvalue N -3\nvalue FLAGS 0,0\nvalue Z -4611686018427387904\nend\n" }
{}
