//! Whether two runs with one seed show that their models don't mean the same.

ghost use Rattle.std.specs.Prelude.{◌≡◌, ◌≤◌, IfOk};
ghost use Rattle.sig_base.specs.declared.limits.TheConstants.{STOP_MAX, EVENTS_MAX};
ghost use Rattle.model_core.specs.Static.Reading.{IsValid};
ghost use Rattle.model_core.specs.Code.Views.{graph_of};
ghost use Rattle.model_pairs.specs.RunsApart.{runs_apart};

use crate::lines_apart::{LinesApart, first_lines_apart};
use crate::shown_run::shown;
use run_control::AllowedStarts;
use sig_base::NoMemory;
use std::alloc::Global;

/// The first line at which the histories of a run of each model differ. The line that a spent budget ends with doesn't count,
/// and where one history is a front of the other there is none. Both histories are kept in memory.
pub fn runs_apart(
    alloc: Global,
    first: &AllowedStarts<'_, '_>,
    second: &AllowedStarts<'_, '_>,
    seed: u64,
    until: u64,
    events: u64,
) -> Result<Option<LinesApart>, NoMemory>
    requires first_valid { IsValid (graph_of first.now.model) }
    requires second_valid { IsValid (graph_of second.now.model) }
    requires one_start { second.now.values ≡ first.now.values }
    requires soon { until ≤ STOP_MAX }
    requires budget { events ≤ EVENTS_MAX }
    ensures { IfOk result
        (λ found. found ≡ runs_apart (graph_of first.now.model) (graph_of second.now.model) seed
        until events first.now.values) }
{
    let one = shown(alloc, first, seed, until, events)?;
    let other = shown(alloc, second, seed, until, events)?;
    first_lines_apart(alloc, one.as_slice(), other.as_slice())
}
