//! The check of the watch list.

ghost use Rattle.std.specs.Prelude.{[], ◌++◌, IfOk, map};
ghost use Rattle.std.specs.List.{flat_map};
ghost use Rattle.model_core.specs.Code.Views.{watched_of};
ghost use Rattle.model_core.specs.Code.WrittenViews.{written_name};
ghost use Rattle.model_core.specs.Text.Numbering as numbering;
ghost use Rattle.model_core.specs.Text.Numbering.{each_numbered};
ghost use Rattle.model_core.specs.Static.Meanings.{AsWatched, meaning_of};
ghost use Rattle.model_core.specs.Static.PartFaults.{use_faults, repeated_names};
ghost use Rattle.static_laws.specs.Checked.{CheckedPart};

use crate::first_fault::FirstFault;
use crate::names::Names;
use crate::repeats::report_repeats;
use crate::uses::watched;
use model_core::{RawName, Watch};
use sig_base::{List, NoMemory};
use std::alloc::Global;

/// The meanings of the names of a watch list.
fn all_watched(
    alloc: Global,
    names: &Names,
    raws: &[RawName],
    fault: &mut FirstFault,
) -> Result<List<Watch>, NoMemory>
    ensures { IfOk result
        (λ ws. CheckedPart (meaning_of names.now) fault.old fault.new
        (flat_map (use_faults (meaning_of names.now) AsWatched) (map written_name raws.now))
        (λ d. each_numbered (numbering.watched d) (map written_name raws.now))
        (map watched_of ws)) }
{
    let mut watch = Vec::with_capacity(alloc, raws.len())?;
    for raw in raws {
        watch.push(watched(names, raw, fault))?;
    }
    Ok(List::from_vec(watch))
}

/// The watch list.
pub(crate) fn watch_list(
    alloc: Global,
    names: &Names,
    raws: &[RawName],
    fault: &mut FirstFault,
) -> Result<List<Watch>, NoMemory>
    ensures { IfOk result
        (λ ws. CheckedPart (meaning_of names.now) fault.old fault.new
        (flat_map (use_faults (meaning_of names.now) AsWatched) (map written_name raws.now)
        ++ repeated_names [] (map written_name raws.now))
        (λ d. each_numbered (numbering.watched d) (map written_name raws.now))
        (map watched_of ws)) }
{
    let watch = all_watched(alloc, names, raws, fault)?;
    report_repeats(alloc, raws, fault)?;
    Ok(watch)
}
