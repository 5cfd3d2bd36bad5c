//! Names that occur twice in a list.

ghost use Rattle.std.specs.Prelude.{◌≡◌, [], OnOk, map};
ghost use Rattle.std.specs.List.{list_any};
ghost use Rattle.model_core.specs.Code.WrittenViews.{written_name};
ghost use Rattle.model_core.specs.Text.Lexing.{same_bytes};
ghost use Rattle.model_core.specs.Static.FaultOrder.{earliest_fault};
ghost use Rattle.model_core.specs.Static.PartFaults.{repeated_names};
ghost use Rattle.sig_types.specs.Seen.{bytes_of};

use crate::first_fault::FirstFault;
use indexmap::IndexSet;
use model_core::{RawName, StaticKind};
use sig_base::NoMemory;
use std::alloc::Global;

/// How many names a list may have and still count as short: its names are compared with one another, without a table.
const SHORT_LIST: usize = 8;

/// Whether these bytes are among some names.
fn is_among(raws: &[RawName], name: &[u8]) -> bool
    ensures { result ≡ list_any (same_bytes name.now) (map bytes_of raws.now) }
{
    for raw in raws {
        if name == raw.name.as_slice() {
            return true;
        }
    }
    false
}

/// Reports each name that occurs earlier in a short list.
fn report_few_repeats(raws: &[RawName], fault: &mut FirstFault)
    ensures { fault.new ≡ earliest_fault fault.old (repeated_names [] (map written_name raws.now)) }
{
    for (place, raw) in raws.iter().enumerate() {
        let again = is_among(&raws[..place], raw.name.as_slice());
        fault.note(again, StaticKind::DuplicateName, raw.at);
    }
}

/// Reports each name that occurs earlier in a list of any length.
fn report_many_repeats(
    alloc: Global,
    raws: &[RawName],
    fault: &mut FirstFault,
) -> Result<(), NoMemory>
    ensures { OnOk result
        (fault.new ≡ earliest_fault fault.old (repeated_names [] (map written_name raws.now))) }
{
    let mut earlier = IndexSet::with_capacity(alloc, raws.len())?;
    for raw in raws {
        let added = earlier.insert(raw.name.as_slice())?;
        fault.note(!added, StaticKind::DuplicateName, raw.at);
    }
    Ok(())
}

/// Reports each name that occurs earlier in the list.
pub(crate) fn report_repeats(
    alloc: Global,
    raws: &[RawName],
    fault: &mut FirstFault,
) -> Result<(), NoMemory>
    ensures { OnOk result
        (fault.new ≡ earliest_fault fault.old (repeated_names [] (map written_name raws.now))) }
{
    if raws.len() <= SHORT_LIST {
        report_few_repeats(raws, fault);
        return Ok(());
    }
    report_many_repeats(alloc, raws, fault)
}
