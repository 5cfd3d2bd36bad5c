//! The rules that depend on the version of a text.

ghost use Rattle.std.specs.Prelude.{◌≡◌, ◌≤◌, nat_le, cond, map};
ghost use Rattle.std.specs.List.{flat_map};
ghost use Rattle.std.specs.Option.{option_map, option_map_or, option_and_then};
ghost use Rattle.sig_base.specs.declared.limits.TheConstants.{ARRAY_CELLS_MAX as cells_limit};
ghost use Rattle.model_core.specs.Code.WrittenViews.{written_number, written_variable, written_change, written_edge_kind, written_edge, written_vertex, written_model};
ghost use Rattle.model_core.specs.Text.Written.{WrittenEdge};
ghost use Rattle.model_core.specs.Text.Numbering.{natural_of};
ghost use Rattle.model_core.specs.Static.FaultOrder.{earliest_fault};
ghost use Rattle.model_core.specs.Static.PartFaults.{if_written};
ghost use Rattle.model_core.specs.Static.VersionFaults.{is_version_two, number_faults, size_faults_version_1, target_faults_version_1, delay_faults_version_1, vertex_faults_version_1, faults_version_1, counted_cells, cells_faults, version_faults};

use crate::edges::items;
use crate::first_fault::FirstFault;
use crate::numbers::{certain_number, lies_between};
use crate::part_places::report_too_many;
use model_core::{
    RawChange, RawDelay, RawEdge, RawEdgeForm, RawModel, RawNumber, RawVar, RawVertex, StaticKind,
};
use sig_base::{
    ARRAY_CELLS_MAX, ARRAY_CELLS_MAX_VERSION_1, CELLS_MAX, PARAMETERS_MAX_VERSION_1,
    TARGETS_MAX_VERSION_1,
};

/// Whether a text says that it is of version 2.
pub fn is_version_two(raw: &Option<RawNumber>) -> bool
    ensures { result ≡ is_version_two (option_map written_number raw.now) }
{
    match raw {
        Some(raw) => lies_between(2, 2, certain_number(raw.value)),
        None => false,
    }
}

/// Reports an unknown version.
fn report_unknown_version(raw: &Option<RawNumber>, fault: &mut FirstFault)
    ensures { fault.new
        ≡ earliest_fault fault.old (if_written number_faults (option_map written_number raw.now)) }
{
    if let Some(raw) = raw {
        let known = lies_between(1, 2, certain_number(raw.value));
        fault.note(raw.value.is_none(), StaticKind::LiteralTooLarge, raw.at);
        fault.note(!known, StaticKind::VersionUnknown, raw.at);
    }
}

/// Reports an array of more cells than one of version 1 may have, or of none.
fn report_array_size(raw: &RawVar, fault: &mut FirstFault)
    ensures { fault.new
        ≡ earliest_fault fault.old (size_faults_version_1 (written_variable raw.now)) }
{
    if let Some(size) = &raw.size {
        let cells = certain_number(size.value);
        let inside = lies_between(1, ARRAY_CELLS_MAX_VERSION_1 as i128, cells);
        fault.note(!inside, StaticKind::SizeOutside, size.at);
    }
}

/// Reports each of these arrays that has as many.
fn report_array_sizes(raws: &[RawVar], fault: &mut FirstFault)
    ensures { fault.new
        ≡ earliest_fault fault.old
        (flat_map size_faults_version_1 (map written_variable raws.now)) }
{
    for raw in raws {
        report_array_size(raw, fault);
    }
}

/// Reports the first target beyond those that a `set` of version 1 may have.
pub fn report_target_count(raw: &RawChange, fault: &mut FirstFault)
    ensures { fault.new
        ≡ earliest_fault fault.old (target_faults_version_1 (written_change raw.now)) }
{
    match raw {
        RawChange::Set { targets, .. } => {
            report_too_many(TARGETS_MAX_VERSION_1, targets.as_slice(), fault);
        }
        RawChange::Draw { .. } => {}
    }
}

/// Reports it of each of these changes.
fn report_target_counts(raws: &[RawChange], fault: &mut FirstFault)
    ensures { fault.new
        ≡ earliest_fault fault.old
        (flat_map target_faults_version_1 (map written_change raws.now)) }
{
    for raw in raws {
        report_target_count(raw, fault);
    }
}

/// Reports the delay of an edge, at its word `draw`, where it is drawn.
pub fn report_drawn_delay(raw: &RawEdgeForm, fault: &mut FirstFault)
    ensures { fault.new
        ≡ earliest_fault fault.old (delay_faults_version_1 (written_edge_kind raw.now)) }
{
    if let RawEdgeForm::Schedule {
        delay: Some(RawDelay::Drawn { at, .. }),
        ..
    } = raw
    {
        fault.note(true, StaticKind::VersionNeeded, *at);
    }
}

/// Reports it of each of these edges.
fn report_drawn_delays(raws: &[RawEdge], fault: &mut FirstFault)
    ensures { fault.new
        ≡ earliest_fault fault.old
        (flat_map (λ (e : WrittenEdge). delay_faults_version_1 e.kind)
        (map written_edge raws.now)) }
{
    for raw in raws {
        report_drawn_delay(&raw.form, fault);
    }
}

/// Reports the first parameter beyond those that a vertex of version 1 may have, such targets, and delays that are drawn.
fn report_vertex_limits(raw: &RawVertex, fault: &mut FirstFault)
    ensures { fault.new
        ≡ earliest_fault fault.old (vertex_faults_version_1 (written_vertex raw.now)) }
{
    report_too_many(PARAMETERS_MAX_VERSION_1, items(&raw.params), fault);
    report_target_counts(raw.changes.as_slice(), fault);
    report_drawn_delays(raw.edges.as_slice(), fault);
}

/// Reports it of each of these vertices.
fn report_vertices_limits(raws: &[RawVertex], fault: &mut FirstFault)
    ensures { fault.new
        ≡ earliest_fault fault.old
        (flat_map vertex_faults_version_1 (map written_vertex raws.now)) }
{
    for raw in raws {
        report_vertex_limits(raw, fault);
    }
}

/// Reports what passes a limit of version 1, and delays that are drawn.
fn report_version_1(raw: &RawModel, fault: &mut FirstFault)
    ensures { fault.new ≡ earliest_fault fault.old (faults_version_1 (written_model raw.now)) }
{
    report_array_sizes(raw.vars.as_slice(), fault);
    report_vertices_limits(raw.vertices.as_slice(), fault);
}

/// A size, where it is within the limit on one array, and else 0.
fn size_within(value: Option<i64>) -> usize
    ensures is { result
        ≡ option_map_or (λ n. cond (nat_le n cells_limit) n 0)
        (option_and_then natural_of value) 0 }
    ensures within_limit { result ≤ cells_limit }
{
    match value {
        Some(cells) if 0 <= cells && cells <= ARRAY_CELLS_MAX as i64 => cells as usize,
        _ => 0,
    }
}

/// The cells of a variable that count among those of all arrays.
fn cells(raw: &RawVar) -> usize
    ensures is { result ≡ counted_cells (written_variable raw.now) }
    ensures within_limit { result ≤ cells_limit }
{
    match &raw.size {
        Some(size) => size_within(size.value),
        None => 0,
    }
}

/// Reports the first array with which the cells of all arrays are too many.
fn report_all_cells(raws: &[RawVar], fault: &mut FirstFault)
    ensures { fault.new
        ≡ earliest_fault fault.old (cells_faults 0 (map written_variable raws.now)) }
{
    let mut before = 0;
    for raw in raws {
        before += cells(raw);
        if before > CELLS_MAX {
            fault.note(true, StaticKind::TooMany, raw.at);
            return;
        }
    }
}

/// Reports an unknown version, and what a text of the version may not have.
pub fn report_version(raw: &RawModel, fault: &mut FirstFault)
    ensures { fault.new ≡ earliest_fault fault.old (version_faults (written_model raw.now)) }
{
    report_unknown_version(&raw.version, fault);
    if is_version_two(&raw.version) {
        report_all_cells(raw.vars.as_slice(), fault);
    } else {
        report_version_1(raw, fault);
    }
}
