//! Edges, which are checked as they are read. Where an edge breaks a static rule these functions give up, but for the last
//! one, which reports the rule.

ghost use Rattle.std.specs.Prelude.{◌≡◌, ℕ, pos, Bool, true, cond, List, [], Option, Some, IfOk, OnOk};
ghost use Rattle.model_core.specs.declared.model.Kind.{Kind as KnownKind};
ghost use Rattle.model_core.specs.declared.model.Kind.TheVariants as kinds;
ghost use Rattle.model_core.specs.declared.token.Word.TheVariants.{After, Priority};
ghost use Rattle.model_core.specs.EventGraph.{Fixed, Number, Truth};
ghost use Rattle.model_core.specs.Code.Views.{expression_of, edge_delay_of, edge_of};
ghost use Rattle.model_core.specs.Code.WrittenViews.{written_number, written_edge};
ghost use Rattle.model_core.specs.Text.Format.{reserved, any_number, ◌*>◌, maybe};
ghost use Rattle.model_core.specs.Text.Language.{when_format, delay_format, schedule_format, urgent_format, edge_format};
ghost use Rattle.model_core.specs.Text.Numbering as numbering;
ghost use Rattle.model_core.specs.Text.Numbering.{written_or, natural};
ghost use Rattle.model_core.specs.Static.FaultOrder.{earliest_fault};
ghost use Rattle.model_core.specs.Static.Meanings.{Meaning, meaning_of};
ghost use Rattle.model_core.specs.Static.PartFaults.{if_written, operand_faults, priority_faults};
ghost use Rattle.model_core.specs.Static.VersionFaults.{delay_faults_version_1};
ghost use Rattle.one_pass.specs.Inner.AllFaults.{all_delay_faults, all_edge_faults};
ghost use Rattle.one_pass.specs.Inner.ReadParts.{ReadSure, ReadChecked};

use crate::changes::source;
use crate::destination::read_destination;
use crate::not_read::NotRead;
use crate::refusing::refuse_fault;
use crate::values::value;
use model_core::{Delay, Edge, EdgeForm, Expr, Kind, RawEdge, RawNumber, StaticKind, Symbol, Word};
use model_read::{Cursor, Phrase};
use sig_base::{HeldValue, List};
use sig_types::{FirstFault, Names, bounded, report_drawn_delay};
use std::alloc::Global;

/// Reads a delay. The word `draw` decides its form, which needs version 2.
fn delay(
    alloc: Global,
    cursor: &mut Cursor<'_>,
    names: &Names,
    is_two: bool,
) -> Result<Delay, NotRead>
    ensures { (taken : List (List (Option KnownKind)))
        → IfOk result
        (λ w. ReadSure delay_format (meaning_of names.now)
        (all_delay_faults is_two (meaning_of names.now) taken) numbering.delay cursor.old
        cursor.new (edge_delay_of w)) }
{
    if cursor.begins_word(Word::Draw) {
        if !is_two {
            return Err(NotRead::Unsure);
        }
        cursor.word(Word::Draw)?;
        let (stream, choice) = source(alloc, cursor, names)?;
        return Ok(Delay::Drawn { stream, choice });
    }
    let expr = value(alloc, cursor, names, Some(Kind::Range))?;
    Ok(Delay::Fixed(expr))
}

/// Reads the delay of an edge: 0 where none is written.
fn after(
    alloc: Global,
    cursor: &mut Cursor<'_>,
    names: &Names,
    is_two: bool,
) -> Result<Delay, NotRead>
    ensures { (taken : List (List (Option KnownKind)))
        → IfOk result
        (λ w. ReadSure (maybe (reserved After *> delay_format)) (meaning_of names.now)
        (if_written (all_delay_faults is_two (meaning_of names.now) taken))
        (λ d. written_or (numbering.delay d) (Fixed (Number (pos 0)))) cursor.old cursor.new
        (edge_delay_of w)) }
{
    if !cursor.begins_word(Word::After) {
        return Ok(Delay::Fixed(Expr::Int(0)));
    }
    cursor.word(Word::After)?;
    let delay = delay(alloc, cursor, names, is_two)?;
    Ok(delay)
}

/// A priority within its limits.
fn within(raw: &RawNumber) -> Result<u8, NotRead>
    ensures unbroken { OnOk result (priority_faults (written_number raw.now) ≡ []) }
    ensures numbers { IfOk result (λ p. natural (written_number raw.now) ≡ Some p) }
{
    let mut fault = FirstFault::new();
    let priority = bounded(raw, 1, 255, StaticKind::PriorityOutside, &mut fault);
    refuse_fault(&fault)?;
    Ok(priority as u8)
}

/// Reads the priority of an edge: 5 where none is written.
fn priority(cursor: &mut Cursor<'_>) -> Result<u8, NotRead>
    ensures { (means : List ℕ → Option Meaning)
        → IfOk result
        (λ p. ReadSure (maybe (reserved Priority *> any_number)) means (if_written priority_faults)
        (λ d. written_or natural 5) cursor.old cursor.new p) }
{
    if !cursor.begins_word(Word::Priority) {
        return Ok(5);
    }
    cursor.word(Word::Priority)?;
    let raw = cursor.number()?;
    let priority = within(&raw)?;
    Ok(priority)
}

/// Reads the condition of an edge: true where none is written.
fn condition(alloc: Global, cursor: &mut Cursor<'_>, names: &Names) -> Result<Expr, NotRead>
    ensures { IfOk result
        (λ e. ReadSure (maybe when_format) (meaning_of names.now)
        (if_written (operand_faults (meaning_of names.now) (Some kinds.Truth)))
        (λ d. written_or (numbering.expression d) (Truth true)) cursor.old cursor.new
        (expression_of e)) }
{
    if !cursor.begins_word(Word::When) {
        return Ok(Expr::Truth(true));
    }
    cursor.word(Word::When)?;
    let condition = value(alloc, cursor, names, Some(Kind::Truth))?;
    Ok(condition)
}

/// Reads an edge that schedules.
fn schedule(
    alloc: Global,
    cursor: &mut Cursor<'_>,
    names: &Names,
    taken: &[List<Option<Kind>>],
    is_two: bool,
) -> Result<Edge, NotRead>
    ensures { IfOk result
        (λ e. ReadSure schedule_format (meaning_of names.now)
        (all_edge_faults is_two (meaning_of names.now) taken.now) numbering.edge cursor.old
        cursor.new (edge_of e)) }
{
    cursor.word(Word::Schedule)?;
    let carried = read_destination(alloc, cursor, names, taken)?;
    let delay = HeldValue::of(after(alloc, cursor, names, is_two)?);
    let priority = priority(cursor)?;
    let condition = HeldValue::of(condition(alloc, cursor, names)?);
    cursor.symbol(Symbol::Semicolon)?;
    Ok(Edge {
        target: carried.target,
        values: carried.values,
        condition: condition.free(),
        form: EdgeForm::Schedule {
            delay: delay.free(),
            priority,
        },
    })
}

/// Reads an urgent edge.
fn urgent(
    alloc: Global,
    cursor: &mut Cursor<'_>,
    names: &Names,
    taken: &[List<Option<Kind>>],
) -> Result<Edge, NotRead>
    ensures { (is_two : Bool)
        → IfOk result
        (λ e. ReadSure urgent_format (meaning_of names.now)
        (all_edge_faults is_two (meaning_of names.now) taken.now) numbering.edge cursor.old
        cursor.new (edge_of e)) }
{
    cursor.word(Word::Urgent)?;
    let carried = read_destination(alloc, cursor, names, taken)?;
    let condition = HeldValue::of(condition(alloc, cursor, names)?);
    cursor.symbol(Symbol::Semicolon)?;
    Ok(Edge {
        target: carried.target,
        values: carried.values,
        condition: condition.free(),
        form: EdgeForm::Urgent,
    })
}

/// Reads an edge that breaks no static rule. Gives up at one that cancels, which is rare.
pub(crate) fn edge(
    alloc: Global,
    cursor: &mut Cursor<'_>,
    names: &Names,
    taken: &[List<Option<Kind>>],
    is_two: bool,
) -> Result<Edge, NotRead>
    ensures { IfOk result
        (λ e. ReadSure edge_format (meaning_of names.now)
        (all_edge_faults is_two (meaning_of names.now) taken.now) numbering.edge cursor.old
        cursor.new (edge_of e)) }
{
    if cursor.begins_word(Word::Schedule) {
        schedule(alloc, cursor, names, taken, is_two)
    } else if cursor.begins_word(Word::Urgent) {
        urgent(alloc, cursor, names, taken)
    } else {
        Err(NotRead::Unsure)
    }
}

/// Reports what an edge breaks in a text that isn't of version 2.
fn report_delay(is_two: bool, raw: &RawEdge, fault: &mut FirstFault)
    ensures { fault.new ≡ earliest_fault fault.old
        (cond is_two [] (delay_faults_version_1 (written_edge raw.now).kind)) }
{
    if !is_two {
        report_drawn_delay(&raw.form, fault);
    }
}

/// Reads an edge as it is written, and checks it then.
pub(crate) fn checked_edge(
    alloc: Global,
    cursor: &mut Cursor<'_>,
    names: &Names,
    taken: &[List<Option<Kind>>],
    is_two: bool,
    fault: &mut FirstFault,
) -> Result<Edge, NotRead>
    ensures { IfOk result
        (λ e. ReadChecked edge_format (meaning_of names.now)
        (all_edge_faults is_two (meaning_of names.now) taken.now) numbering.edge fault.old
        fault.new cursor.old cursor.new (edge_of e)) }
{
    let raw = RawEdge::read(alloc, cursor)?;
    let edge = sig_types::edge(alloc, names, taken, &raw, fault)?;
    report_delay(is_two, &raw, fault);
    Ok(edge)
}
