//! The parts of a vertex, which are checked as they are read: its changes and its edges.

ghost use Rattle.std.specs.Prelude.{◌≡◌, ℕ, Bool, false, List, Option, map, IfOk};
ghost use Rattle.model_core.specs.declared.model.Kind.{Kind as KnownKind};
ghost use Rattle.model_core.specs.Code.Views.{change_of, edge_of};
ghost use Rattle.model_core.specs.EventGraph.{StateChange, EventEdge};
ghost use Rattle.model_core.specs.Text.Written.{WrittenChange, WrittenEdge};
ghost use Rattle.model_core.specs.Text.Expressions.{LanguageFormat};
ghost use Rattle.model_core.specs.Text.Language.{change_format, edge_format};
ghost use Rattle.model_core.specs.Text.Numbering.{Declared};
ghost use Rattle.model_core.specs.Text.Numbering as numbering;
ghost use Rattle.model_core.specs.Static.FaultOrder.{StaticFault};
ghost use Rattle.model_core.specs.Static.Meanings.{Meaning, meaning_of};
ghost use Rattle.text_laws.specs.FirstTokens.{nullable, first_sorts, begins_among};
ghost use Rattle.text_laws.specs.LanguageReader.{level_lookahead};
ghost use Rattle.text_laws.specs.SomeTokens.{change-some, edge-some};
ghost use Rattle.one_pass.specs.Inner.AllFaults.{all_change_faults, all_edge_faults};
ghost use Rattle.one_pass.specs.Inner.ReadParts.{ReadSure, ReadChecked, ReadParts};

use crate::changes::{change, checked_change};
use crate::edges::{checked_edge, edge};
use crate::not_read::NotRead;
use model_core::{Change, Edge, Kind, RawChange, RawEdge};
use model_read::{Cursor, Repeated, packed};
use sig_base::List;
use sig_types::{FirstFault, Names};
use std::alloc::Global;

/// A part that a vertex may have many of.
pub(crate) trait Part: Drop {
    // What is written.
    ghost Written: { Type 0 };

    // What a part represents.
    ghost Plain: { Type 0 };

    ghost plain: { Self → Plain };

    // Which tokens spell it.
    ghost format: { LanguageFormat Written };

    // The static rules that it breaks in a text that is of version 2 or isn't, where names mean this and the vertices take
    // parameters of these kinds.
    ghost faults: { Bool → (List ℕ → Option Meaning) → List (List (Option KnownKind)) → Written → List StaticFault };

    // What is written, with numbers in place of names.
    ghost number: { Declared → Written → Option Plain };

    /// Whether a part comes.
    fn begins(cursor: &Cursor<'_>) -> bool
        ensures { result ≡ begins_among (first_sorts level_lookahead format) cursor.now };

    /// Reads a part that breaks no static rule. Gives up at any other.
    fn take_sure(
        alloc: Global,
        cursor: &mut Cursor<'_>,
        names: &Names,
        taken: &[List<Option<Kind>>],
        is_two: bool,
    ) -> Result<Self, NotRead>
        ensures { IfOk result
            (λ part. ReadSure format (meaning_of names.now)
            (faults is_two (meaning_of names.now) taken.now) number cursor.old cursor.new
            (plain part)) };

    /// Reads a part as it is written, and checks it then.
    fn take_checked(
        alloc: Global,
        cursor: &mut Cursor<'_>,
        names: &Names,
        taken: &[List<Option<Kind>>],
        is_two: bool,
        fault: &mut FirstFault,
    ) -> Result<Self, NotRead>
        ensures { IfOk result
            (λ part. ReadChecked format (meaning_of names.now)
            (faults is_two (meaning_of names.now) taken.now) number fault.old fault.new
            cursor.old cursor.new (plain part)) };

    // It has a token at least.
    ghost some_tokens: { nullable format ≡ false };
}

/// How many parts a list has room for at first, where one comes. Room that isn't used is given back.
const FIRST_ROOM: usize = 16;

/// Reads parts as long as one comes. Where it isn't sure that a part breaks no static rule, it is read once more.
pub(crate) fn take_all<T: Part>(
    alloc: Global,
    cursor: &mut Cursor<'_>,
    names: &Names,
    taken: &[List<Option<Kind>>],
    is_two: bool,
    fault: &mut FirstFault,
) -> Result<List<T>, NotRead>
    ensures { IfOk result
        (λ parts. ReadParts T.format (meaning_of names.now)
        (T.faults is_two (meaning_of names.now) taken.now) T.number fault.old fault.new
        cursor.old cursor.new (map T.plain parts)) }
{
    let room = if T::begins(cursor) { FIRST_ROOM } else { 0 };
    let mut parts = List::from_vec(Vec::with_capacity(alloc, room)?);
    while T::begins(cursor) {
        let begun = cursor.again();
        match T::take_sure(alloc, cursor, names, taken, is_two) {
            Ok(part) => parts.push(part)?,
            Err(NotRead::Unexpected | NotRead::Unsure) => {
                *cursor = begun;
                parts.push(T::take_checked(alloc, cursor, names, taken, is_two, fault)?)?;
            }
            Err(NotRead::NoMemory) => return Err(NotRead::NoMemory),
        }
    }
    Ok(packed(parts))
}

impl Part for Change {
    ghost Written = { WrittenChange };

    ghost Plain = { StateChange };

    ghost plain = { change_of };

    ghost format = { change_format };

    ghost faults = { λ is_two means taken. all_change_faults is_two means };

    ghost number = { numbering.change };

    fn begins(cursor: &Cursor<'_>) -> bool {
        RawChange::begins(cursor)
    }

    fn take_sure(
        alloc: Global,
        cursor: &mut Cursor<'_>,
        names: &Names,
        _taken: &[List<Option<Kind>>],
        is_two: bool,
    ) -> Result<Change, NotRead> {
        change(alloc, cursor, names, is_two)
    }

    fn take_checked(
        alloc: Global,
        cursor: &mut Cursor<'_>,
        names: &Names,
        _taken: &[List<Option<Kind>>],
        is_two: bool,
        fault: &mut FirstFault,
    ) -> Result<Change, NotRead> {
        checked_change(alloc, cursor, names, is_two, fault)
    }

    ghost some_tokens = { change-some };
}

impl Part for Edge {
    ghost Written = { WrittenEdge };

    ghost Plain = { EventEdge };

    ghost plain = { edge_of };

    ghost format = { edge_format };

    ghost faults = { all_edge_faults };

    ghost number = { numbering.edge };

    fn begins(cursor: &Cursor<'_>) -> bool {
        RawEdge::begins(cursor)
    }

    fn take_sure(
        alloc: Global,
        cursor: &mut Cursor<'_>,
        names: &Names,
        taken: &[List<Option<Kind>>],
        is_two: bool,
    ) -> Result<Edge, NotRead> {
        edge(alloc, cursor, names, taken, is_two)
    }

    fn take_checked(
        alloc: Global,
        cursor: &mut Cursor<'_>,
        names: &Names,
        taken: &[List<Option<Kind>>],
        is_two: bool,
        fault: &mut FirstFault,
    ) -> Result<Edge, NotRead> {
        checked_edge(alloc, cursor, names, taken, is_two, fault)
    }

    ghost some_tokens = { edge-some };
}
