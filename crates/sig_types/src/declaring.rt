//! Declarations: each name with what it means, and names that are declared again or are too long.

ghost use Rattle.std.specs.Prelude.{◌≡◌, ℕ, ◌++◌, OnOk, map};
ghost use Rattle.model_core.specs.Code.WrittenViews.{written_name, written_kind, written_variable, written_table, written_vertex};
ghost use Rattle.model_core.specs.Text.Written.{WrittenVariable, WrittenTable, WrittenVertex};
ghost use Rattle.model_core.specs.Static.FaultOrder.{earliest_fault};
ghost use Rattle.model_core.specs.Static.Meanings.{Declaration, declared_kind, variable_declaration, table_declaration, vertex_declaration, declarations_from, meaning_of};
ghost use Rattle.model_core.specs.Static.RuleTable.{name_too_long};
ghost use Rattle.sig_types.specs.Inner.Redeclared.{redeclared};
ghost use Rattle.sig_types.specs.Seen.{meaning_seen};

use crate::first_fault::FirstFault;
use crate::names::{Meaning, Names};
use model_core::{Kind, RawKind, RawName, RawTable, RawVar, RawVertex, StaticKind};
use sig_base::{NAME_MAX, NoMemory};
use std::alloc::Global;

/// A part of a written model that declares a name.
pub trait Declares {
    // What the parts represent.
    ghost Written: { Type 0 };

    // The written part that a part represents.
    ghost written: { Self → Written };

    // What the written part at a place declares.
    ghost declaration: { ℕ → Written → Declaration };

    /// The name that it declares.
    fn name(&self) -> &RawName
        ensures { (place : ℕ)
            → (declaration place (written self.now)).name ≡ written_name result.now };

    /// What its name means, where it is at this place among parts of its kind.
    fn meaning(&self, place: usize) -> Meaning
        ensures { (declaration place (written self.now)).meaning ≡ meaning_seen result };
}

/// Declares names after others, and reports each that is declared already.
pub(crate) fn declare_all<T: Declares>(
    alloc: Global,
    names: &mut Names,
    parts: &[T],
    fault: &mut FirstFault,
) -> Result<(), NoMemory>
    ensures means { OnOk result
        (meaning_of names.new
        ≡ meaning_of (names.old ++ declarations_from T.declaration 0 (map T.written parts.now))) }
    ensures earliest { OnOk result
        (fault.new ≡ earliest_fault fault.old
        (redeclared names.old (declarations_from T.declaration 0 (map T.written parts.now)))) }
{
    for (place, part) in parts.iter().enumerate() {
        let meaning = part.meaning(place);
        let name = part.name();
        let added = names.add(alloc, &name.name, meaning)?;
        fault.note(!added, StaticKind::DuplicateName, name.at);
    }
    Ok(())
}

/// Reports a name that is declared and too long.
pub fn report_long_name(raw: &RawName, fault: &mut FirstFault)
    ensures { fault.new ≡ earliest_fault fault.old (name_too_long (written_name raw.now)) }
{
    let long = raw.name.as_slice().len() > NAME_MAX;
    fault.note(long, StaticKind::NameTooLong, raw.at);
}

/// The kind of a variable.
fn kind_of(raw: &RawKind) -> Kind
    ensures { result ≡ declared_kind (written_kind raw.now) }
{
    match raw {
        RawKind::Truth => Kind::Truth,
        RawKind::Range { .. } => Kind::Range,
    }
}

impl Declares for RawVar {
    ghost Written = { WrittenVariable };

    ghost written = { written_variable };

    ghost declaration = { variable_declaration };

    fn name(&self) -> &RawName {
        &self.name
    }

    fn meaning(&self, place: usize) -> Meaning {
        Meaning::Variable {
            var: place,
            kind: kind_of(&self.kind),
            is_array: self.size.is_some(),
        }
    }
}

impl Declares for RawTable {
    ghost Written = { WrittenTable };

    ghost written = { written_table };

    ghost declaration = { table_declaration };

    fn name(&self) -> &RawName {
        &self.name
    }

    fn meaning(&self, place: usize) -> Meaning {
        Meaning::Table(place)
    }
}

impl Declares for RawVertex {
    ghost Written = { WrittenVertex };

    ghost written = { written_vertex };

    ghost declaration = { vertex_declaration };

    fn name(&self) -> &RawName {
        &self.name
    }

    fn meaning(&self, place: usize) -> Meaning {
        Meaning::Vertex(place)
    }
}
