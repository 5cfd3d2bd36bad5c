//! The place of each written part in its text, and the fault of a list with too many parts.

ghost use Rattle.std.specs.Prelude.{◌≡◌, ℕ, map};
ghost use Rattle.model_core.specs.Code.WrittenViews.{written_name, written_variable, written_row, written_table, written_target, written_change, written_edge, written_vertex};
ghost use Rattle.model_core.specs.Text.Written.{WrittenName, WrittenVariable, WrittenRow, WrittenTable, WrittenTarget, WrittenChange, WrittenEdge, WrittenVertex};
ghost use Rattle.model_core.specs.Static.FaultOrder.{earliest_fault};
ghost use Rattle.model_core.specs.Static.PartFaults.{change_place};
ghost use Rattle.model_core.specs.Static.RuleTable.{too_many};

use crate::first_fault::FirstFault;
use model_core::{
    RawChange, RawEdge, RawName, RawRow, RawTable, RawTarget, RawVar, RawVertex, StaticKind,
};

/// A part of a written model that begins at a byte.
pub trait HasPlace {
    // What the parts represent.
    ghost Written: { Type 0 };

    // The written part that a part represents.
    ghost written: { Self → Written };

    // The byte at which a written part begins.
    ghost begins: { Written → ℕ };

    /// The byte at which it begins.
    fn place(&self) -> usize
        ensures { result ≡ begins (written self.now) };
}

/// Reports the first part beyond a limit.
pub fn report_too_many<T: HasPlace>(limit: usize, parts: &[T], fault: &mut FirstFault)
    ensures { fault.new
        ≡ earliest_fault fault.old (too_many limit (map T.begins (map T.written parts.now))) }
{
    if let Some(part) = parts.get(limit) {
        fault.note(true, StaticKind::TooMany, part.place());
    }
}

impl HasPlace for RawName {
    ghost Written = { WrittenName };

    ghost written = { written_name };

    ghost begins = { λ n. n.at };

    fn place(&self) -> usize {
        self.at
    }
}

impl HasPlace for RawVar {
    ghost Written = { WrittenVariable };

    ghost written = { written_variable };

    ghost begins = { λ v. v.at };

    fn place(&self) -> usize {
        self.at
    }
}

impl HasPlace for RawRow {
    ghost Written = { WrittenRow };

    ghost written = { written_row };

    ghost begins = { λ r. r.at };

    fn place(&self) -> usize {
        self.at
    }
}

impl HasPlace for RawTable {
    ghost Written = { WrittenTable };

    ghost written = { written_table };

    ghost begins = { λ t. t.at };

    fn place(&self) -> usize {
        self.at
    }
}

impl HasPlace for RawTarget {
    ghost Written = { WrittenTarget };

    ghost written = { written_target };

    ghost begins = { λ t. t.at };

    fn place(&self) -> usize {
        self.at
    }
}

impl HasPlace for RawChange {
    ghost Written = { WrittenChange };

    ghost written = { written_change };

    ghost begins = { change_place };

    fn place(&self) -> usize {
        match self {
            RawChange::Set { at, .. } | RawChange::Draw { at, .. } => *at,
        }
    }
}

impl HasPlace for RawEdge {
    ghost Written = { WrittenEdge };

    ghost written = { written_edge };

    ghost begins = { λ e. e.at };

    fn place(&self) -> usize {
        self.at
    }
}

impl HasPlace for RawVertex {
    ghost Written = { WrittenVertex };

    ghost written = { written_vertex };

    ghost begins = { λ v. v.at };

    fn place(&self) -> usize {
        self.at
    }
}
