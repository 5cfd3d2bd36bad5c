//! The names of variables, tables and vertices, in one table.

ghost use Rattle.std.specs.Prelude.{◌≡◌, [], ◌∷◌, ◌++◌, IfOk, is_none, if◌then◌else◌};
ghost use Rattle.std.specs.Option.{option_map};
ghost use Rattle.model_core.specs.Static.Meanings.{meaning_of};
ghost use Rattle.sig_types.specs.Seen.{meaning_seen, declaration_of};

use indexmap::IndexMap;
use model_core::Kind;
use sig_base::{Name, NoMemory};
use std::alloc::Global;
use std::marker::Model;

/// What a name means: a variable, a table or a vertex, with its place among those of its kind.
#[derive(Clone, Copy)]
pub enum Meaning {
    Variable {
        var: usize,
        kind: Kind,
        is_array: bool,
    },
    Table(usize),
    Vertex(usize),
}

/// Names with their first declarations, which contracts see as a list of declarations, each at byte 0.
pub struct Names {
    table: IndexMap<Vec<u8>, Meaning>,
}

// Written out, so that a function that lets names go does so by one call.
impl Drop for Names {
    fn drop(self) {
        let Names { table } = self;
        drop(table);
    }
}

impl Model for Names {
    ghost use Rattle.std.specs.Prelude.{List, ℕ, map};
    ghost use Rattle.std.specs.Global.{Vec as Bytes};
    ghost use Rattle.model_core.specs.Static.Meanings.{Declaration};
    ghost use Rattle.sig_types.specs.declared.names.Meaning.{Meaning};
    ghost use Rattle.sig_types.specs.Seen.{declaration_of, meaning_seen};

    ghost Value = { List Declaration };

    ghost view = { λ n. map
        (λ (e : Bytes ℕ × Meaning). declaration_of e.0.items (meaning_seen e.1))
        n.table.entries };
}

impl Names {
    /// No names, with room for so many.
    pub fn with_capacity(alloc: Global, count: usize) -> Result<Names, NoMemory>
        ensures { IfOk result (λ names. names ≡ []) }
    {
        let table = IndexMap::with_capacity(alloc, count)?;
        Ok(Names { table })
    }

    /// What the name that these bytes spell means.
    #[inline(always)]
    pub fn find(&self, name: &[u8]) -> Option<Meaning>
        ensures { option_map meaning_seen result ≡ meaning_of self.now name.now }
    {
        self.table.get(name).copied()
    }

    /// Adds a declaration, which is left out where the name is declared already. Says whether it was new.
    pub fn add(&mut self, alloc: Global, name: &Name, meaning: Meaning) -> Result<bool, NoMemory>
        ensures new { IfOk result (λ added. added ≡ is_none (meaning_of self.old name.now)) }
        ensures names { IfOk result
            (λ added. self.new
            ≡ (if added then self.old
            ++ declaration_of name.now (meaning_seen meaning) ∷ [] else self.old)) }
    {
        let key = Vec::from_slice(alloc, name.as_slice())?;
        let Some(first) = self.table.insert(key, meaning)? else {
            return Ok(true);
        };
        // It was declared already: its first meaning is put back.
        let key = Vec::from_slice(alloc, name.as_slice())?;
        self.table.insert(key, first)?;
        Ok(false)
    }
}
