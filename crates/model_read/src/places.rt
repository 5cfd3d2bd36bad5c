//! A table of the places of names.

ghost use Rattle.std.specs.Prelude.{◌≡◌, ℕ, None, List, [], ◌∷◌, ◌++◌, map, OnOk, IfOk};
ghost use Rattle.model_core.specs.Code.Views.{variable_of, vertex_of};
ghost use Rattle.model_read.specs.NamesPlaced.{listed_place, with_first, HasPlaces, names_of_vertices, names_of_variables};

use indexmap::IndexMap;
use model_core::{Var, Vertex};
use sig_base::{Name, NoMemory};
use std::alloc::Global;
use std::marker::Model;

/// Names with their first places, which contracts see as a list of both.
pub struct Places {
    table: IndexMap<Vec<u8>, usize>,
}

// Written out, so that a function that lets a table go does so by one call.
impl Drop for Places {
    fn drop(self) {
        let Places { table } = self;
        drop(table);
    }
}

impl Model for Places {
    ghost use Rattle.std.specs.Prelude.{List, ℕ, map};
    ghost use Rattle.std.specs.Global.{Vec as Bytes};

    ghost Value = { List (List ℕ × ℕ) };

    ghost view = { λ p. map (λ (e : Bytes ℕ × ℕ). (e.0.items, e.1)) p.table.entries };
}

impl Places {
    /// The places of vertices.
    pub fn of_vertices(alloc: Global, vertices: &[Vertex]) -> Result<Places, NoMemory>
        ensures { IfOk result
            (λ places. HasPlaces (names_of_vertices (map vertex_of vertices.now)) places) }
    {
        let mut places = Places::with_capacity(alloc, vertices.len())?;
        for (place, vertex) in vertices.iter().enumerate() {
            places.add_first(alloc, &vertex.name, place)?;
        }
        Ok(places)
    }

    /// The places of variables.
    pub fn of_variables(alloc: Global, vars: &[Var]) -> Result<Places, NoMemory>
        ensures { IfOk result
            (λ places. HasPlaces (names_of_variables (map variable_of vars.now)) places) }
    {
        let mut places = Places::with_capacity(alloc, vars.len())?;
        for (place, var) in vars.iter().enumerate() {
            places.add_first(alloc, &var.name, place)?;
        }
        Ok(places)
    }

    /// The place of a name, if it has one.
    pub fn find(&self, name: &[u8]) -> Option<usize>
        ensures { result ≡ listed_place name.now self.now }
    {
        self.table.get(name).copied()
    }

    /// No names, with room for so many.
    fn with_capacity(alloc: Global, count: usize) -> Result<Places, NoMemory>
        ensures { IfOk result (λ places. places ≡ []) }
    {
        let table = IndexMap::with_capacity(alloc, count)?;
        Ok(Places { table })
    }

    /// Adds a name that has no place.
    fn add_new(&mut self, alloc: Global, name: &Name, place: usize) -> Result<(), NoMemory>
        requires new { listed_place name.now self.old ≡ None }
        ensures { OnOk result (self.new ≡ self.old ++ (name.now, place) ∷ []) }
    {
        let key = Vec::from_slice(alloc, name.as_slice())?;
        self.table.insert(key, place)?;
        Ok(())
    }

    /// Adds a name, unless it has a place already.
    fn add_first(&mut self, alloc: Global, name: &Name, place: usize) -> Result<(), NoMemory>
        ensures { OnOk result (self.new ≡ with_first self.old name.now place) }
    {
        if self.find(name.as_slice()).is_none() {
            self.add_new(alloc, name, place)?;
        }
        Ok(())
    }
}
