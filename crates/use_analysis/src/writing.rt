//! Whether a variable that a vertex writes passes a test. Nothing here takes memory.
#![tactic(auto, using(model_core::proofs::AmongUses::among_parts))]

ghost use Rattle.std.specs.Prelude.{◌≡◌, map};
ghost use Rattle.std.specs.List.{list_any, flat_map};
ghost use Rattle.model_core.specs.EventGraph.{Location};
ghost use Rattle.model_core.specs.Rules.MarkedPlaces.{is_among};
ghost use Rattle.model_core.specs.Rules.Uses.{change_writes, vertex_writes};
ghost use Rattle.model_core.specs.Code.Views.{location_of, change_of, vertex_of};

use crate::number_test::{Is, NumberTest};
use model_core::{Change, Target, Vertex};

fn one_passes<T: NumberTest>(test: &T, vars: &[usize]) -> bool
    ensures { result ≡ list_any (T.test test.now) vars.now }
{
    for var in vars {
        if test.passes(*var) {
            return true;
        }
    }
    false
}

fn one_target_passes<T: NumberTest>(test: &T, targets: &[Target]) -> bool
    ensures { result
        ≡ list_any (T.test test.now)
        (map (λ (l : Location). l.variable) (map location_of targets.now)) }
{
    for target in targets {
        if test.passes(target.var) {
            return true;
        }
    }
    false
}

fn one_changed_passes<T: NumberTest>(test: &T, change: &Change) -> bool
    ensures { result ≡ list_any (T.test test.now) (change_writes (change_of change.now)) }
{
    match change {
        Change::Set { targets, values: _ } => one_target_passes(test, targets.as_slice()),
        Change::Draw {
            target,
            stream: _,
            choice: _,
        } => test.passes(target.var),
    }
}

fn one_of_changes_passes<T: NumberTest>(test: &T, changes: &[Change]) -> bool
    ensures { result
        ≡ list_any (T.test test.now) (flat_map change_writes (map change_of changes.now)) }
{
    for change in changes {
        if one_changed_passes(test, change) {
            return true;
        }
    }
    false
}

/// Whether a variable that the vertex writes passes.
pub fn one_written_passes<T: NumberTest>(test: &T, vertex: &Vertex) -> bool
    ensures { result ≡ list_any (T.test test.now) (vertex_writes (vertex_of vertex.now)) }
{
    one_passes(test, vertex.params.as_slice())
        || one_of_changes_passes(test, vertex.changes.as_slice())
}

/// Whether a vertex writes a variable: as one of its parameters, or by one of its changes.
pub fn writes_of_vertex(vertex: &Vertex, var: usize) -> bool
    ensures { result ≡ is_among (vertex_writes (vertex_of vertex.now)) var }
{
    one_written_passes(&Is { number: var }, vertex)
}
