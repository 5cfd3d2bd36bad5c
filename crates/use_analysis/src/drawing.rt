//! Whether a random stream from which a change, an edge or a vertex draws passes a test. Nothing here takes memory.
#![tactic(auto, using(model_core::proofs::AmongUses::among_parts))]

ghost use Rattle.std.specs.Prelude.{◌≡◌, [], map};
ghost use Rattle.std.specs.List.{list_any, flat_map};
ghost use Rattle.std.specs.Option.{option_map_or};
ghost use Rattle.model_core.specs.Rules.MarkedPlaces.{is_among};
ghost use Rattle.model_core.specs.Rules.Uses.{change_streams, delay_streams, edge_streams, vertex_streams};
ghost use Rattle.model_core.specs.Code.Views.{change_of, edge_delay_of, edge_kind_of, edge_of, vertex_of};
ghost use Rattle.model_core.specs.EventGraph.{delay_given};

use crate::number_test::{Is, NumberTest};
use model_core::{Change, Delay, Edge, EdgeForm, Vertex};

fn change_passes<T: NumberTest>(test: &T, change: &Change) -> bool
    ensures { result ≡ list_any (T.test test.now) (change_streams (change_of change.now)) }
{
    match change {
        Change::Set {
            targets: _,
            values: _,
        } => false,
        Change::Draw {
            target: _,
            stream,
            choice: _,
        } => test.passes(usize::from(*stream)),
    }
}

fn delay_passes<T: NumberTest>(test: &T, delay: &Delay) -> bool
    ensures { result ≡ list_any (T.test test.now) (delay_streams (edge_delay_of delay.now)) }
{
    match delay {
        Delay::Fixed(_) => false,
        Delay::Drawn { stream, choice: _ } => test.passes(usize::from(*stream)),
    }
}

fn timing_passes<T: NumberTest>(test: &T, form: &EdgeForm) -> bool
    ensures { result
        ≡ list_any (T.test test.now)
        (option_map_or delay_streams (delay_given (edge_kind_of form.now)) []) }
{
    match form {
        EdgeForm::Schedule { delay, priority: _ } => delay_passes(test, delay),
        EdgeForm::Urgent | EdgeForm::CancelNext | EdgeForm::CancelEqual | EdgeForm::CancelAll => {
            false
        }
    }
}

fn one_change_passes<T: NumberTest>(test: &T, changes: &[Change]) -> bool
    ensures { result
        ≡ list_any (T.test test.now) (flat_map change_streams (map change_of changes.now)) }
{
    for change in changes {
        if change_passes(test, change) {
            return true;
        }
    }
    false
}

fn one_edge_passes<T: NumberTest>(test: &T, edges: &[Edge]) -> bool
    ensures { result ≡ list_any (T.test test.now) (flat_map edge_streams (map edge_of edges.now)) }
{
    for edge in edges {
        if timing_passes(test, &edge.form) {
            return true;
        }
    }
    false
}

/// Whether a stream from which the vertex draws, by one of its changes or edges, passes.
pub fn one_stream_passes<T: NumberTest>(test: &T, vertex: &Vertex) -> bool
    ensures { result ≡ list_any (T.test test.now) (vertex_streams (vertex_of vertex.now)) }
{
    one_change_passes(test, vertex.changes.as_slice())
        || one_edge_passes(test, vertex.edges.as_slice())
}

/// Whether a change draws from the stream of this number.
pub fn draws_of_change(change: &Change, stream: u8) -> bool
    ensures { result ≡ is_among (change_streams (change_of change.now)) stream }
{
    let test = Is {
        number: usize::from(stream),
    };
    change_passes(&test, change)
}

/// Whether an edge draws from the stream of this number: whether its delay is drawn from it.
pub fn draws_of_edge(edge: &Edge, stream: u8) -> bool
    ensures { result ≡ is_among (edge_streams (edge_of edge.now)) stream }
{
    let test = Is {
        number: usize::from(stream),
    };
    timing_passes(&test, &edge.form)
}
