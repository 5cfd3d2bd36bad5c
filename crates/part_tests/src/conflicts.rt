//! The conflicts in a model of one vertex, with ample memory.

use crate::copies::drawing_model;
use conflict_report::{Pair, Reasons, conflict, conflict_list, conflict_text};
use model_core::Model;
use sig_base::{List, NoMemory, Text};
use std::alloc::Global;
use std::mem::forget;
use std::test::*;

const LINE: &[u8] = b"RUN RUN variables,streams,cancels\n";

/// The vertex writes what it reads, draws, cancels its own events, and is the first one.
const OWN: Reasons = Reasons {
    meet: true,
    variables: true,
    streams: true,
    cancels: true,
};

const OWN_PAIR: Pair = Pair {
    a: 0,
    b: 0,
    reasons: OWN,
};

/// The reasons for which the first vertex is in conflict with itself, if there is one.
fn own_conflict(model: &Model) -> Option<Reasons> {
    if model.vertices.len() == 0 {
        None
    } else {
        Some(conflict(model, 0, 0))
    }
}

#[test]
fn a_vertex_is_in_conflict_with_itself(rt: HostRuntime) -> Result<(), Fail> {
    let model = drawing_model(rt.alloc(), 5)?;
    let found = own_conflict(&model);
    forget(model);
    assert!(rt; found == Some(OWN));
    Ok(())
}

/// The pairs that are in conflict.
fn listed(alloc: Global) -> Result<List<Pair>, NoMemory> {
    let model = drawing_model(alloc, 5)?;
    let pairs = conflict_list(alloc, &model);
    forget(model);
    pairs
}

/// Whether these are the one pair of the first vertex and itself.
fn are_own(pairs: &[Pair]) -> bool {
    pairs.len() == 1 && pairs[0] == OWN_PAIR
}

#[test]
fn its_pair_is_listed(rt: HostRuntime) -> Result<(), Fail> {
    assert!(rt; are_own(listed(rt.alloc())?.as_slice()));
    Ok(())
}

/// A line for each pair that is in conflict.
fn written(alloc: Global) -> Result<Text, NoMemory> {
    let model = drawing_model(alloc, 5)?;
    let text = conflict_text(alloc, &model);
    forget(model);
    text
}

#[test]
fn its_line_is_written(rt: HostRuntime) -> Result<(), Fail> {
    assert!(rt; written(rt.alloc())?.as_slice() == LINE);
    Ok(())
}
