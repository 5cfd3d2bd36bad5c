//! Pending lists through their trait, with ample memory.

ghost use Rattle.std.specs.Prelude.{◌≡◌, ◌<◌};

use event_heap::HeapPending;
use event_list::{Entry, First, Pending, PlainPending};
use sig_base::{Carried, NoMemory, Steps};
use std::marker::Brand;
use std::mem::forget;
use std::sync::ledger::{Blank, Ledger};
use std::test::*;

/// Schedules an event that carries one value, where there is room for it.
fn put<P: Pending, L: Ledger>(pending: &mut P, first: First, value: i64, steps: &mut Steps<L>) {
    if pending.spare() == 0 || pending.numbered() > 100 || first.vertex >= pending.vertices() {
        return;
    }
    let mut values = Carried::new();
    values.push(value);
    let entry = Entry {
        time: first.time,
        priority: first.priority,
        vertex: first.vertex,
        values,
    };
    pending.schedule(&entry, steps);
}

/// The next event as the list shows it, and the value that it carries. It is taken off.
fn taken<P: Pending, L: Ledger>(pending: &mut P, steps: &mut Steps<L>) -> Option<(First, i64)> {
    let first = pending.first()?;
    let entry = pending.take_first(steps)?;
    Some((first, *entry.values.as_slice().first()?))
}

/// Six events at two times, of which two are cancelled; what is next is asked four times.
fn order<P: Pending, L: Ledger>(
    pending: &mut P,
    blank: Blank,
) -> Result<[Option<(First, i64)>; 4], NoMemory>
    requires name { blank.name ≡ L.name }
    requires parts { blank.parts ≡ L.parts }
    requires some { 0 < blank.parts }
{
    let mut steps: Steps<L> = Steps::begin(blank);
    pending.reserve(6)?;
    for (time, priority, vertex, value) in [
        (2, 7, 0, 1),
        (2, 5, 1, 2),
        (2, 5, 1, 3),
        (1, 9, 2, 4),
        (2, 5, 2, 5),
        (2, 6, 2, 6),
    ] {
        let first = First {
            time,
            priority,
            vertex,
        };
        put(pending, first, value, &mut steps);
    }
    let mut six = Carried::new();
    six.push(6);
    pending.cancel_equal(2, &six, &mut steps);
    pending.cancel_next(1, &mut steps);
    Ok([
        taken(pending, &mut steps),
        taken(pending, &mut steps),
        taken(pending, &mut steps),
        taken(pending, &mut steps),
    ])
}

fn taken_event(time: u64, priority: u8, vertex: usize, value: i64) -> Option<(First, i64)> {
    let first = First {
        time,
        priority,
        vertex,
    };
    Some((first, value))
}

/// Whether these are the four events that aren't cancelled, by time, priority and scheduling.
fn is_in_order(order: &[Option<(First, i64)>; 4]) -> bool {
    order[0] == taken_event(1, 9, 2, 4)
        && order[1] == taken_event(2, 5, 1, 3)
        && order[2] == taken_event(2, 5, 2, 5)
        && order[3] == taken_event(2, 7, 0, 1)
}

#[test]
fn the_next_event_is_first_by_time_priority_and_scheduling(rt: HostRuntime) -> Result<(), Fail> {
    let mut pending = PlainPending::begin(rt.alloc(), 3);
    let order = order::<PlainPending, Brand>(&mut pending, Blank::new(1));
    let left = pending.count();
    forget(pending);
    assert!(rt; is_in_order(&order?));
    assert!(rt; left == 0);
    Ok(())
}

#[test]
fn heaps_give_the_same_order(rt: HostRuntime) -> Result<(), Fail> {
    let mut pending = HeapPending::begin(rt.alloc(), 3)?;
    let order = order::<HeapPending, Brand>(&mut pending, Blank::new(1));
    let left = pending.count();
    forget(pending);
    assert!(rt; is_in_order(&order?));
    assert!(rt; left == 0);
    Ok(())
}
