//! Runs over the plain list and over heaps, which write the same bytes: models whose histories are
//! known, and many small ones.

ghost use Rattle.std.specs.Prelude.{◌≡◌, ◌<◌, [], length};
ghost use Rattle.model_core.specs.Code.Views.{graph_of};
ghost use Rattle.run_control.specs.PossibleModel.{PossibleModel};

use crate::small_models::{CLOCK, CUT, DICE, Refused, model_of};
use event_heap::HeapPending;
use event_list::{Pending, PlainPending};
use model_core::Model;
use run_control::{Run, kept_models_can_be_run};
use sig_base::{List, MemorySink, NoMemory, Steps};
use std::alloc::Global;
use std::marker::Brand;
use std::mem::forget;
use std::sync::ledger::{Blank, Ledger};
use std::test::*;
use watch_trace::{Outcome, Tracer, follow};

/// Writes the history of a run with the seed 42 over an empty list with room for one event, and
/// answers what it comes to.
fn history_over<P: Pending + Drop, L: Ledger>(
    alloc: Global,
    model: &Model,
    pending: P,
    starts: &List<i64>,
    until: u16,
    events: u16,
    sink: &mut MemorySink,
    blank: Blank,
) -> Result<Outcome, Refused>
    requires possible { PossibleModel (graph_of model.now) }
    requires empty { P.entries pending ≡ [] }
    requires fresh { P.numbered pending ≡ 0 }
    requires made_for { P.vertices pending ≡ length model.now.vertices }
    requires name { blank.name ≡ L.name }
    requires parts { blank.parts ≡ L.parts }
    requires some { 0 < blank.parts }
{
    let mut steps: Steps<L> = Steps::begin(blank);
    let mut tracer = Tracer::begin(alloc, model)?;
    let mut run = Run::begin(alloc, model, pending, 42, starts, 0)?;
    let outcome = follow(
        &mut tracer,
        &mut run,
        u64::from(until),
        u64::from(events),
        sink,
        &mut steps,
    );
    forget(run);
    forget(tracer);
    Ok(outcome)
}

/// The outcomes of runs of a model, and what they write: over the plain list, and over heaps.
fn histories_over_both(
    alloc: Global,
    model: &Model,
    starts: &List<i64>,
    until: u16,
    events: u16,
    plain: &mut MemorySink,
    heaped: &mut MemorySink,
) -> Result<(Outcome, Outcome), Refused>
    requires { PossibleModel (graph_of model.now) }
{
    let vertices = model.vertices.len();
    let pending = PlainPending::begin(alloc, vertices);
    let one = history_over::<PlainPending, Brand>(
        alloc,
        model,
        pending,
        starts,
        until,
        events,
        plain,
        Blank::new(1),
    )?;
    let pending = HeapPending::begin(alloc, vertices)?;
    let other = history_over::<HeapPending, Brand>(
        alloc,
        model,
        pending,
        starts,
        until,
        events,
        heaped,
        Blank::new(1),
    )?;
    Ok((one, other))
}

/// The same for the model that a text reads as.
fn both_histories(
    alloc: Global,
    text: &[u8],
    starts: &List<i64>,
    until: u16,
    events: u16,
    plain: &mut MemorySink,
    heaped: &mut MemorySink,
) -> Result<(Outcome, Outcome), Refused> {
    let model = model_of(alloc, text)?;
    kept_models_can_be_run();
    let outcomes = histories_over_both(alloc, &model, starts, until, events, plain, heaped);
    forget(model);
    outcomes
}

/// A text, the starting values of its model, a stop time, a budget of events, and what is written
/// of a run with the seed
/// 42.
struct Known {
    text: &'static [u8],
    starts: &'static [i64],
    until: u16,
    events: u16,
    written: &'static [u8],
}

const KNOWN: [Known; 21] = [
    Known {
        text: CLOCK,
        starts: &[],
        until: 12,
        events: 1000,
        written: b"at 0 N=1\nat 5 N=2\nat 10 N=3\nstopped 12\n",
    },
    Known {
        text: CLOCK,
        starts: &[],
        until: 0,
        events: 1000,
        written: b"at 0 N=1\nstopped 0\n",
    },
    Known {
        text: CLOCK,
        starts: &[],
        until: 12,
        events: 2,
        written: b"at 0 N=1\nbudget 2\n",
    },
    Known {
        text: CLOCK,
        starts: &[],
        until: 1000,
        events: 1000,
        written: b"at 0 N=1\nat 5 N=2\nat 10 N=3\nstopped 1000\n",
    },
    Known {
        text: b"model CLOCK;var N:0..3=0;watch N;vertex RUN{set N:=N+1;schedule RUN after 5;}end",
        starts: &[],
        until: 1000,
        events: 1000,
        written: b"at 0 N=1\nat 5 N=2\nat 10 N=3\nfault 15 range\n",
    },
    Known {
        text: b"model BANK;var QUEUE:0..1000000=0;var IDLE:0..2=0;var GAP:1..6=1;watch QUEUE,IDLE;vertex RUN(IDLE){urgent ENTER;}vertex ENTER{set QUEUE:=QUEUE+1;draw GAP from 54 in 1..6;schedule ENTER after GAP;urgent START when IDLE>0;}vertex START{set QUEUE,IDLE:=QUEUE-1,IDLE-1;schedule LEAVE after 7;}vertex LEAVE{set IDLE:=IDLE+1;urgent START when QUEUE>0;}end",
        starts: &[1],
        until: 16,
        events: 1000,
        written: b"at 0 QUEUE=0 IDLE=0\nat 4 QUEUE=1 IDLE=0\nat 12 QUEUE=2 IDLE=0\nat 14 QUEUE=1 IDLE=0\nat 16 QUEUE=2 IDLE=0\nstopped 16\n",
    },
    Known {
        text: b"model CHAIN;var N:0..9=0;watch N;vertex RUN{urgent A;}vertex A{set N:=1;urgent B;}vertex B{set N:=2;}end",
        starts: &[],
        until: 100,
        events: 1000,
        written: b"at 0 N=2\nended 0\n",
    },
    Known {
        text: b"model LOOP;vertex RUN{urgent A;}vertex A{urgent B;}vertex B{urgent A;}end",
        starts: &[],
        until: 100,
        events: 50,
        written: b"budget 50\n",
    },
    Known {
        text: b"model DRAWN;var X:1..6=1;var Y:1..6=1;watch X;vertex RUN{draw Y from 54 in 1..6;draw X from 54 in 1..6;}end",
        starts: &[],
        until: 100,
        events: 1000,
        written: b"at 0 X=3\nended 0\n",
    },
    Known {
        text: b"model DRAWN;var X:1..6=1;var Y:1..6=1;watch X;vertex RUN{draw Y from 53 in 1..6;draw X from 54 in 1..6;}end",
        starts: &[],
        until: 100,
        events: 1000,
        written: b"at 0 X=4\nended 0\n",
    },
    Known {
        text: CUT,
        starts: &[],
        until: 100,
        events: 1000,
        written: b"at 0 X=0\non 5 B X=4\nat 5 X=4\non 6 B X=3\nat 6 X=3\nended 6\n",
    },
    Known {
        text: b"model CUT;var X:0..9=0;watch X,B;vertex RUN{schedule B(3)after 5;schedule B(4)after 5;schedule B(3)after 6;cancel B(3);cancel B(3);cancel B(3);}vertex B(X){}end",
        starts: &[],
        until: 100,
        events: 1000,
        written: b"at 0 X=0\non 5 B X=4\nat 5 X=4\nended 5\n",
    },
    Known {
        text: b"model CUT;var X:0..9=0;watch X,B;vertex RUN{schedule B(3)after 5;schedule B(4)after 5;schedule B(3)after 6;cancel all B;}vertex B(X){}end",
        starts: &[],
        until: 100,
        events: 1000,
        written: b"at 0 X=0\nended 0\n",
    },
    Known {
        text: b"model LATER;watch A,B;vertex RUN{schedule A after 2 priority 7;schedule B after 2;}vertex A{}vertex B{}end",
        starts: &[],
        until: 100,
        events: 1000,
        written: b"at 0\non 2 B\non 2 A\nended 2\n",
    },
    Known {
        text: b"model ALIKE;watch A,B;vertex RUN{schedule A after 2;schedule B after 2;}vertex A{}vertex B{}end",
        starts: &[],
        until: 100,
        events: 1000,
        written: b"at 0\non 2 A\non 2 B\nended 2\n",
    },
    Known {
        text: b"model NEXT;watch A,B;vertex RUN{schedule B after 3;schedule B after 2;cancel B;}vertex A{}vertex B{}end",
        starts: &[],
        until: 100,
        events: 1000,
        written: b"at 0\non 3 B\nended 3\n",
    },
    Known {
        text: b"model BACK;vertex RUN{schedule RUN after 0-1;}end",
        starts: &[],
        until: 100,
        events: 1000,
        written: b"fault 0 delay\n",
    },
    Known {
        text: DICE,
        starts: &[],
        until: 16,
        events: 1000,
        written: b"at 0 N=1\nat 4 N=2\nat 7 N=3\nat 12 N=4\nat 16 N=5\nstopped 16\n",
    },
    Known {
        text: b"version 2;model PARTS;table T{10:2;20:1;30:3;}watch A;vertex RUN{schedule A after draw from 54 by T when false;schedule A after draw from 54 by T;schedule A after draw from 54 by T;}vertex A{}end",
        starts: &[],
        until: 100,
        events: 1000,
        written: b"at 0\non 20 A\non 30 A\nended 30\n",
    },
    Known {
        text: b"version 2;model BACK;vertex RUN{schedule RUN after draw from 54 in -6..-1;}end",
        starts: &[],
        until: 100,
        events: 1000,
        written: b"fault 0 delay\n",
    },
    Known {
        text: b"model SIX;watch A;vertex RUN{schedule A after 1;schedule A after 1;schedule A after 1;schedule A after 1;schedule A after 1;schedule A after 1;}vertex A{}end",
        starts: &[],
        until: 100,
        events: 1000,
        written: b"at 0\non 1 A\non 1 A\non 1 A\non 1 A\non 1 A\non 1 A\nended 1\n",
    },
];

/// A sink for a whole history.
fn ample_sink(alloc: Global) -> Result<MemorySink, NoMemory> {
    MemorySink::begin(alloc, 10_000, 10_000, List::new(alloc))
}

/// Whether a text's model has this history over both lists.
fn has_history(alloc: Global, known: &Known, starts: &List<i64>) -> Result<bool, Refused> {
    let mut plain = ample_sink(alloc)?;
    let mut heaped = ample_sink(alloc)?;
    let outcomes = both_histories(
        alloc,
        known.text,
        starts,
        known.until,
        known.events,
        &mut plain,
        &mut heaped,
    );
    let as_known = plain.written() == known.written && heaped.written() == known.written;
    forget(plain);
    forget(heaped);
    outcomes?;
    Ok(as_known)
}

fn listed(alloc: Global, values: &[i64]) -> Result<List<i64>, NoMemory> {
    Ok(List::from_vec(Vec::from_slice(alloc, values)?))
}

#[test]
fn known_histories_are_written_over_both_lists(rt: HostRuntime) -> Result<(), Fail> {
    let alloc = rt.alloc();
    for (place, known) in KNOWN.iter().enumerate() {
        let starts = listed(alloc, known.starts)?;
        let as_known = has_history(alloc, known, &starts);
        forget(starts);
        assert!(rt; as_known?, "at {place}");
    }
    Ok(())
}

/// A model with each edge of scheduling and of cancelling, with a `?` for each digit that varies.
const MODEL: &[u8] = b"version 2;
model SMALL;
var X : 0..9 clip = ?;
var Y : 0..9 clip = ?;
watch X, Y, A, B, C;
vertex RUN {
  schedule A after ?;
  schedule B(?) after ? priority 1?;
  schedule B(?) after ?;
  schedule C after ? priority 3;
}
vertex A {
  set X := X + ? - ?;
  draw Y from 1? in 0..9;
  schedule A after 1 + Y when X < ?;
  schedule B(X) after ?;
  cancel B(?) when X > ?;
  cancel all C when Y = ?;
  urgent C when Y > ?;
}
vertex B(X) {
  schedule C after ? priority 1?;
  schedule C after draw from 1? in 1..9 when X > ?;
  cancel A when X = ?;
  cancel B when Y = ?;
}
vertex C {
  schedule B(?) after 1 when Y < ?;
  schedule A after ? when X = ?;
  cancel C when Y > ?;
}
end
";

/// The model with digits that follow from a number.
fn varied(alloc: Global, number: u64) -> Result<Vec<u8>, NoMemory> {
    let mut text = Vec::with_capacity(alloc, MODEL.len())?;
    let mut varying = number;
    for byte in MODEL {
        varying = varying
            .wrapping_mul(6364136223846793005)
            .wrapping_add(1442695040888963407);
        let digit = b'0' + ((varying >> 33) % 10) as u8;
        text.push(if *byte == b'?' { digit } else { *byte })?;
    }
    Ok(text)
}

/// Whether runs of a text's model come to the same over both lists, and write the same.
fn runs_alike(alloc: Global, text: &[u8], starts: &List<i64>) -> Result<bool, Refused> {
    let mut plain = ample_sink(alloc)?;
    let mut heaped = ample_sink(alloc)?;
    let outcomes = both_histories(alloc, text, starts, 100, 300, &mut plain, &mut heaped);
    let written_alike = plain.written() == heaped.written();
    forget(plain);
    forget(heaped);
    let (one, other) = outcomes?;
    Ok(written_alike && one == other)
}

#[test]
fn small_models_run_alike_over_both_lists(rt: HostRuntime) -> Result<(), Fail> {
    let alloc = rt.alloc();
    let starts = List::new(alloc);
    for number in 0..300 {
        let text = varied(alloc, number)?;
        let alike = runs_alike(alloc, text.as_slice(), &starts);
        forget(text);
        assert!(rt; alike?, "at {number}");
    }
    Ok(())
}
