//! A run of a model.

ghost use Rattle.std.specs.Prelude.{◌≡◌, ◌+◌, ◌<◌, ◌≤◌, [], length, IfOk, IfErr, IsOk, IsTrue, OnErr, None, slice_index_or};
ghost use Rattle.sig_base.specs.declared.limits.TheConstants.{STOP_MAX, EVENTS_MAX};
ghost use Rattle.model_core.specs.Run.State.{in_range};
ghost use Rattle.model_core.specs.Run.Pending.{next_entry};
ghost use Rattle.model_core.specs.Code.Views.{graph_of};

use crate::begin_error::BeginError;
use crate::occurrence::occur;
use crate::parts::Parts;
use crate::plans::Plans;
use crate::starting_values::{AllowedStarts, check_starts, schedule_first};
use crate::turn::Turn;
use event_list::{Entry, First, Pending};
use model_core::{Model as Graph, Vertex};
use random_streams::Streams;
use run_laws::runs_stay_in_range;
use sig_base::{FaultKind, List, NoMemory, Steps};
use sig_expr::State;
use std::alloc::Global;
use std::marker::{Brand, Model};
use std::sync::ledger::{Blank, Ledger};

/// The fault that ended a run, and its time.
#[derive(Clone, Copy)]
struct Fault {
    time: u64,
    kind: FaultKind,
}

/// A run of a model over a pending list. Its parts fit together at all times: it is sound. The last one is a place in which
/// a step puts the event that occurs, so that it needs no new one.
#[derive(Drop)]
pub struct Run<'m, P: Pending> {
    model: &'m Graph,
    plans: Plans<P>,
    state: State,
    clock: u64,
    turns: u64,
    fault: Option<Fault>,
    happening: Entry,
}

impl<'m, P: Pending> Model for Run<'m, P> {
    ghost use Rattle.std.specs.Option.{option_map};
    ghost use Rattle.model_core.specs.Code.Views.{graph_of};
    ghost use Rattle.std.specs.Coded.{codes};
    ghost use Rattle.model_core.specs.contracts.expr.Expr as expressions;
    ghost use Rattle.run_control.specs.Running.{Running};
    ghost use Rattle.run_control.specs.SoundRun.{SoundRun};

    ghost Value = { Running };

    ghost coded = { Prim.hlevel (codes, expressions.the_row.coded) };

    ghost view = { λ r. record {
      model = r.model.now;
      seed = r.plans.seed;
      now = record { clock = r.clock; state = r.state; taken = r.plans.planned.taken; pending = r.plans.planned.pending };
      spare = r.plans.spare;
      numbered = r.plans.numbered;
      turns = r.turns;
      faulted = option_map (λ f. record { time = f.time; kind = f.kind }) r.fault;
    } };

    ghost invariant = { λ r.
        SoundRun (graph_of r.model.now) r.state r.plans.planned.taken r.turns r.plans.numbered r.plans.vertices r.plans.planned.pending };
}

/// A vertex of a model.
fn vertex_at(model: &Graph, place: usize) -> &Vertex
    requires { place < length model.now.vertices }
    ensures { result.now ≡ slice_index_or model.now.vertices place result.now }
{
    &model.vertices.as_slice()[place]
}

impl<'m, P: Pending> Run<'m, P> {
    ghost use Rattle.run_control.specs.Running.{next_shown};
    ghost use Rattle.std.specs.Prelude.{ℕ};
    ghost use Rattle.run_control.specs.PossibleModel.{PossibleModel};
    ghost use Rattle.run_control.specs.SoundRun.{FewWords, FewScheduled, AreOfVertices};
    ghost use Rattle.run_control.specs.Beginning.{BegunRun, RefusesStart};
    ghost use Rattle.run_control.specs.Turns.{Turns, IsNextTurn, StepKeeps, HasRoom, FitsRoom, IsDue};

    /// A run of a model as it begins, or why the starting values aren't allowed. See `begin_with`.
    pub fn begin(
        alloc: Global,
        model: &'m Graph,
        pending: P,
        seed: u64,
        starts: &List<i64>,
        room: usize,
    ) -> Result<Run<'m, P>, BeginError>
    where
        P: Drop,
        requires possible { PossibleModel (graph_of model.now) }
        requires empty { P.entries pending ≡ [] }
        requires fresh { P.numbered pending ≡ 0 }
        requires made_for { P.vertices pending ≡ length model.now.vertices }
        ensures ok { IfOk result (BegunRun model.now seed starts.now room) }
        ensures err { IfErr result (RefusesStart (graph_of model.now) starts.now) }
    {
        let starts = check_starts(model, starts.as_slice())?;
        Ok(Run::begin_with(alloc, &starts, pending, seed, room)?)
    }

    /// A run of a model as it begins: at clock 0 with the initial values, no words taken, and the first vertex's event,
    /// which carries the starting values. `pending` is given empty; room is made in it for `room` events, and for one at least.
    pub fn begin_with(
        alloc: Global,
        starts: &AllowedStarts<'m, '_>,
        pending: P,
        seed: u64,
        room: usize,
    ) -> Result<Run<'m, P>, NoMemory>
    where
        P: Drop,
        requires possible { PossibleModel (graph_of starts.now.model) }
        requires empty { P.entries pending ≡ [] }
        requires fresh { P.numbered pending ≡ 0 }
        requires made_for { P.vertices pending ≡ length starts.now.model.vertices }
        ensures { IfOk result (BegunRun starts.now.model seed starts.now.values room) }
    {
        let model = starts.model();
        let state = State::begin(alloc, model)?;
        let mut pending = pending;
        pending.reserve(room.max(1))?;
        let first = Entry {
            time: 0,
            priority: 5,
            vertex: 0,
            values: starts.carried_starts(),
        };
        schedule_first::<P, Brand>(&mut pending, &first, Blank::new(1));
        runs_stay_in_range();
        Ok(Run {
            model,
            plans: Plans {
                pending,
                streams: Streams::begin(seed),
                scheduled: Entry::blank(),
            },
            state,
            clock: 0,
            turns: 0,
            fault: None,
            happening: Entry::blank(),
        })
    }

    /// The run that has these parts. The words taken, the steps made and the events ever scheduled may be as many as
    /// steps within the limits lead to, so that the run can go on.
    pub fn from_parts(
        model: &'m Graph,
        pending: P,
        state: State,
        streams: Streams,
        clock: u64,
        turns: u64,
    ) -> Run<'m, P>
        requires possible { PossibleModel (graph_of model.now) }
        requires inside { IsTrue (in_range (graph_of model.now) state) }
        requires words { FewWords streams.taken turns }
        requires countable { FewScheduled (P.numbered pending) turns }
        requires made_for { P.vertices pending ≡ length model.now.vertices }
        requires of_vertices { AreOfVertices (length model.now.vertices) (P.entries pending) }
        ensures { result ≡ record {
          model = model.now;
          seed = streams.seed;
          now = record { clock = clock; state = state; taken = streams.taken; pending = P.entries pending };
          spare = P.spare pending;
          numbered = P.numbered pending;
          turns = turns;
          faulted = None;
        } }
    {
        Run {
            model,
            plans: Plans {
                pending,
                streams,
                scheduled: Entry::blank(),
            },
            state,
            clock,
            turns,
            fault: None,
            happening: Entry::blank(),
        }
    }

    /// The parts of the run, from which `from_parts` builds a run again. That the run has faulted isn't among them.
    pub fn into_parts(self) -> Parts<P>
        ensures now { record { clock = result.clock; state = result.state; taken = result.streams.taken; pending = P.entries result.pending } ≡ self.entry.now }
        ensures possible { PossibleModel (graph_of self.entry.model) }
        ensures inside { IsTrue (in_range (graph_of self.entry.model) result.state) }
        ensures seed { result.streams.seed ≡ self.entry.seed }
        ensures words { FewWords result.streams.taken result.turns }
        ensures spare { P.spare result.pending ≡ self.entry.spare }
        ensures numbered { P.numbered result.pending ≡ self.entry.numbered }
        ensures countable { FewScheduled (P.numbered result.pending) result.turns }
        ensures made_for { P.vertices result.pending ≡ length self.entry.model.vertices }
        ensures of_vertices { AreOfVertices (length self.entry.model.vertices)
            (P.entries result.pending) }
        ensures turns { result.turns ≡ self.entry.turns }
    {
        let plans = self.plans;
        Parts {
            pending: plans.pending,
            state: self.state,
            streams: plans.streams,
            clock: self.clock,
            turns: self.turns,
        }
    }

    /// The next event: `None` where nothing is pending, or the run has faulted.
    pub fn next(&self) -> Option<First>
        ensures { result ≡ next_shown self.now self.now.faulted }
    {
        match &self.fault {
            Some(_) => None,
            None => {
                let plans = &self.plans;
                plans.pending.first()
            }
        }
    }

    /// The clock's time in ticks.
    pub fn clock(&self) -> u64
        ensures { result ≡ self.now.now.clock }
    {
        self.clock
    }

    /// How many steps were made. A step that faulted is one of them.
    pub fn turns(&self) -> u64
        ensures { result ≡ self.now.turns }
    {
        self.turns
    }

    /// The state: the values of all variables, each in its range.
    pub fn state(&self) -> &State
        ensures value { result.now ≡ self.now.now.state }
        ensures inside { IsTrue (in_range (graph_of self.now.model) result.now) }
    {
        &self.state
    }

    /// The pending events.
    pub fn pending(&self) -> &P
        ensures entries { P.entries result.now ≡ self.now.now.pending }
        ensures spare { P.spare result.now ≡ self.now.spare }
        ensures numbered { P.numbered result.now ≡ self.now.numbered }
        ensures countable { FewScheduled (P.numbered result.now) self.now.turns }
        ensures made_for { P.vertices result.now ≡ length self.now.model.vertices }
        ensures of_vertices { AreOfVertices (length self.now.model.vertices)
            (P.entries result.now) }
    {
        let plans = &self.plans;
        &plans.pending
    }

    /// Makes one step up to a stop time in ticks: the next event occurs. Room for what it schedules is made before
    /// anything changes. The room for events, pending ones among them, never falls, so a step lacks memory only where the
    /// pending events and those that it may schedule are more than the room with which the run began.
    pub fn step<L: Ledger>(&mut self, until: u64, steps: &mut Steps<L>) -> Result<Turn, NoMemory>
        requires soon { until ≤ STOP_MAX }
        requires budget { self.old.turns < EVENTS_MAX }
        ensures ok { IfOk result (λ turn. Turns self.old until turn self.new self.old.faulted) }
        ensures err { OnErr result (self.new ≡ self.old) }
        ensures enough { HasRoom self.old (next_entry self.old.now.pending) → IsOk result }
        ensures within_room { (room : ℕ) → room ≤ self.old.spare + length self.old.now.pending
            → FitsRoom self.old room (next_entry self.old.now.pending) → IsOk result }
        ensures due { OnErr result (IsDue until (next_entry self.old.now.pending)) }
        ensures keeps { StepKeeps self.old self.new }
    {
        match self.fault {
            Some(fault) => Ok(Turn::Faulted {
                time: fault.time,
                kind: fault.kind,
            }),
            None => {
                let plans = &self.plans;
                let first = plans.pending.first();
                self.go_on(first, until, steps)
            }
        }
    }

    /// Makes one step of a run that hasn't faulted. `next` is the run's next event.
    #[inline(always)]
    pub fn go_on<L: Ledger>(
        &mut self,
        next: Option<First>,
        until: u64,
        steps: &mut Steps<L>,
    ) -> Result<Turn, NoMemory>
        requires goes_on { self.old.faulted ≡ None }
        requires is_next { next ≡ next_shown self.old None }
        requires soon { until ≤ STOP_MAX }
        requires budget { self.old.turns < EVENTS_MAX }
        ensures ok { IfOk result
            (λ turn. IsNextTurn self.old until turn self.new (next_entry self.old.now.pending)) }
        ensures err { OnErr result (self.new ≡ self.old) }
        ensures enough { HasRoom self.old (next_entry self.old.now.pending) → IsOk result }
        ensures due { OnErr result (IsDue until (next_entry self.old.now.pending)) }
        ensures keeps { StepKeeps self.old self.new }
    {
        let Some(first) = next else {
            return Ok(Turn::Ended { time: self.clock });
        };
        let (vertex, time) = (first.vertex, first.time);
        if until < time {
            return Ok(Turn::Stopped);
        }
        let model = self.model;
        let happening = vertex_at(model, vertex);
        let plans = &mut self.plans;
        plans.take_first(happening.edges.as_slice(), &mut self.happening, steps)?;
        self.clock = time;
        self.turns += 1;
        let state = &mut self.state;
        match occur(model, happening, &self.happening, state, plans, steps) {
            Ok(()) => Ok(Turn::Ran { vertex, time }),
            Err(kind) => {
                self.fault = Some(Fault { time, kind });
                Ok(Turn::Faulted { time, kind })
            }
        }
    }
}
