//! Which note of a history is due, and the values that were noted last.

ghost use Rattle.std.specs.Prelude.{◌≡◌, map, position, None, IfOk, IsTrue, length};
ghost use Rattle.std.specs.List.{sum_by};
ghost use Rattle.model_core.specs.Run.State.{in_range};
ghost use Rattle.model_core.specs.Run.Pending.{next_entry};
ghost use Rattle.model_core.specs.Run.History.{watched_values, watches};
ghost use Rattle.model_core.specs.Code.Views.{graph_of, watched_of};
ghost use Rattle.run_control.specs.Running.{next_shown};
ghost use Rattle.watch_trace.specs.Tracing.{leaves_time};

use crate::watched_cells::{are_same, put_values, take_values, zeros};
use event_list::{First, Pending};
use model_core::{Model as Graph, Watch, watches};
use run_control::{Run, Turn};
use sig_base::NoMemory;
use sig_expr::State;
use std::alloc::Global;
use std::marker::Model;

/// The model, and the values of the last `at` note, of all watched cells in order. Before the first note they are zeros.
#[derive(Drop)]
pub struct LastNotes<'m> {
    model: &'m Graph,
    values: Vec<i64>,
    noted: bool,
}

impl<'m> Model for LastNotes<'m> {
    ghost use Rattle.std.specs.Prelude.{◌≡◌, Some, None, cond, map, length};
    ghost use Rattle.std.specs.Coded.{codes};
    ghost use Rattle.std.specs.List.{sum_by};
    ghost use Rattle.model_core.specs.contracts.expr.Expr as expressions;
    ghost use Rattle.model_core.specs.Code.Views.{graph_of, watched_of};
    ghost use Rattle.watch_trace.specs.Tracing.{Tracing};
    ghost use Rattle.model_core.specs.Saved.Cells.{watched_sizes, cut_up};
    ghost use Rattle.watch_trace.specs.Inner.KeptNotes.{watched_size};

    ghost Value = { Tracing };

    ghost coded = { Prim.hlevel (codes, expressions.the_row.coded) };

    ghost view = { λ t. record {
      model = t.model.now;
      noted = cond t.noted (Some (cut_up (watched_sizes (graph_of t.model.now) (map watched_of t.model.now.watch)) t.values.items)) None;
    } };

    ghost invariant = { λ t.
        length t.values.items
        ≡ sum_by (watched_size (graph_of t.model.now)) (map watched_of t.model.now.watch) };
}

/// The place of a vertex in a watch list.
fn place_of(watch: &[Watch], vertex: usize) -> Option<usize>
    ensures { result ≡ position (watches vertex) (map watched_of watch.now) }
{
    for (place, watched) in watch.iter().enumerate() {
        if watches(vertex, watched) {
            return Some(place);
        }
    }
    None
}

/// Whether the clock leaves its time before a run's next turn. `next` is the run's next event.
pub fn leaves_time<'m, P: Pending>(run: &Run<'m, P>, next: Option<First>, until: u64) -> bool
    requires { next ≡ next_shown run.now None }
    ensures { result ≡ leaves_time run.now.now.clock until (next_entry run.now.now.pending) }
{
    match next {
        Some(first) => until < first.time || run.clock() < first.time,
        None => true,
    }
}

impl<'m> LastNotes<'m> {
    ghost use Rattle.std.specs.Prelude.{◌&&◌, Some, sum};
    ghost use Rattle.std.specs.Option.{option_map};
    ghost use Rattle.model_core.specs.Saved.Cells.{watched_sizes, cut_up, in_one_list};
    ghost use Rattle.watch_trace.specs.Tracing.{is_new, place_of_turn};

    /// Nothing is noted yet. All memory is taken here.
    pub fn begin(alloc: Global, model: &'m Graph) -> Result<LastNotes<'m>, NoMemory>
        ensures { IfOk result
            (λ last_notes. last_notes ≡ record { model = model.now; noted = None }) }
    {
        Ok(LastNotes {
            model,
            values: zeros(alloc, model)?,
            noted: false,
        })
    }

    /// The model.
    pub fn model(&self) -> &Graph
        ensures { result.now ≡ self.now.model }
    {
        self.model
    }

    /// Whether the watched values of a state aren't those noted last.
    fn is_new(&self, state: &State) -> bool
        requires { IsTrue (in_range (graph_of self.now.model) state.now) }
        ensures { result
            ≡ is_new (watched_values
            (map watched_of self.now.model.watch) state.now) self.now.noted }
    {
        !self.noted || !are_same(self.model.watch.as_slice(), self.values.as_slice(), state)
    }

    /// Notes the watched values of a state, and gives whether they aren't those noted last.
    pub fn note(&mut self, state: &State) -> bool
        requires { IsTrue (in_range (graph_of self.old.model) state.now) }
        ensures noted { self.new
            ≡ record self.old {
              noted = Some
                  (watched_values (map watched_of self.old.model.watch) state.now);
            } }
        ensures new { result
            ≡ is_new (watched_values
            (map watched_of self.old.model.watch) state.now) self.old.noted }
    {
        let first = !self.noted;
        let new = take_values(
            self.values.as_mut_slice(),
            self.model.watch.as_slice(),
            state,
        );
        self.noted = true;
        first | new
    }

    /// The values of the last `at` note: `None` where nothing is noted.
    pub fn noted_values(&self) -> Option<&[i64]>
        ensures { option_map (λ values. values.now) result ≡ option_map in_one_list self.now.noted }
    {
        if !self.noted {
            return None;
        }
        Some(self.values.as_slice())
    }

    /// Takes values as those of the last `at` note.
    pub fn note_values(&mut self, values: &[i64])
        requires { length values.now
            ≡ sum (watched_sizes (graph_of self.old.model) (map watched_of self.old.model.watch)) }
        ensures { self.new
            ≡ record self.old {
              noted = Some
                  (cut_up (watched_sizes (graph_of self.old.model)
                  (map watched_of self.old.model.watch)) values.now);
            } }
    {
        put_values(&mut self.values, values);
        self.noted = true;
    }

    /// Whether an `at` note is due before the run's next turn. `next` is the run's next event.
    pub fn leaving<P: Pending>(&self, run: &Run<'m, P>, next: Option<First>, until: u64) -> bool
        requires one_model { self.now.model ≡ run.now.model }
        requires is_next { next ≡ next_shown run.now None }
        ensures { result ≡ (leaves_time run.now.now.clock until (next_entry run.now.now.pending)
            && is_new (watched_values
            (map watched_of self.now.model.watch) run.now.now.state) self.now.noted) }
    {
        leaves_time(run, next, until) && self.is_new(run.state())
    }

    /// Takes the run's watched values as those of the last `at` note, and gives whether they aren't those noted last.
    pub fn remember<P: Pending>(&mut self, run: &Run<'m, P>) -> bool
        requires one_model { self.old.model ≡ run.now.model }
        ensures noted { self.new
            ≡ record self.old {
              noted = Some
                  (watched_values (map watched_of self.old.model.watch) run.now.now.state);
            } }
        ensures new { result
            ≡ is_new (watched_values
            (map watched_of self.old.model.watch) run.now.now.state) self.old.noted }
    {
        self.note(run.state())
    }

    /// The place in the watch list of the vertex that ran: `None` where the turn isn't `Ran`, or its vertex isn't
    /// watched.
    pub fn completed(&self, turn: &Turn) -> Option<usize>
        ensures { result ≡ place_of_turn (graph_of self.now.model) turn.now }
    {
        match *turn {
            Turn::Ran { vertex, time: _ } => place_of(self.model.watch.as_slice(), vertex),
            Turn::Ended { time: _ } => None,
            Turn::Stopped => None,
            Turn::Faulted { time: _, kind: _ } => None,
        }
    }
}
