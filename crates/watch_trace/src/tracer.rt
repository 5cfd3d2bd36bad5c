//! A tracer of a run: which note of its history is due, and the line that is written next.

ghost use Rattle.std.specs.Prelude.{◌≡◌, map, None, IfOk};
ghost use Rattle.model_core.specs.Run.History.{watched_values};
ghost use Rattle.model_core.specs.Code.Views.{graph_of, watched_of};

use crate::last_notes::LastNotes;
use crate::line::Line;
use event_list::Pending;
use model_core::Model as Graph;
use run_control::{Run, Turn};
use sig_base::NoMemory;
use std::alloc::Global;
use std::marker::Model;

/// Says which note of a run's history is due, and keeps the values of the last `at` note.
#[derive(Drop)]
pub struct Tracer<'m> {
    pub(crate) last_notes: LastNotes<'m>,
    pub(crate) line: Line,
}

impl<'m> Model for Tracer<'m> {
    ghost use Rattle.std.specs.Coded.{codes};
    ghost use Rattle.model_core.specs.contracts.expr.Expr as expressions;
    ghost use Rattle.watch_trace.specs.Tracing.{Tracing};

    ghost Value = { Tracing };

    ghost coded = { Prim.hlevel (codes, expressions.the_row.coded) };

    ghost view = { λ t. t.last_notes };
}

impl<'m> Tracer<'m> {
    ghost use Rattle.std.specs.Prelude.{◌&&◌, Some, sum, length};
    ghost use Rattle.std.specs.Option.{option_map};
    ghost use Rattle.model_core.specs.Saved.Cells.{watched_sizes, cut_up, in_one_list};
    ghost use Rattle.model_core.specs.Run.Pending.{next_entry};
    ghost use Rattle.watch_trace.specs.Tracing.{leaves_time, is_new, place_of_turn};

    /// A tracer that has noted nothing. The memory for what it notes is taken here; lines take theirs as they are
    /// written.
    pub fn begin(alloc: Global, model: &'m Graph) -> Result<Tracer<'m>, NoMemory>
        ensures { IfOk result (λ tracer. tracer ≡ record { model = model.now; noted = None }) }
    {
        Ok(Tracer {
            last_notes: LastNotes::begin(alloc, model)?,
            line: Line::begin(alloc),
        })
    }

    /// Whether an `at` note is due before the run's next turn.
    pub fn leaving<P: Pending>(&self, run: &Run<'m, P>, until: u64) -> bool
        requires one_model { self.now.model ≡ run.now.model }
        requires goes_on { run.now.faulted ≡ None }
        ensures { result ≡ (leaves_time run.now.now.clock until (next_entry run.now.now.pending)
            && is_new (watched_values
            (map watched_of self.now.model.watch) run.now.now.state) self.now.noted) }
    {
        self.last_notes.leaving(run, run.next(), until)
    }

    /// Takes the run's watched values as those of the last `at` note.
    pub fn remember<P: Pending>(&mut self, run: &Run<'m, P>)
        requires one_model { self.old.model ≡ run.now.model }
        ensures { self.new
            ≡ record self.old {
              noted = Some
                  (watched_values (map watched_of self.old.model.watch) run.now.now.state);
            } }
    {
        let _new = self.last_notes.remember(run);
    }

    /// The values of the last `at` note, of all watched cells in order: `None` where nothing is noted.
    pub fn noted_values(&self) -> Option<&[i64]>
        ensures { option_map (λ values. values.now) result ≡ option_map in_one_list self.now.noted }
    {
        self.last_notes.noted_values()
    }

    /// Takes a value for each watched cell, in order, as those of the last `at` note.
    pub fn note_values(&mut self, values: &[i64])
        requires { length values.now
            ≡ sum (watched_sizes (graph_of self.old.model) (map watched_of self.old.model.watch)) }
        ensures { self.new
            ≡ record self.old {
              noted = Some
                  (cut_up (watched_sizes (graph_of self.old.model)
                  (map watched_of self.old.model.watch)) values.now);
            } }
    {
        self.last_notes.note_values(values);
    }

    /// The place in the watch list of the vertex that ran: `None` where the turn isn't `Ran`, or its vertex isn't
    /// watched.
    pub fn completed(&self, turn: &Turn) -> Option<usize>
        ensures { result ≡ place_of_turn (graph_of self.now.model) turn.now }
    {
        self.last_notes.completed(turn)
    }
}
