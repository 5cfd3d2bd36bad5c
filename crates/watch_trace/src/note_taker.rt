//! Takers of a run's notes, one note after the other: a line to a sink, a count, or any other.

ghost use Rattle.std.specs.Prelude.{◌≡◌, Bool, List, [], ◌∷◌, ◌++◌, map};
ghost use Rattle.model_core.specs.EventGraph.{EventGraph};
ghost use Rattle.model_core.specs.Run.Machine.{Note, At, On};
ghost use Rattle.model_core.specs.Run.History.{watched_values};
ghost use Rattle.model_core.specs.Code.Views.{graph_of, watched_of};

use model_core::Model;
use sig_expr::State;

/// A taker of notes, which may put what it builds from them onto something else.
pub trait NoteTaker<K> {
    // The second pair is what the first becomes where these notes of a run of the model are taken.
    ghost takes: { EventGraph → List Note → (Self × K) → (Self × K) → Type 0 };

    // It has failed, and what comes later is lost.
    ghost failed: { Self → Bool };

    /// Takes the note that the clock leaves this time in this state.
    fn take_at(&mut self, onto: &mut K, model: &Model, state: &State, time: u64)
        ensures { takes (graph_of model.now)
            (At time (watched_values (map watched_of model.now.watch) state.now) ∷ [])
            (self.old, onto.old) (self.new, onto.new) };

    /// Takes the note that an event occurred at this time and left this state. Its vertex is at a place of the watch
    /// list.
    fn take_on(&mut self, onto: &mut K, model: &Model, state: &State, time: u64, place: usize)
        ensures { takes (graph_of model.now)
            (On time place (watched_values (map watched_of model.now.watch) state.now) ∷ [])
            (self.old, onto.old) (self.new, onto.new) };

    /// Whether it has failed, so that no more notes need be handed to it.
    fn has_failed(&self) -> bool
        ensures { result ≡ failed self.now };

    // No note changes nothing, and notes are taken one after the other.
    ghost nothing: { (g : EventGraph) (s : Self × K) → takes g [] s s };

    ghost both: { (g : EventGraph) (s t u : Self × K) (a b : List Note) → takes g a s t → takes g b t u → takes g (a ++ b) s u };
}
