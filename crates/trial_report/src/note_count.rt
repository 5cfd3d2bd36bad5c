//! The notes of a run, of which nothing is kept but how many they are.

use model_core::Model;
use sig_expr::State;
use watch_trace::NoteTaker;

/// How many notes were taken, or the last count where they are more.
#[derive(Clone, Copy, Debug)]
pub(crate) struct NoteCount {
    pub notes: u64,
}

impl NoteTaker<()> for NoteCount {
    ghost use Rattle.std.specs.Prelude.{false};
    ghost use Rattle.trial_report.specs.Inner.Counted.{CountsNotes, no_note_counted, both_counted};

    ghost takes = { λ g notes s u. CountsNotes s.0.notes u.0.notes notes };

    ghost failed = { λ c. false };

    fn take_at(&mut self, _onto: &mut (), _model: &Model, _state: &State, _time: u64) {
        self.notes = self.notes.saturating_add(1);
    }

    fn take_on(
        &mut self,
        _onto: &mut (),
        _model: &Model,
        _state: &State,
        _time: u64,
        _place: usize,
    ) {
        self.notes = self.notes.saturating_add(1);
    }

    fn has_failed(&self) -> bool {
        false
    }

    ghost nothing = { λ g s. no_note_counted s.0.notes };

    ghost both = { λ g s t u a b p q. both_counted s.0.notes t.0.notes u.0.notes a b p q };
}
