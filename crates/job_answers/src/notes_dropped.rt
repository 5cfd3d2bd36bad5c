//! A taker of notes that drops them: `save` needs none.

use model_core::Model;
use sig_expr::State;
use watch_trace::NoteTaker;

/// Drops each note.
#[derive(Drop)]
pub(crate) struct NotesDropped;

impl NoteTaker<()> for NotesDropped {
    ghost use Rattle.std.specs.Prelude.{false};

    ghost takes = { λ g notes s u. Unit {0} };

    ghost failed = { λ t. false };

    fn take_at(&mut self, _onto: &mut (), _model: &Model, _state: &State, _time: u64) {}

    fn take_on(
        &mut self,
        _onto: &mut (),
        _model: &Model,
        _state: &State,
        _time: u64,
        _place: usize,
    ) {}

    fn has_failed(&self) -> bool {
        false
    }

    ghost nothing = { λ g s. tt };

    ghost both = { λ g s t u a b p q. tt };
}
