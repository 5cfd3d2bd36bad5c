//! Notes as lines that are written to a sink.

ghost use Rattle.std.specs.Option.{is_none};
ghost use Rattle.watch_trace.specs.Inner.Sheets.{AddsLines};

use crate::line::{Line, end};
use crate::note_taker::NoteTaker;
use crate::notes::{put_at, put_on};
use model_core::Model;
use sig_base::Sink;
use sig_expr::State;

impl<K: Sink> NoteTaker<K> for Line {
    ghost use Rattle.watch_trace.specs.Inner.Sheets.{sheet};
    ghost use Rattle.watch_trace.specs.Inner.AddedLines.{no_lines, lines_of_both};

    ghost takes = { λ g notes s u. AddsLines g notes (sheet (K.seen s.1) s.0) (sheet (K.seen u.1) u.0) };

    ghost failed = { λ l. is_none l };

    fn take_at(&mut self, onto: &mut K, model: &Model, state: &State, time: u64) {
        put_at(self, onto, model, state, time);
        end(self, onto);
    }

    // Not inlined, so that a step without a note has no part in it.
    #[inline(never)]
    fn take_on(&mut self, onto: &mut K, model: &Model, state: &State, time: u64, place: usize) {
        put_on(self, onto, model, state, time, place);
        end(self, onto);
    }

    fn has_failed(&self) -> bool {
        self.failed()
    }

    ghost nothing = { λ g s. no_lines g (sheet (K.seen s.1) s.0) };

    ghost both = { λ g s t u a b p q. lines_of_both g (sheet (K.seen s.1) s.0) (sheet (K.seen t.1) t.0) (sheet (K.seen u.1) u.0) a b p q };
}
