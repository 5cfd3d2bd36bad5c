//! Follows a run without counting key comparisons.

ghost use Rattle.std.specs.Prelude.{◌≡◌, ◌<◌};
ghost use Rattle.watch_trace.specs.Inner.CanFollow.{CanFollow};
ghost use Rattle.watch_trace.specs.Inner.MadeMoves.{RanToOutcome};

use crate::last_notes::LastNotes;
use crate::note_taker::NoteTaker;
use crate::noted_moves::run_to_outcome;
use crate::outcome::Outcome;
use event_list::Pending;
use run_control::Run;
use sig_base::Steps;
use std::marker::Brand;
use std::sync::ledger::{Blank, Ledger};

/// Follows a run for at most so many events, with its notes. Its steps are counted from this blank.
fn run_from_blank<'m, P: Pending, K, T: NoteTaker<K>, L: Ledger>(
    last_notes: &mut LastNotes<'m>,
    run: &mut Run<'m, P>,
    until: u64,
    events: u64,
    taker: &mut T,
    onto: &mut K,
    blank: Blank,
) -> Outcome
    requires name { blank.name ≡ L.name }
    requires parts { blank.parts ≡ L.parts }
    requires some { 0 < blank.parts }
    requires can { CanFollow until events run.old last_notes.old }
    ensures { RanToOutcome T.takes
        (λ p. T.failed p.0) until events run.old last_notes.old result run.new last_notes.new
        (taker.old, onto.old) (taker.new, onto.new) }
{
    let mut steps: Steps<L> = Steps::begin(blank);
    run_to_outcome(last_notes, run, until, events, taker, onto, &mut steps)
}

/// Follows a run for at most so many events, with its notes.
pub fn run_uncounted<'m, P: Pending, K, T: NoteTaker<K>>(
    last_notes: &mut LastNotes<'m>,
    run: &mut Run<'m, P>,
    until: u64,
    events: u64,
    taker: &mut T,
    onto: &mut K,
) -> Outcome
    requires can { CanFollow until events run.old last_notes.old }
    ensures { RanToOutcome T.takes
        (λ p. T.failed p.0) until events run.old last_notes.old result run.new last_notes.new
        (taker.old, onto.old) (taker.new, onto.new) }
{
    let blank = Blank::new(1);
    run_from_blank::<P, K, T, Brand>(last_notes, run, until, events, taker, onto, blank)
}
