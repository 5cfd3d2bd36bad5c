//! The text of a history: lines of notes and of ends, and whole texts of runs.

ghost use Rattle.std.specs.Prelude.{◌≡◌, ◌++◌, pos, negsuc, [], ◌∷◌, codes};
ghost use Rattle.sig_base.specs.declared.fault.FaultKind.TheVariants as faults;
ghost use Rattle.model_core.specs.EventGraph.{WatchedVariable};
ghost use Rattle.model_core.specs.Run.Machine.{At, On, Ended, Stopped, Faulted, Going};
ghost use Rattle.model_core.specs.Run.History.{look};
ghost use Rattle.model_core.specs.Text.HistoryText.{note_line, end_line, history_text};
ghost use Rattle.worked_runs.specs.Models.{clock, strict_clock, loop, backwards, cut, cancel_three};
ghost use Rattle.worked_runs.specs.Texts.{desk};

/// A line has the watched variables in order: words for truth values, and an array's values joined
/// by commas.
pub fn notes_have_lines()
    ensures below_0 { note_line desk (At 7 ((negsuc 0 ∷ []) ∷ [])) ≡ codes "at 7 N=-1\n" }
    ensures vertex { note_line desk (On 7 1 ((pos 3 ∷ []) ∷ [])) ≡ codes "on 7 SERVE N=3\n" }
    ensures truth_and_array { note_line
        (record desk { watch = WatchedVariable 2 ∷ WatchedVariable 1 ∷ [] })
        (At 12 ((pos 1 ∷ negsuc 1 ∷ pos 0 ∷ pos 30 ∷ []) ∷ (pos 1 ∷ []) ∷ []))
        ≡ codes "at 12 CELLS=1,-2,0,30 OPEN=true\n" }
    ensures false_is_a_word { note_line (record desk { watch = WatchedVariable 1 ∷ [] })
        (At 0 ((pos 0 ∷ []) ∷ [])) ≡ codes "at 0 OPEN=false\n" }
    ensures nothing_watched { note_line loop (At 20 []) ≡ codes "at 20\n" }
{}

/// The last line has the standing of a run: with the clock's time, the stop time, the fault or the
/// budget.
pub fn ends_have_lines()
    ensures ended { end_line 100 50 (Ended 2) ≡ codes "ended 2\n" }
    ensures stopped { end_line 100 50 Stopped ≡ codes "stopped 100\n" }
    ensures budget { end_line 100 50 Going ≡ codes "budget 50\n" }
    ensures overflow { end_line 100 50 (Faulted 9 faults.Overflow) ≡ codes "fault 9 overflow\n" }
    ensures division { end_line 100 50 (Faulted 9 faults.DivisionByZero)
        ≡ codes "fault 9 division\n" }
    ensures index { end_line 100 50 (Faulted 9 faults.IndexOutside) ≡ codes "fault 9 index\n" }
    ensures range { end_line 100 50 (Faulted 9 faults.RangeOutside) ≡ codes "fault 9 range\n" }
    ensures delay { end_line 100 50 (Faulted 9 faults.NegativeDelay) ≡ codes "fault 9 delay\n" }
{}

/// Whole texts.
pub fn histories_have_texts()
    ensures stops { history_text clock 12 1000 (look clock 42 [] 12 1000)
        ≡ codes "at 0 N=1\n" ++ codes "at 5 N=2\n" ++ codes "at 10 N=3\n" ++ codes "stopped 12\n" }
    ensures runs_out { history_text clock 12 2 (look clock 42 [] 12 2)
        ≡ codes "at 0 N=1\n" ++ codes "budget 2\n" }
    ensures fails { history_text strict_clock 1000 1000 (look strict_clock 42 [] 1000 1000)
        ≡ codes "at 0 N=1\n" ++ codes "at 5 N=2\n" ++ codes "at 10 N=3\n"
        ++ codes "fault 15 range\n" }
    ensures fails_at_once { history_text backwards 100 1000 (look backwards 42 [] 100 1000)
        ≡ codes "fault 0 delay\n" }
    ensures watches_a_vertex { history_text (cut (cancel_three ∷ [])) 100 1000
        (look (cut (cancel_three ∷ [])) 42 [] 100 1000)
        ≡ codes "at 0 X=0\n" ++ codes "on 5 B X=4\n" ++ codes "at 5 X=4\n" ++ codes "on 6 B X=3\n"
        ++ codes "at 6 X=3\n" ++ codes "ended 6\n" }
{}
