//! How a call of the program may end on small inputs and outputs, and how it never ends: the table
//! of statuses on examples. The clauses are theorems. The functions that carry them do nothing.

ghost use Rattle.std.specs.Prelude.{◌≡◌, ◌+◌, ◌≤◌, ℕ, pos, true, false, List, [], ◌∷◌, codes, drop, take, length, Some};
ghost use Rattle.sig_base.specs.declared.limits.TheConstants.{TEXT_MAX};
ghost use Rattle.sig_base.specs.Sink.{Outlet};
ghost use Rattle.sig_base.specs.Source.{Inlet};
ghost use Rattle.model_core.specs.EventGraph.{EventGraph};
ghost use Rattle.model_core.specs.Static.Reading.{Reads, ReadsDocument};
ghost use Rattle.model_core.specs.Text.Canonical.{canonical};
ghost use Rattle.model_core.specs.Rules.Reduction.{RuleApplication};
ghost use Rattle.model_core.specs.Rules.Verdict.{Differs, verdict};
ghost use Rattle.answer_delivery.specs.declared.answer.Answer.TheVariants.{Given, Refused};
ghost use Rattle.answer_delivery.specs.declared.status.End.TheVariants as ends;
ghost use Rattle.answer_delivery.specs.declared.status.Refusal.TheVariants as refusals;
ghost use Rattle.answer_delivery.specs.declared.status.Status.TheVariants as statuses;
ghost use Rattle.job_answers.specs.RunAnswer.{run_answer};
ghost use Rattle.job_answers.specs.SaveAnswer.{save_answer};
ghost use Rattle.job_answers.specs.StartingValues.{start_refusal};
ghost use Rattle.sigma_tests.specs.Devices.{EndsSo, input_of, output_of, untouched, with_line};

/// One ending with each status.
pub fn calls_end_so()
    ensures done { (text : List ℕ) (g : EventGraph) → Reads text g
        → EndsSo statuses.Done (codes "print" ∷ []) (input_of text 0) (input_of [] 0)
        (output_of [] 0 false) (output_of (canonical g) 0 true) untouched untouched }
    ensures refused { EndsSo statuses.Refused (codes "check" ∷ []) (input_of (codes "?") 0)
        (input_of [] 0)
        untouched untouched untouched (with_line (codes "sigma: byte 0: bad byte\n")) }
    ensures usage { EndsSo statuses.Usage (codes "chek" ∷ []) (input_of (codes "model") 0)
        (input_of (codes "model") 0)
        untouched untouched untouched (with_line (codes "sigma: bad command line\n")) }
    ensures read_fault { EndsSo statuses.ReadFault (codes "check" ∷ [])
        (input_of (codes "model") 0) (input_of (codes "el") 1)
        untouched untouched untouched (with_line (codes "sigma: cannot read\n")) }
    ensures write_fault { (text : List ℕ) (g : EventGraph) → Reads text g
        → EndsSo statuses.WriteFault (codes "print" ∷ []) (input_of text 0) (input_of [] 0)
        (output_of [] 0 true) (output_of (take 3 (canonical g)) 1 false) untouched
        (with_line (codes "sigma: cannot write\n")) }
    ensures no_memory { EndsSo statuses.NoMemory (codes "print" ∷ []) (input_of (codes "model") 0)
        (input_of (codes "el") 0)
        untouched untouched untouched (with_line (codes "sigma: out of memory\n")) }
    ensures model_fault { (text bytes : List ℕ) (g : EventGraph) → Reads text g
        → run_answer g 10 0 5 [] ≡ Given ends.ModelFault bytes
        → EndsSo statuses.ModelFault
        (codes "run" ∷ codes "--until=10" ∷ codes "--seed=0" ∷ codes "--events=5" ∷ [])
        (input_of text 0) (input_of [] 0)
        (output_of [] 0 false) (output_of bytes 0 true) untouched untouched }
    ensures budget { (text bytes : List ℕ) (g : EventGraph) → Reads text g
        → run_answer g 10 0 5 [] ≡ Given ends.Budget bytes
        → EndsSo statuses.Budget
        (codes "run" ∷ codes "--until=10" ∷ codes "--seed=0" ∷ codes "--events=5" ∷ [])
        (input_of text 0) (input_of [] 0)
        (output_of [] 0 false) (output_of bytes 0 true) untouched untouched }
    ensures rejected { (text : List ℕ) (g h : EventGraph) (applications : List RuleApplication)
        → ReadsDocument text g applications h → verdict g applications h ≡ Differs
        → EndsSo statuses.Rejected (codes "certify" ∷ []) (input_of text 0) (input_of [] 0)
        (output_of [] 0 false) (output_of (codes "differs\n") 0 true) untouched untouched }
    ensures bad_start { (text line : List ℕ) (g : EventGraph) → Reads text g
        → start_refusal g (pos 7 ∷ []) ≡ Some line
        → EndsSo statuses.BadStart
        (codes "run" ∷ codes "--until=10" ∷ codes "--seed=0" ∷ codes "--events=5"
        ∷ codes "--start=7" ∷ []) (input_of text 0) (input_of [] 0)
        untouched untouched untouched (with_line line) }
    ensures finished { (text line : List ℕ) (g : EventGraph) → Reads text g
        → save_answer g (record { until = 10; seed = 0; events = 5; starts = [] })
        ≡ Refused refusals.Finished line
        → EndsSo statuses.Finished
        (codes "save" ∷ codes "--until=10" ∷ codes "--seed=0" ∷ codes "--events=5" ∷ [])
        (input_of text 0) (input_of [] 0)
        untouched untouched untouched (with_line line) }
    ensures too_large { (text line : List ℕ) (g : EventGraph) → Reads text g
        → save_answer g (record { until = 10; seed = 0; events = 5; starts = [] })
        ≡ Refused refusals.TooLarge line
        → EndsSo statuses.TooLarge
        (codes "save" ∷ codes "--until=10" ∷ codes "--seed=0" ∷ codes "--events=5" ∷ [])
        (input_of text 0) (input_of [] 0)
        untouched untouched untouched (with_line line) }
{}

/// Endings that differ from these in one thing, and never come.
pub fn calls_never_end_so()
    ensures done_but_unfinished { (words : List (List ℕ)) (i j : Inlet) (o e f : Outlet)
        (bytes : List ℕ) (faults : ℕ)
        → EndsSo statuses.Done words i j o (output_of bytes faults false) e f → ⊥ }
    ensures done_but_unread { (text rest : List ℕ) (byte : ℕ) (o p e f : Outlet)
        → EndsSo statuses.Done (codes "print" ∷ []) (input_of text 0)
        (input_of (byte ∷ rest) 0) o p e f → ⊥ }
    ensures done_but_told { (words : List (List ℕ)) (i j : Inlet) (o p : Outlet) (byte : ℕ)
        (rest : List ℕ)
        → EndsSo statuses.Done words i j o p untouched (with_line (byte ∷ rest)) → ⊥ }
    ensures refused_but_read_too_far { (text : List ℕ) (o p e f : Outlet)
        → TEXT_MAX + 2 ≤ length text
        → EndsSo statuses.Refused (codes "check" ∷ []) (input_of text 0)
        (input_of (drop (TEXT_MAX + 2) text) 0) o p e f → ⊥ }
    ensures refused_but_written { (words : List (List ℕ)) (i j : Inlet) (byte : ℕ) (rest : List ℕ)
        (e f : Outlet)
        → EndsSo statuses.Refused words i j untouched (output_of (byte ∷ rest) 0 true) e f → ⊥ }
    ensures usage_but_read { (words : List (List ℕ)) (byte : ℕ) (o p e f : Outlet)
        → EndsSo statuses.Usage words (input_of (byte ∷ []) 0) (input_of [] 0) o p e f → ⊥ }
    ensures usage_but_untold { (words : List (List ℕ)) (i j : Inlet) (o p : Outlet)
        → EndsSo statuses.Usage words i j o p untouched untouched → ⊥ }
    ensures read_fault_but_read_too_far { (text : List ℕ) (o p e f : Outlet)
        → TEXT_MAX + 2 ≤ length text
        → EndsSo statuses.ReadFault (codes "check" ∷ []) (input_of text 0)
        (input_of (drop (TEXT_MAX + 2) text) 1) o p e f → ⊥ }
    ensures read_fault_but_none_failed { (words : List (List ℕ)) (text rest : List ℕ)
        (o p e f : Outlet)
        → EndsSo statuses.ReadFault words (input_of text 0) (input_of rest 0) o p e f → ⊥ }
    ensures write_fault_but_finished { (i j : Inlet) (o e f : Outlet) (bytes : List ℕ) (faults : ℕ)
        → EndsSo statuses.WriteFault (codes "print" ∷ []) i j o (output_of bytes faults true) e f
        → ⊥ }
    ensures no_memory_but_read_too_far { (text : List ℕ) (o p e f : Outlet)
        → TEXT_MAX + 2 ≤ length text
        → EndsSo statuses.NoMemory (codes "check" ∷ []) (input_of text 0)
        (input_of (drop (TEXT_MAX + 2) text) 0) o p e f → ⊥ }
{}

/// The other statuses: nothing is written where a text is refused, no device fails where that isn't
/// the status, and what is done, or written up to a fault or a budget, is finished and leaves the
/// error output alone.
pub fn no_status_ends_otherwise()
    ensures done_but_read_failed { (words : List (List ℕ)) (text rest : List ℕ) (o p e f : Outlet)
        → EndsSo statuses.Done words (input_of text 0) (input_of rest 1) o p e f → ⊥ }
    ensures done_but_write_failed { (words : List (List ℕ)) (i j : Inlet) (bytes more : List ℕ)
        (e f : Outlet)
        → EndsSo statuses.Done words i j (output_of bytes 0 true) (output_of more 1 true) e f → ⊥ }
    ensures done_but_taken_back { (words : List (List ℕ)) (i j : Inlet) (byte : ℕ) (rest : List ℕ)
        (e f : Outlet)
        → EndsSo statuses.Done words i j (output_of (byte ∷ rest) 0 true) (output_of [] 0 true) e f
        → ⊥ }
    ensures model_fault_but_unfinished { (words : List (List ℕ)) (i j : Inlet) (o e f : Outlet)
        (bytes : List ℕ)
        → EndsSo statuses.ModelFault words i j o (output_of bytes 0 false) e f → ⊥ }
    ensures model_fault_but_told { (words : List (List ℕ)) (i j : Inlet) (o p : Outlet) (byte : ℕ)
        (rest : List ℕ)
        → EndsSo statuses.ModelFault words i j o p untouched (with_line (byte ∷ rest)) → ⊥ }
    ensures budget_but_unfinished { (words : List (List ℕ)) (i j : Inlet) (o e f : Outlet)
        (bytes : List ℕ)
        → EndsSo statuses.Budget words i j o (output_of bytes 0 false) e f → ⊥ }
    ensures budget_but_told { (words : List (List ℕ)) (i j : Inlet) (o p : Outlet) (byte : ℕ)
        (rest : List ℕ)
        → EndsSo statuses.Budget words i j o p untouched (with_line (byte ∷ rest)) → ⊥ }
    ensures rejected_but_unfinished { (words : List (List ℕ)) (i j : Inlet) (o e f : Outlet)
        (bytes : List ℕ)
        → EndsSo statuses.Rejected words i j o (output_of bytes 0 false) e f → ⊥ }
    ensures rejected_but_told { (words : List (List ℕ)) (i j : Inlet) (o p : Outlet) (byte : ℕ)
        (rest : List ℕ)
        → EndsSo statuses.Rejected words i j o p untouched (with_line (byte ∷ rest)) → ⊥ }
    ensures refused_but_read_failed { (words : List (List ℕ)) (text rest : List ℕ)
        (o p e f : Outlet)
        → EndsSo statuses.Refused words (input_of text 0) (input_of rest 1) o p e f → ⊥ }
    ensures bad_start_but_written { (words : List (List ℕ)) (i j : Inlet) (byte : ℕ)
        (rest : List ℕ) (e f : Outlet)
        → EndsSo statuses.BadStart words i j untouched (output_of (byte ∷ rest) 0 true) e f → ⊥ }
    ensures finished_but_written { (words : List (List ℕ)) (i j : Inlet) (byte : ℕ) (rest : List ℕ)
        (e f : Outlet)
        → EndsSo statuses.Finished words i j untouched (output_of (byte ∷ rest) 0 true) e f → ⊥ }
    ensures too_large_but_written { (words : List (List ℕ)) (i j : Inlet) (byte : ℕ)
        (rest : List ℕ) (e f : Outlet)
        → EndsSo statuses.TooLarge words i j untouched (output_of (byte ∷ rest) 0 true) e f → ⊥ }
    ensures usage_but_written { (words : List (List ℕ)) (i j : Inlet) (byte : ℕ) (rest : List ℕ)
        (e f : Outlet)
        → EndsSo statuses.Usage words i j untouched (output_of (byte ∷ rest) 0 true) e f → ⊥ }
    ensures read_fault_but_written { (words : List (List ℕ)) (i j : Inlet) (byte : ℕ)
        (rest : List ℕ) (e f : Outlet)
        → EndsSo statuses.ReadFault words i j untouched (output_of (byte ∷ rest) 0 true) e f → ⊥ }
    ensures read_fault_of_a_trial { (i j : Inlet) (o p e f : Outlet)
        → EndsSo statuses.ReadFault
        (codes "trial" ∷ codes "--seed=1" ∷ codes "--vertices=2" ∷ codes "--until=3"
        ∷ codes "--events=4" ∷ []) i j o p e f → ⊥ }
    ensures write_fault_but_none_failed { (words : List (List ℕ)) (i j : Inlet)
        (bytes more : List ℕ) (e f : Outlet)
        → EndsSo statuses.WriteFault words i j (output_of bytes 0 true) (output_of more 0 false) e f
        → ⊥ }
    ensures write_fault_but_read_failed { (words : List (List ℕ)) (text rest : List ℕ)
        (o p e f : Outlet)
        → EndsSo statuses.WriteFault words (input_of text 0) (input_of rest 1) o p e f → ⊥ }
    ensures no_memory_but_write_failed { (words : List (List ℕ)) (i j : Inlet)
        (bytes more : List ℕ) (e f : Outlet)
        → EndsSo statuses.NoMemory words i j (output_of bytes 0 true) (output_of more 1 true) e f
        → ⊥ }
{}
