//! How the program ends: its statuses, their numbers and their lines.

ghost use Rattle.std.specs.Prelude.{◌≡◌, [], codes};
ghost use Rattle.answer_delivery.specs.declared.answer.Answer.TheVariants.{Given, Refused};
ghost use Rattle.answer_delivery.specs.declared.status.End.TheVariants as ends;
ghost use Rattle.answer_delivery.specs.declared.status.Failure.TheVariants as failures;
ghost use Rattle.answer_delivery.specs.declared.status.Refusal.TheVariants as refusals;
ghost use Rattle.answer_delivery.specs.declared.status.Status.TheVariants as statuses;
ghost use Rattle.answer_delivery.specs.Statuses.{exit_status_of, status_of_end, status_of_refusal, failure_line, status_of_answer, bytes_of_answer};
ghost use Rattle.answer_delivery.specs.FailureStatus.{status_of_failure};

/// Each status has a number of its own.
pub fn statuses_have_numbers()
    ensures done { exit_status_of statuses.Done ≡ 0 }
    ensures refused { exit_status_of statuses.Refused ≡ 1 }
    ensures usage { exit_status_of statuses.Usage ≡ 2 }
    ensures read_fault { exit_status_of statuses.ReadFault ≡ 3 }
    ensures write_fault { exit_status_of statuses.WriteFault ≡ 4 }
    ensures no_memory { exit_status_of statuses.NoMemory ≡ 5 }
    ensures model_fault { exit_status_of statuses.ModelFault ≡ 6 }
    ensures budget { exit_status_of statuses.Budget ≡ 7 }
    ensures rejected { exit_status_of statuses.Rejected ≡ 8 }
    ensures bad_start { exit_status_of statuses.BadStart ≡ 9 }
    ensures finished { exit_status_of statuses.Finished ≡ 10 }
    ensures too_large { exit_status_of statuses.TooLarge ≡ 11 }
    ensures differs { exit_status_of statuses.Differs ≡ 12 }
    ensures unknown { exit_status_of statuses.Unknown ≡ 13 }
{}

/// Each end, refusal and failure has a status of its own.
pub fn ends_have_statuses()
    ensures done { status_of_end ends.Done ≡ statuses.Done }
    ensures model_fault { status_of_end ends.ModelFault ≡ statuses.ModelFault }
    ensures budget { status_of_end ends.Budget ≡ statuses.Budget }
    ensures rejected { status_of_end ends.Rejected ≡ statuses.Rejected }
    ensures differs { status_of_end ends.Differs ≡ statuses.Differs }
    ensures unknown { status_of_end ends.Unknown ≡ statuses.Unknown }
    ensures refused { status_of_refusal refusals.Refused ≡ statuses.Refused }
    ensures bad_start { status_of_refusal refusals.BadStart ≡ statuses.BadStart }
    ensures finished { status_of_refusal refusals.Finished ≡ statuses.Finished }
    ensures too_large { status_of_refusal refusals.TooLarge ≡ statuses.TooLarge }
    ensures usage { status_of_failure failures.Usage ≡ statuses.Usage }
    ensures read_fault { status_of_failure failures.ReadFault ≡ statuses.ReadFault }
    ensures write_fault { status_of_failure failures.WriteFault ≡ statuses.WriteFault }
    ensures no_memory { status_of_failure failures.NoMemory ≡ statuses.NoMemory }
    ensures of_what_is_given { status_of_answer (Given ends.Rejected (codes "x"))
        ≡ statuses.Rejected }
    ensures of_what_is_refused { status_of_answer (Refused refusals.TooLarge (codes "x"))
        ≡ statuses.TooLarge }
    ensures bytes_of_what_is_given { bytes_of_answer (Given ends.Rejected (codes "x")) ≡ codes "x" }
    ensures bytes_of_what_is_refused { bytes_of_answer (Refused refusals.TooLarge (codes "x"))
        ≡ [] }
{}

/// Each failure has a line.
pub fn failures_have_lines()
    ensures usage { failure_line failures.Usage ≡ codes "sigma: bad command line\n" }
    ensures read_fault { failure_line failures.ReadFault ≡ codes "sigma: cannot read\n" }
    ensures write_fault { failure_line failures.WriteFault ≡ codes "sigma: cannot write\n" }
    ensures no_memory { failure_line failures.NoMemory ≡ codes "sigma: out of memory\n" }
{}
