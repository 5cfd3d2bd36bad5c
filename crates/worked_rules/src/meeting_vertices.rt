//! Which vertices are in conflict, by models in which each reason, each way of scheduling and each
//! priority occurs alone.

ghost use Rattle.std.specs.Prelude.{◌≡◌, ◌++◌, ◌∷◌, [], true, false, codes};
ghost use Rattle.model_core.specs.Conflicts.Priorities.{priorities_of};
ghost use Rattle.model_core.specs.Conflicts.Conflict.{reasons_of};
ghost use Rattle.use_analysis.specs.UsesText.{uses_text};
ghost use Rattle.conflict_report.specs.ConflictText.{conflict_text};
ghost use Rattle.worked_rules.specs.MeetingModels.{over_variables_alone, over_streams_alone, over_cancels_alone, of_priorities, run_sets, never_taken, reasons_together};

/// One of the two sets what the other reads (the first, the second), or both set it. Two that read
/// it are in no conflict.
// SETA ASKA: the first writes what the second reads; ASKB SETB: the second what the first reads;
// SETC PUTC: both write it; SETA SETA and others: a vertex with itself; no ASKA ASKA and no ASKD
// SEED: reading alone; no RUN: it uses no variable.
pub fn some_touch_a_variable()
    ensures { conflict_text over_variables_alone
        ≡ codes "SETA SETA variables\n"
        ++ codes "SETA ASKA variables\n"
        ++ codes "ASKB SETB variables\n"
        ++ codes "SETB SETB variables\n"
        ++ codes "SETC SETC variables\n"
        ++ codes "SETC PUTC variables\n"
        ++ codes "PUTC PUTC variables\n" }
{}

/// Both draw from one stream, by a change or by a delay.
// DICE BOTH: by changes; LATE BOTH: by delays, and LATE LATE: streams alone; no DICE LATE and no
// DICE LONE: other streams.
pub fn some_draw_from_a_stream()
    ensures { conflict_text over_streams_alone
        ≡ codes "DICE DICE variables,streams\n"
        ++ codes "DICE BOTH streams\n"
        ++ codes "LATE LATE streams\n"
        ++ codes "LATE BOTH streams\n"
        ++ codes "BOTH BOTH variables,streams\n"
        ++ codes "LONE LONE variables,streams\n" }
{}

/// One cancels events of the other, or of a vertex that an edge of the other names, whatever that
/// edge does.
// A B: the first cancels the second, the next; C D: the second the first, all; E F: those of what
// the second schedules, that carry nothing; G H: the second those of what the first schedules at
// once; J K: both cancel those of one vertex; no M N: both schedule one; A A, D D: one that cancels
// names what it cancels; no B B, no F F, no G G; RUN A and RUN D: RUN schedules what they cancel.
pub fn some_cancel_the_other()
    ensures { conflict_text over_cancels_alone
        ≡ codes "RUN A cancels\n"
        ++ codes "RUN D cancels\n"
        ++ codes "A A cancels\n"
        ++ codes "A B cancels\n"
        ++ codes "C D cancels\n"
        ++ codes "D D cancels\n"
        ++ codes "E E cancels\n"
        ++ codes "E F cancels\n"
        ++ codes "G H cancels\n"
        ++ codes "H H cancels\n"
        ++ codes "J J cancels\n"
        ++ codes "J K cancels\n"
        ++ codes "K K cancels\n" }
{}

/// Vertices meet where they have a priority in common: one with which an edge schedules them,
/// whatever vertex it leaves; 0 where it does so at once; and 5 for the first vertex, with which a
/// run begins.
// RUN RUN, RUN COME: 5 without an edge that says so; GO NOW: 0, of RUN's and of COME's edges; no
// LOW with GO: 1 isn't 0; LATE LAST and LATE MORE: each of the priorities of LATE; no CUT CUT: what
// cancels it schedules nothing; no LONE LONE: nothing schedules it, and 5 is the first vertex's
// alone; LOW LOW, LAST LAST and MORE MORE: one edge that isn't RUN's first.
pub fn some_meet()
    ensures text { conflict_text (run_sets of_priorities)
        ≡ codes "RUN RUN variables\n"
        ++ codes "RUN COME variables\n"
        ++ codes "COME COME variables\n"
        ++ codes "GO GO variables\n"
        ++ codes "GO NOW variables\n"
        ++ codes "NOW NOW variables\n"
        ++ codes "LOW LOW variables\n"
        ++ codes "LATE LATE variables\n"
        ++ codes "LATE LAST variables\n"
        ++ codes "LATE MORE variables\n"
        ++ codes "LAST LAST variables\n"
        ++ codes "MORE MORE variables\n" }
    ensures of_the_first { priorities_of of_priorities 0 ≡ 5 ∷ [] }
    ensures of_late { priorities_of of_priorities 5 ≡ 7 ∷ 9 ∷ [] }
    ensures of_what_is_cancelled { priorities_of of_priorities 8 ≡ [] }
    ensures of_no_vertex { priorities_of of_priorities 10 ≡ [] }
    ensures apart { reasons_of of_priorities 8 9
        ≡ record { meet = false; variables = true; streams = false; cancels = true } }
    ensures apart_alone { reasons_of of_priorities 0 8
        ≡ record { meet = false; variables = false; streams = false; cancels = false } }
    ensures met_alone { reasons_of of_priorities 0 0
        ≡ record { meet = true; variables = false; streams = false; cancels = false } }
{}

/// An edge that is never taken counts all the same: it gives its priority, cancels, and reads. And
/// a drawn delay gives the priority of its edge.
// LATE, NOW: 7, and 0, by an edge that is never taken alone; CUT GOAL, CUT CUT and RUN CUT: by one
// that never cancels; ASK SETA: by what a condition reads that is never true; DREW MATE: 8, after a
// drawn delay.
pub fn edges_that_are_never_taken_count()
    ensures conflicts { conflict_text never_taken
        ≡ codes "RUN RUN streams\n"
        ++ codes "RUN CUT cancels\n"
        ++ codes "CUT CUT cancels\n"
        ++ codes "CUT GOAL cancels\n"
        ++ codes "ASK SETA variables\n"
        ++ codes "SETA SETA variables\n"
        ++ codes "LATE LATE variables\n"
        ++ codes "LATE OTHER variables\n"
        ++ codes "OTHER OTHER variables\n"
        ++ codes "DREW DREW variables\n"
        ++ codes "DREW MATE variables\n"
        ++ codes "MATE MATE variables\n"
        ++ codes "NOW NOW variables\n" }
    ensures uses { uses_text never_taken
        ≡ codes "A readers ASK writers SETA watched no\n"
        ++ codes "B readers - writers LATE,OTHER watched no\n"
        ++ codes "C readers - writers DREW,MATE,NOW watched no\n" }
{}

/// All reasons that hold are listed, in their order, with commas.
// ALL NEXT: all three; ALL HALF: the last two; ALL PART: the first and the last; HALF PART: both
// cancel ALL; HALF HALF: no variable.
pub fn reasons_are_listed_together()
    ensures { conflict_text reasons_together
        ≡ codes "RUN ALL cancels\n"
        ++ codes "RUN NEXT cancels\n"
        ++ codes "RUN HALF cancels\n"
        ++ codes "RUN PART cancels\n"
        ++ codes "ALL ALL variables,streams,cancels\n"
        ++ codes "ALL NEXT variables,streams,cancels\n"
        ++ codes "ALL HALF streams,cancels\n"
        ++ codes "ALL PART variables,cancels\n"
        ++ codes "NEXT NEXT variables,streams,cancels\n"
        ++ codes "NEXT HALF streams,cancels\n"
        ++ codes "NEXT PART variables,cancels\n"
        ++ codes "HALF HALF streams,cancels\n"
        ++ codes "HALF PART cancels\n"
        ++ codes "PART PART variables,cancels\n" }
{}
