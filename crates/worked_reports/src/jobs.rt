//! Which job each command line asks for: each command, both ends of each number, and each option
//! that is missing, given twice or another command's.

ghost use Rattle.std.specs.Prelude.{◌≡◌, pos, neg_ℤ, [], ◌∷◌, Some, None, codes};
ghost use Rattle.command_words.specs.declared.job.Job.TheVariants as jobs;
ghost use Rattle.command_words.specs.declared.run_options.TheConstants.{ROOM_MAX, ROOM_USUAL};
ghost use Rattle.command_words.specs.declared.trial_options.TheConstants.{VERTICES_MADE_MAX};
ghost use Rattle.command_words.specs.Jobs.{job_of};
ghost use Rattle.worked_reports.specs.CommandLines.{asked, a_run};

/// The most that a command line may ask for, and the room that it asks for where it says nothing of
/// that.
pub fn limits_of_jobs_have_these_numbers()
    ensures room { ROOM_MAX ≡ 4_194_304 }
    ensures usual_room { ROOM_USUAL ≡ 4_096 }
    ensures vertices_made { VERTICES_MADE_MAX ≡ 500 }
{}

/// Nine commands have no option.
pub fn plain_commands_are_jobs()
    ensures check { asked (codes "check") ≡ Some jobs.Check }
    ensures print { asked (codes "print") ≡ Some jobs.Print }
    ensures reduce { asked (codes "reduce") ≡ Some jobs.Reduce }
    ensures certify { asked (codes "certify") ≡ Some jobs.Certify }
    ensures uses { asked (codes "uses") ≡ Some jobs.Uses }
    ensures conflicts { asked (codes "conflicts") ≡ Some jobs.Conflicts }
    ensures fuse { asked (codes "fuse") ≡ Some jobs.Fuse }
    ensures narrow { asked (codes "narrow") ≡ Some jobs.Narrow }
    ensures describe { asked (codes "describe") ≡ Some jobs.Describe }
    ensures after_dashes { asked (codes "-- check") ≡ Some jobs.Check }
    ensures check_with_an_option { asked (codes "check --room=1") ≡ None }
    ensures print_with_an_option { asked (codes "print --room=1") ≡ None }
    ensures reduce_with_an_option { asked (codes "reduce --room=1") ≡ None }
    ensures certify_with_an_option { asked (codes "certify --room=1") ≡ None }
    ensures uses_with_an_option { asked (codes "uses --room=1") ≡ None }
    ensures conflicts_with_an_option { asked (codes "conflicts --room=1") ≡ None }
    ensures fuse_with_an_option { asked (codes "fuse --room=1") ≡ None }
    ensures narrow_with_an_option { asked (codes "narrow --room=1") ≡ None }
    ensures describe_with_an_option { asked (codes "describe --room=1") ≡ None }
    ensures no_stride { asked (codes "check --stride=1") ≡ None }
{}

/// There is exactly one word that is to be the command, and it is one of fourteen.
pub fn other_words_are_no_job()
    ensures nothing { job_of [] ≡ None }
    ensures unknown { asked (codes "grow") ≡ None }
    ensures capital { asked (codes "Check") ≡ None }
    ensures longer { asked (codes "checks") ≡ None }
    ensures shorter { asked (codes "chec") ≡ None }
    ensures empty { job_of ([] ∷ []) ≡ None }
    ensures two { asked (codes "check print") ≡ None }
    ensures twice { asked (codes "check check") ≡ None }
    ensures option_alone { asked (codes "--until=1") ≡ None }
    ensures dashes_alone { asked (codes "--") ≡ None }
    ensures dash { asked (codes "-check") ≡ None }
    ensures two_dashes { asked (codes "--check") ≡ None }
    ensures second_dashes { asked (codes "-- -- check") ≡ None }
    ensures empty_beside { job_of (codes "check" ∷ [] ∷ []) ≡ None }
    ensures option_after_dashes { asked (codes "run --until=1 --seed=2 -- --events=3") ≡ None }
{}

/// `run` needs its stop time, seed and event budget, and may have starting values and room, which
/// is 4,096 else.
pub fn runs_are_asked_for()
    ensures usual { asked (codes "run --until=1 --seed=2 --events=3") ≡ a_run 1 2 3 [] 4096 }
    ensures least { asked (codes "run --until=0 --seed=0 --events=1 --room=0") ≡ a_run 0 0 1 [] 0 }
    ensures greatest { asked
        (codes "run --until=281474976710656 --seed=18446744073709551615 --events=1099511627776 --room=4194304") ≡ a_run 281474976710656 18446744073709551615 1099511627776 [] 4194304 }
    ensures until_above { asked (codes "run --until=281474976710657 --seed=2 --events=3") ≡ None }
    ensures no_until { asked (codes "run --seed=2 --events=3") ≡ None }
    ensures until_twice { asked (codes "run --until=1 --seed=2 --events=3 --until=0") ≡ None }
    ensures seed_above { asked (codes "run --until=1 --seed=18446744073709551616 --events=3")
        ≡ None }
    ensures no_seed { asked (codes "run --until=1 --events=3") ≡ None }
    ensures seed_twice { asked (codes "run --until=1 --seed=2 --events=3 --seed=0") ≡ None }
    ensures events_above { asked (codes "run --until=1 --seed=2 --events=1099511627777") ≡ None }
    ensures events_below { asked (codes "run --until=1 --seed=2 --events=0") ≡ None }
    ensures no_events { asked (codes "run --until=1 --seed=2") ≡ None }
    ensures events_twice { asked (codes "run --until=1 --seed=2 --events=3 --events=1") ≡ None }
    ensures starts { asked (codes "run --until=1 --seed=2 --events=3 --start=-5,6")
        ≡ a_run 1 2 3 (neg_ℤ (pos 5) ∷ pos 6 ∷ []) 4096 }
    ensures bad_starts { asked (codes "run --until=1 --seed=2 --events=3 --start=") ≡ None }
    ensures starts_twice { asked (codes "run --until=1 --seed=2 --events=3 --start=1 --start=1")
        ≡ None }
    ensures room_above { asked (codes "run --until=1 --seed=2 --events=3 --room=4194305") ≡ None }
    ensures room_twice { asked (codes "run --until=1 --seed=2 --events=3 --room=1 --room=1")
        ≡ None }
    ensures no_runs { asked (codes "run --until=1 --seed=2 --events=3 --runs=1") ≡ None }
    ensures no_vertices { asked (codes "run --until=1 --seed=2 --events=3 --vertices=1") ≡ None }
    ensures no_stride { asked (codes "run --until=1 --seed=2 --events=3 --stride=1") ≡ None }
{}

/// `replicate` needs how many runs there are besides, and has no room.
pub fn replications_are_asked_for()
    ensures usual { asked (codes "replicate --until=1 --seed=2 --events=3 --runs=4")
        ≡ Some (jobs.Replicate 1 2 3 4 [] 1) }
    ensures least { asked (codes "replicate --until=0 --seed=0 --events=1 --runs=1")
        ≡ Some (jobs.Replicate 0 0 1 1 [] 1) }
    ensures greatest { asked
        (codes "replicate --until=281474976710656 --seed=18446744073709551615 --events=1099511627776 --runs=65536") ≡ Some (jobs.Replicate 281474976710656 18446744073709551615 1099511627776 65536 [] 1) }
    ensures until_above { asked
        (codes "replicate --until=281474976710657 --seed=2 --events=3 --runs=4") ≡ None }
    ensures no_until { asked (codes "replicate --seed=2 --events=3 --runs=4") ≡ None }
    ensures until_twice { asked (codes "replicate --until=1 --seed=2 --events=3 --runs=4 --until=0")
        ≡ None }
    ensures seed_above { asked
        (codes "replicate --until=1 --seed=18446744073709551616 --events=3 --runs=4") ≡ None }
    ensures no_seed { asked (codes "replicate --until=1 --events=3 --runs=4") ≡ None }
    ensures seed_twice { asked (codes "replicate --until=1 --seed=2 --events=3 --runs=4 --seed=0")
        ≡ None }
    ensures events_above { asked
        (codes "replicate --until=1 --seed=2 --events=1099511627777 --runs=4") ≡ None }
    ensures events_below { asked (codes "replicate --until=1 --seed=2 --events=0 --runs=4") ≡ None }
    ensures no_events { asked (codes "replicate --until=1 --seed=2 --runs=4") ≡ None }
    ensures events_twice { asked
        (codes "replicate --until=1 --seed=2 --events=3 --runs=4 --events=1") ≡ None }
    ensures runs_above { asked (codes "replicate --until=1 --seed=2 --events=3 --runs=65537")
        ≡ None }
    ensures runs_below { asked (codes "replicate --until=1 --seed=2 --events=3 --runs=0") ≡ None }
    ensures no_runs { asked (codes "replicate --until=1 --seed=2 --events=3") ≡ None }
    ensures runs_twice { asked (codes "replicate --until=1 --seed=2 --events=3 --runs=4 --runs=1")
        ≡ None }
    ensures starts { asked (codes "replicate --until=1 --seed=2 --events=3 --runs=4 --start=-5,6")
        ≡ Some (jobs.Replicate 1 2 3 4 (neg_ℤ (pos 5) ∷ pos 6 ∷ []) 1) }
    ensures bad_starts { asked (codes "replicate --until=1 --seed=2 --events=3 --runs=4 --start=")
        ≡ None }
    ensures starts_twice { asked
        (codes "replicate --until=1 --seed=2 --events=3 --runs=4 --start=1 --start=1") ≡ None }
    ensures no_room { asked (codes "replicate --until=1 --seed=2 --events=3 --runs=4 --room=1")
        ≡ None }
    ensures no_vertices { asked
        (codes "replicate --until=1 --seed=2 --events=3 --runs=4 --vertices=1") ≡ None }
{}

/// `compare` needs how many runs of each model there are, and has no room and no stride.
pub fn comparisons_are_asked_for()
    ensures usual { asked (codes "compare --until=1 --seed=2 --events=3 --runs=4")
        ≡ Some (jobs.Compare 1 2 3 [] 4) }
    ensures starts { asked (codes "compare --until=1 --seed=2 --events=3 --runs=4 --start=-5,6")
        ≡ Some (jobs.Compare 1 2 3 (neg_ℤ (pos 5) ∷ pos 6 ∷ []) 4) }
    ensures no_until { asked (codes "compare --seed=2 --events=3 --runs=4") ≡ None }
    ensures no_seed { asked (codes "compare --until=1 --events=3 --runs=4") ≡ None }
    ensures no_events { asked (codes "compare --until=1 --seed=2 --runs=4") ≡ None }
    ensures no_runs { asked (codes "compare --until=1 --seed=2 --events=3") ≡ None }
    ensures runs_above { asked (codes "compare --until=1 --seed=2 --events=3 --runs=65537")
        ≡ None }
    ensures runs_below { asked (codes "compare --until=1 --seed=2 --events=3 --runs=0") ≡ None }
    ensures no_room { asked (codes "compare --until=1 --seed=2 --events=3 --runs=4 --room=1")
        ≡ None }
    ensures no_stride { asked (codes "compare --until=1 --seed=2 --events=3 --runs=4 --stride=1")
        ≡ None }
{}

/// `replicate` may have a stride, which is 1 else: from 1 to 2^64 - 1, and given once.
pub fn strides_are_asked_for()
    ensures usual { asked (codes "replicate --until=1 --seed=2 --events=3 --runs=4")
        ≡ asked (codes "replicate --until=1 --seed=2 --events=3 --runs=4 --stride=1") }
    ensures least { asked (codes "replicate --until=1 --seed=2 --events=3 --runs=4 --stride=1")
        ≡ Some (jobs.Replicate 1 2 3 4 [] 1) }
    ensures five { asked (codes "replicate --until=1 --seed=2 --events=3 --runs=4 --stride=5")
        ≡ Some (jobs.Replicate 1 2 3 4 [] 5) }
    ensures greatest { asked
        (codes "replicate --until=1 --seed=2 --events=3 --runs=4 --stride=18446744073709551615")
        ≡ Some (jobs.Replicate 1 2 3 4 [] 18446744073709551615) }
    ensures first { asked
        (codes "--stride 05 --start=-5,6 --runs=4 --seed=2 --until=1 --events=3 replicate")
        ≡ Some (jobs.Replicate 1 2 3 4 (neg_ℤ (pos 5) ∷ pos 6 ∷ []) 5) }
    ensures below { asked (codes "replicate --until=1 --seed=2 --events=3 --runs=4 --stride=0")
        ≡ None }
    ensures above { asked
        (codes "replicate --until=1 --seed=2 --events=3 --runs=4 --stride=18446744073709551616")
        ≡ None }
    ensures negative { asked (codes "replicate --until=1 --seed=2 --events=3 --runs=4 --stride=-1")
        ≡ None }
    ensures empty { asked (codes "replicate --until=1 --seed=2 --events=3 --runs=4 --stride=")
        ≡ None }
    ensures twice { asked
        (codes "replicate --until=1 --seed=2 --events=3 --runs=4 --stride=1 --stride=1") ≡ None }
    ensures alone { asked (codes "replicate --stride=5") ≡ None }
{}

/// `save` needs its stop time, seed and events, and may have starting values.
pub fn saved_runs_are_asked_for()
    ensures usual { asked (codes "save --until=1 --seed=2 --events=3") ≡ Some (jobs.Save 1 2 3 []) }
    ensures least { asked (codes "save --until=0 --seed=0 --events=1") ≡ Some (jobs.Save 0 0 1 []) }
    ensures greatest { asked
        (codes "save --until=281474976710656 --seed=18446744073709551615 --events=1099511627776")
        ≡ Some (jobs.Save 281474976710656 18446744073709551615 1099511627776 []) }
    ensures until_above { asked (codes "save --until=281474976710657 --seed=2 --events=3") ≡ None }
    ensures no_until { asked (codes "save --seed=2 --events=3") ≡ None }
    ensures until_twice { asked (codes "save --until=1 --seed=2 --events=3 --until=0") ≡ None }
    ensures seed_above { asked (codes "save --until=1 --seed=18446744073709551616 --events=3")
        ≡ None }
    ensures no_seed { asked (codes "save --until=1 --events=3") ≡ None }
    ensures seed_twice { asked (codes "save --until=1 --seed=2 --events=3 --seed=0") ≡ None }
    ensures events_above { asked (codes "save --until=1 --seed=2 --events=1099511627777") ≡ None }
    ensures events_below { asked (codes "save --until=1 --seed=2 --events=0") ≡ None }
    ensures no_events { asked (codes "save --until=1 --seed=2") ≡ None }
    ensures events_twice { asked (codes "save --until=1 --seed=2 --events=3 --events=1") ≡ None }
    ensures starts { asked (codes "save --until=1 --seed=2 --events=3 --start=-5,6")
        ≡ Some (jobs.Save 1 2 3 (neg_ℤ (pos 5) ∷ pos 6 ∷ [])) }
    ensures bad_starts { asked (codes "save --until=1 --seed=2 --events=3 --start=") ≡ None }
    ensures starts_twice { asked (codes "save --until=1 --seed=2 --events=3 --start=1 --start=1")
        ≡ None }
    ensures no_room { asked (codes "save --until=1 --seed=2 --events=3 --room=1") ≡ None }
    ensures no_runs { asked (codes "save --until=1 --seed=2 --events=3 --runs=1") ≡ None }
    ensures no_vertices { asked (codes "save --until=1 --seed=2 --events=3 --vertices=1") ≡ None }
    ensures no_stride { asked (codes "save --until=1 --seed=2 --events=3 --stride=1") ≡ None }
{}

/// `resume` needs its stop time and event budget, and may have room. One event is the least.
pub fn resumed_runs_are_asked_for()
    ensures usual { asked (codes "resume --until=1 --events=3") ≡ Some (jobs.Resume 1 3 4096) }
    ensures least { asked (codes "resume --until=0 --events=1 --room=0")
        ≡ Some (jobs.Resume 0 1 0) }
    ensures greatest { asked
        (codes "resume --until=281474976710656 --events=1099511627776 --room=4194304")
        ≡ Some (jobs.Resume 281474976710656 1099511627776 4194304) }
    ensures until_above { asked (codes "resume --until=281474976710657 --events=3") ≡ None }
    ensures no_until { asked (codes "resume --events=3") ≡ None }
    ensures until_twice { asked (codes "resume --until=1 --events=3 --until=0") ≡ None }
    ensures events_above { asked (codes "resume --until=1 --events=1099511627777") ≡ None }
    ensures events_below { asked (codes "resume --until=1 --events=0") ≡ None }
    ensures no_events { asked (codes "resume --until=1") ≡ None }
    ensures events_twice { asked (codes "resume --until=1 --events=3 --events=1") ≡ None }
    ensures no_starts { asked (codes "resume --until=1 --events=3 --start=1") ≡ None }
    ensures room_above { asked (codes "resume --until=1 --events=3 --room=4194305") ≡ None }
    ensures room_twice { asked (codes "resume --until=1 --events=3 --room=1 --room=1") ≡ None }
    ensures no_runs { asked (codes "resume --until=1 --events=3 --runs=1") ≡ None }
    ensures no_vertices { asked (codes "resume --until=1 --events=3 --vertices=1") ≡ None }
    ensures no_stride { asked (codes "resume --until=1 --events=3 --stride=1") ≡ None }
    ensures never_a_seed { asked (codes "resume --until=1 --events=3 --seed=1") ≡ None }
{}

/// `trial` needs its seed, how many vertices there are, its stop time and its event budget.
pub fn trials_are_asked_for()
    ensures usual { asked (codes "trial --until=1 --seed=2 --events=3 --vertices=4")
        ≡ Some (jobs.Trial 2 4 1 3) }
    ensures least { asked (codes "trial --until=0 --seed=0 --events=1 --vertices=1")
        ≡ Some (jobs.Trial 0 1 0 1) }
    ensures greatest { asked
        (codes "trial --until=281474976710656 --seed=18446744073709551615 --events=1099511627776 --vertices=500") ≡ Some (jobs.Trial 18446744073709551615 500 281474976710656 1099511627776) }
    ensures until_above { asked
        (codes "trial --until=281474976710657 --seed=2 --events=3 --vertices=4") ≡ None }
    ensures no_until { asked (codes "trial --seed=2 --events=3 --vertices=4") ≡ None }
    ensures until_twice { asked (codes "trial --until=1 --seed=2 --events=3 --vertices=4 --until=0")
        ≡ None }
    ensures seed_above { asked
        (codes "trial --until=1 --seed=18446744073709551616 --events=3 --vertices=4") ≡ None }
    ensures no_seed { asked (codes "trial --until=1 --events=3 --vertices=4") ≡ None }
    ensures seed_twice { asked (codes "trial --until=1 --seed=2 --events=3 --vertices=4 --seed=0")
        ≡ None }
    ensures events_above { asked
        (codes "trial --until=1 --seed=2 --events=1099511627777 --vertices=4") ≡ None }
    ensures events_below { asked (codes "trial --until=1 --seed=2 --events=0 --vertices=4") ≡ None }
    ensures no_events { asked (codes "trial --until=1 --seed=2 --vertices=4") ≡ None }
    ensures events_twice { asked
        (codes "trial --until=1 --seed=2 --events=3 --vertices=4 --events=1") ≡ None }
    ensures vertices_above { asked (codes "trial --until=1 --seed=2 --events=3 --vertices=501")
        ≡ None }
    ensures vertices_below { asked (codes "trial --until=1 --seed=2 --events=3 --vertices=0")
        ≡ None }
    ensures no_vertices { asked (codes "trial --until=1 --seed=2 --events=3") ≡ None }
    ensures vertices_twice { asked
        (codes "trial --until=1 --seed=2 --events=3 --vertices=4 --vertices=1") ≡ None }
    ensures no_starts { asked (codes "trial --until=1 --seed=2 --events=3 --vertices=4 --start=1")
        ≡ None }
    ensures no_room { asked (codes "trial --until=1 --seed=2 --events=3 --vertices=4 --room=1")
        ≡ None }
    ensures no_runs { asked (codes "trial --until=1 --seed=2 --events=3 --vertices=4 --runs=1")
        ≡ None }
    ensures no_stride { asked
        (codes "trial --until=1 --seed=2 --events=3 --vertices=4 --stride=1") ≡ None }
{}

/// An option is one word or two, and words come in any order.
pub fn words_come_in_any_order()
    ensures two_words { asked (codes "run --until 12 --seed 42 --events 1000")
        ≡ a_run 12 42 1000 [] 4096 }
    ensures options_first { asked (codes "--events=1000 --seed 42 run --until=12")
        ≡ a_run 12 42 1000 [] 4096 }
    ensures command_last { asked (codes "--until 12 --seed=42 --events=1000 run")
        ≡ a_run 12 42 1000 [] 4096 }
    ensures dashes_before { asked (codes "--until=12 --seed=42 --events=1000 -- run")
        ≡ a_run 12 42 1000 [] 4096 }
    ensures dashes_last { asked (codes "run --until=12 --seed=42 --events=1000 --")
        ≡ a_run 12 42 1000 [] 4096 }
    ensures check_before_dashes { asked (codes "check --") ≡ Some jobs.Check }
    ensures print_after_dashes { asked (codes "-- print") ≡ Some jobs.Print }
    ensures trial { asked (codes "trial --seed 42 --vertices 2 --until 20 --events 100")
        ≡ Some (jobs.Trial 42 2 20 100) }
    ensures trial_in_between { asked
        (codes "--vertices=500 trial --seed 18446744073709551615 --events=100 --until=20")
        ≡ Some (jobs.Trial 18446744073709551615 500 20 100) }
    ensures replications { asked (codes "replicate --until 12 --seed 1 --events 100 --runs 2")
        ≡ Some (jobs.Replicate 12 1 100 2 [] 1) }
    ensures replications_in_between { asked
        (codes "--runs=65536 replicate --seed 18446744073709551615 --events=100 --until=12 --start=-3,0")
        ≡ Some (jobs.Replicate 12 18446744073709551615 100 65536 (neg_ℤ (pos 3) ∷ pos 0 ∷ []) 1) }
    ensures saved { asked (codes "save --until 12 --seed 1 --events 2")
        ≡ Some (jobs.Save 12 1 2 []) }
    ensures saved_last { asked (codes "--start=-3,0 --seed=0 --until=12 --events=2 save")
        ≡ Some (jobs.Save 12 0 2 (neg_ℤ (pos 3) ∷ pos 0 ∷ [])) }
    ensures resumed { asked (codes "resume --until 12 --events 2")
        ≡ Some (jobs.Resume 12 2 4096) }
    ensures resumed_with_room { asked (codes "resume --room=0 --until=12 --events=2")
        ≡ Some (jobs.Resume 12 2 0) }
{}

/// A number may begin with any number of zeros, and a starting value with a sign before them.
pub fn numbers_may_begin_with_zeros()
    ensures run { asked
        (codes "run --until=0000000000000000000000000000000000000000012 --seed=00042 --events=01000 --room=0000004096")
        ≡ a_run 12 42 1000 [] 4096 }
    ensures trial { asked (codes "--vertices 01 --seed=0 --events 0100 --until 20 -- trial")
        ≡ Some (jobs.Trial 0 1 20 100) }
    ensures replications { asked (codes "--runs 01 --seed=0 --events 0100 --until 12 -- replicate")
        ≡ Some (jobs.Replicate 12 0 100 1 [] 1) }
    ensures one_start { asked (codes "run --until=12 --seed=42 --events=1000 --start 5")
        ≡ a_run 12 42 1000 (pos 5 ∷ []) 4096 }
    ensures start_with_a_sign { asked (codes "run --until=12 --seed=42 --events=1000 --start=-5")
        ≡ a_run 12 42 1000 (neg_ℤ (pos 5) ∷ []) 4096 }
    ensures starts_with_zeros { asked
        (codes "run --until=12 --seed=42 --events=1000 --start=0,-0,007,-03")
        ≡ a_run 12 42 1000 (pos 0 ∷ pos 0 ∷ pos 7 ∷ neg_ℤ (pos 3) ∷ []) 4096 }
    ensures starts_at_both_ends { asked
        (codes "run --until=12 --seed=42 --events=1000 --start=9223372036854775807,-9223372036854775808")
        ≡ a_run 12 42 1000
        (pos 9223372036854775807 ∷ neg_ℤ (pos 9223372036854775808) ∷ []) 4096 }
    ensures nine_starts { asked
        (codes "run --until=12 --seed=42 --events=1000 --start 1,2,3,4,5,6,7,8,9")
        ≡ a_run 12 42 1000
        (pos 1 ∷ pos 2 ∷ pos 3 ∷ pos 4 ∷ pos 5 ∷ pos 6 ∷ pos 7 ∷ pos 8 ∷ pos 9 ∷ []) 4096 }
{}
