//! The seeds of the runs of `replicate`, each a stride after the one before.

ghost use Rattle.std.specs.Prelude.{◌≡◌, ◌++◌, ◌∷◌, [], map, codes};
ghost use Rattle.std.specs.List.{range_with_len};
ghost use Rattle.answer_delivery.specs.AnswerForms.{done};
ghost use Rattle.job_answers.specs.ReplicateAnswer.{seed_of_run, replicate_answer};
ghost use Rattle.worked_runs.specs.Models.{clock};
ghost use Rattle.worked_reports.specs.AskedOptions.{replicating};

/// The first run has the seed that was asked for, and each further one the stride more. After 2^64 - 1 seeds begin again
/// at 0, so that a stride of 2^64 - 1 takes one off.
pub fn seeds_are_a_stride_apart()
    ensures next { map (seed_of_run 7 1) (range_with_len 1 3) ≡ 7 ∷ 8 ∷ 9 ∷ [] }
    ensures five { map (seed_of_run 1 5) (range_with_len 1 3) ≡ 1 ∷ 6 ∷ 11 ∷ [] }
    ensures up_to_the_last { seed_of_run 18446744073709551610 5 2 ≡ 18446744073709551615 }
    ensures begun_again { seed_of_run 18446744073709551611 5 2 ≡ 0 }
    ensures past_the_last { map (seed_of_run 18446744073709551615 2) (range_with_len 1 3)
        ≡ 18446744073709551615 ∷ 1 ∷ 3 ∷ [] }
    ensures one_less { map (seed_of_run 5 18446744073709551615) (range_with_len 1 7)
        ≡ 5 ∷ 4 ∷ 3 ∷ 2 ∷ 1 ∷ 0 ∷ 18446744073709551615 ∷ [] }
    ensures far_apart { map (seed_of_run 1 11400714819323198485) (range_with_len 1 3)
        ≡ 1 ∷ 11400714819323198486 ∷ 4354685564936845355 ∷ [] }
    ensures at_the_ends { seed_of_run 18446744073709551615 18446744073709551615 65536
        ≡ 18446744073709486080 }
{}

/// Each run's rows begin with its number and its seed. A stride of 1 gives the next seed.
pub fn reports_have_seeds()
    ensures five { replicate_answer clock (replicating 1 2 5)
        ≡ done (codes "run,seed,outcome,time,item,least,greatest,last,area,count\n"
        ++ codes "1,1,stopped,12,N,1,3,3,21,\n2,6,stopped,12,N,1,3,3,21,\ntotal,,,,N,1,3,,42,\n") }
    ensures next { replicate_answer clock (replicating 1 2 1)
        ≡ done (codes "run,seed,outcome,time,item,least,greatest,last,area,count\n"
        ++ codes "1,1,stopped,12,N,1,3,3,21,\n2,2,stopped,12,N,1,3,3,21,\ntotal,,,,N,1,3,,42,\n") }
{}
