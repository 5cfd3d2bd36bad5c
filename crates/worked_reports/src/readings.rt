//! What each job reads, what it asks of that, and the limits that this keeps.

ghost use Rattle.std.specs.Prelude.{◌≡◌, pos, [], ◌∷◌, Some, None};
ghost use Rattle.command_words.specs.declared.job.Job.TheVariants as jobs;
ghost use Rattle.command_words.specs.declared.reading.BareJob.TheVariants as bare;
ghost use Rattle.command_words.specs.declared.reading.DocumentJob.TheVariants as documents;
ghost use Rattle.command_words.specs.declared.reading.ModelJob.TheVariants as models;
ghost use Rattle.command_words.specs.declared.reading.PairJob.TheVariants as pairs;
ghost use Rattle.command_words.specs.declared.reading.SavedJob.TheVariants as saved_jobs;
ghost use Rattle.command_words.specs.declared.reading.Reading.TheVariants as readings;
ghost use Rattle.command_words.specs.KeptLimits.{KeepsLimits};
ghost use Rattle.command_words.specs.Readings.{reading_of, limit_of};
ghost use Rattle.worked_reports.specs.CommandLines.{of_run, of_replicate, of_save, of_compare, of_resume, of_trial};

/// Eleven jobs read a model, `certify` a document, `compare` two models and `resume` a saved run,
/// and `trial` reads nothing. Each asks what the words asked.
pub fn jobs_read_so()
    ensures check { reading_of jobs.Check ≡ readings.Model models.Check }
    ensures print { reading_of jobs.Print ≡ readings.Model models.Print }
    ensures reduce { reading_of jobs.Reduce ≡ readings.Model models.Reduce }
    ensures certify { reading_of jobs.Certify ≡ readings.Document documents.Certify }
    ensures uses { reading_of jobs.Uses ≡ readings.Model models.Uses }
    ensures conflicts { reading_of jobs.Conflicts ≡ readings.Model models.Conflicts }
    ensures fuse { reading_of jobs.Fuse ≡ readings.Model models.Fuse }
    ensures narrow { reading_of jobs.Narrow ≡ readings.Model models.Narrow }
    ensures describe { reading_of jobs.Describe ≡ readings.Model models.Describe }
    ensures run { reading_of (jobs.Run 1 2 3 (pos 4 ∷ []) 5)
        ≡ readings.Model
        (models.Run (record { until = 1; seed = 2; events = 3; starts = pos 4 ∷ []; room = 5 })) }
    ensures replicate { reading_of (jobs.Replicate 1 2 3 4 (pos 5 ∷ []) 6)
        ≡ readings.Model
        (models.Replicate
        (record { until = 1; seed = 2; events = 3; runs = 4; starts = pos 5 ∷ []; stride = 6 })) }
    ensures save { reading_of (jobs.Save 1 2 3 (pos 4 ∷ []))
        ≡ readings.Model
        (models.Save (record { until = 1; seed = 2; events = 3; starts = pos 4 ∷ [] })) }
    ensures compare { reading_of (jobs.Compare 1 2 3 (pos 4 ∷ []) 5)
        ≡ readings.Pair
        (pairs.Compare
        (record { until = 1; seed = 2; events = 3; starts = pos 4 ∷ []; runs = 5 })) }
    ensures resume { reading_of (jobs.Resume 1 2 3)
        ≡ readings.Saved (saved_jobs.Resume (record { until = 1; events = 2; room = 3 })) }
    ensures trial { reading_of (jobs.Trial 1 2 3 4)
        ≡ readings.Nothing (bare.Trial (record { seed = 1; vertices = 2; until = 3; events = 4 })) }
{}

/// A text has at most 4 MiB and a document 24.
pub fn readings_have_limits()
    ensures model { limit_of (readings.Model models.Check) ≡ Some 4194304 }
    ensures saving { limit_of (of_save 1 2 3) ≡ Some 4194304 }
    ensures document { limit_of (readings.Document documents.Certify) ≡ Some 25165824 }
    ensures pair { limit_of (of_compare 1 2 3 4) ≡ Some 25165824 }
    ensures saved { limit_of (of_resume 1 2 3) ≡ Some 25165824 }
    ensures nothing { limit_of (of_trial 1 2 3) ≡ None }
{}

/// The limits on the options of each job, at both ends. A run has none on its seed and its room,
/// for no clause asks for one.
pub fn options_keep_limits()
    ensures run { KeepsLimits (of_run 281474976710656 1099511627776) }
    ensures run_too_long { KeepsLimits (of_run 281474976710657 1) → ⊥ }
    ensures run_too_many { KeepsLimits (of_run 0 1099511627777) → ⊥ }
    ensures compare { KeepsLimits (of_compare 281474976710656 18446744073709551615 1099511627776 65536) }
    ensures compare_too_long { KeepsLimits (of_compare 281474976710657 0 1 1) → ⊥ }
    ensures compare_too_wide { KeepsLimits (of_compare 0 18446744073709551616 1 1) → ⊥ }
    ensures compare_too_many { KeepsLimits (of_compare 0 0 1099511627777 1) → ⊥ }
    ensures compare_no_run { KeepsLimits (of_compare 0 0 1 0) → ⊥ }
    ensures compare_too_often { KeepsLimits (of_compare 0 0 1 65537) → ⊥ }
    ensures replicate { KeepsLimits (of_replicate 281474976710656 1099511627776 65536 1) }
    ensures one_run { KeepsLimits (of_replicate 0 0 1 18446744073709551615) }
    ensures replicate_too_long { KeepsLimits (of_replicate 281474976710657 1 1 1) → ⊥ }
    ensures replicate_too_many { KeepsLimits (of_replicate 0 1099511627777 1 1) → ⊥ }
    ensures no_run { KeepsLimits (of_replicate 0 1 0 1) → ⊥ }
    ensures too_many_runs { KeepsLimits (of_replicate 0 1 65537 1) → ⊥ }
    ensures no_stride { KeepsLimits (of_replicate 0 1 1 0) → ⊥ }
    ensures stride_too_large { KeepsLimits (of_replicate 0 1 1 18446744073709551616) → ⊥ }
    ensures save { KeepsLimits (of_save 281474976710656 18446744073709551615 1099511627776) }
    ensures save_too_long { KeepsLimits (of_save 281474976710657 0 1) → ⊥ }
    ensures save_too_many { KeepsLimits (of_save 0 0 1099511627777) → ⊥ }
    ensures seed_too_large { KeepsLimits (of_save 0 18446744073709551616 1) → ⊥ }
    ensures resume { KeepsLimits (of_resume 281474976710656 1099511627776 4194304) }
    ensures resume_too_long { KeepsLimits (of_resume 281474976710657 1 0) → ⊥ }
    ensures resume_too_many { KeepsLimits (of_resume 0 1099511627777 0) → ⊥ }
    ensures room_too_large { KeepsLimits (of_resume 0 1 4194305) → ⊥ }
    ensures trial { KeepsLimits (of_trial 500 281474976710656 1099511627776) }
    ensures one_vertex { KeepsLimits (of_trial 1 0 0) }
    ensures trial_too_long { KeepsLimits (of_trial 1 281474976710657 1) → ⊥ }
    ensures trial_too_many { KeepsLimits (of_trial 1 0 1099511627777) → ⊥ }
    ensures no_vertex { KeepsLimits (of_trial 0 0 1) → ⊥ }
    ensures too_many_vertices { KeepsLimits (of_trial 501 0 1) → ⊥ }
    ensures document { KeepsLimits (readings.Document documents.Certify) }
    ensures model { KeepsLimits (readings.Model models.Narrow) }
{}
