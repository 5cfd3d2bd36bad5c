//! The law that jobs keep their limits. The function does nothing: what it ensures holds of all words.

ghost use Rattle.std.specs.Prelude.{◌≡◌, ℕ, List, Some};
ghost use Rattle.command_words.specs.declared.job.Job.{Job};
ghost use Rattle.command_words.specs.Jobs.{job_of};
ghost use Rattle.command_words.specs.KeptLimits.{KeepsLimits};
ghost use Rattle.command_words.specs.Readings.{reading_of};

/// What words ask for keeps its limits.
pub fn jobs_keep_their_limits()
    ensures { (words : List (List ℕ)) (job : Job) → job_of words ≡ Some job
        → KeepsLimits (reading_of job) }
{}
