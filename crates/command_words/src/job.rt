//! The jobs of the program.

ghost use Rattle.std.specs.Prelude.{◌≡◌};
ghost use Rattle.command_words.specs.Readings.{reading_of};

use crate::compare_options::CompareOptions;
use crate::reading::{BareJob, DocumentJob, ModelJob, PairJob, Reading, SavedJob};
use crate::replicate_options::ReplicateOptions;
use crate::resume_options::ResumeOptions;
use crate::run_options::RunOptions;
use crate::save_options::SaveOptions;
use crate::trial_options::TrialOptions;
use sig_base::List;

/// A job of the program.
#[derive(Drop)]
pub enum Job {
    /// Whether the model is accepted.
    Check,
    /// The model in its canonical form.
    Print,
    /// The model without what it doesn't need, and the certificate of that.
    Reduce,
    /// Whether a document's certificate holds between its two models.
    Certify,
    /// Who reads and who writes each variable of the model, and whether it is watched.
    Uses,
    /// The pairs of vertices whose events, where they are simultaneous, need priorities, and why.
    Conflicts,
    /// The model in which of vertices that do the same one is left.
    Fuse,
    /// The model with the ranges declared that it needs.
    Narrow,
    /// The model in English sentences.
    Describe,
    /// The watched history of a run of the model, as it happens.
    Run {
        /// The stop time, in ticks.
        until: u64,
        /// The seed of the random streams.
        seed: u64,
        /// The event budget: the most steps that are made.
        events: u64,
        /// A value for each parameter of the vertex that begins the run, in order.
        starts: List<i64>,
        /// The pending events for which there is room from the beginning.
        room: usize,
    },
    /// The tallies of many runs of the model, each with a seed of its own, and their totals.
    Replicate {
        /// The stop time of each run, in ticks.
        until: u64,
        /// The seed of the first run's random streams.
        seed: u64,
        /// The event budget of each run: the most steps that are made.
        events: u64,
        /// How many runs there are.
        runs: u64,
        /// A value for each parameter of the vertex that begins the run, in order.
        starts: List<i64>,
        /// How far the seed of each further run is from that of the run before. After 2^64 - 1 seeds begin again at 0.
        stride: u64,
    },
    /// A run of the model, stopped while it goes on, as text from which it can go on.
    Save {
        /// The stop time, in ticks.
        until: u64,
        /// The seed of the random streams.
        seed: u64,
        /// How many events are made.
        events: u64,
        /// A value for each parameter of the vertex that begins the run, in order.
        starts: List<i64>,
    },
    /// Whether two models mean the same, as far as many runs of each show it.
    Compare {
        /// The stop time of each run, in ticks.
        until: u64,
        /// The seed of the first run's random streams.
        seed: u64,
        /// The event budget of each run: the most steps that are made.
        events: u64,
        /// A value for each parameter of the vertex that begins the runs, in order.
        starts: List<i64>,
        /// How many runs of each model there are.
        runs: u64,
    },
    /// The watched history of a run that was saved, from there on, as it happens.
    Resume {
        /// The stop time, in ticks.
        until: u64,
        /// The event budget: the most further steps that are made.
        events: u64,
        /// The pending events for which there is room from the beginning, or for all that were saved where those are more.
        room: usize,
    },
    /// How large a model is that a number makes, what is left of it when it is reduced, and how a run of each goes.
    Trial {
        /// The number that makes the model, and the seed of the random streams.
        seed: u64,
        /// How many vertices the model has.
        vertices: usize,
        /// The stop time, in ticks.
        until: u64,
        /// The event budget: the most steps that are made.
        events: u64,
    },
}

impl Job {
    /// What the job reads, and what it asks of that.
    pub fn reading(self) -> Reading
        ensures { result ≡ reading_of self }
    {
        match self {
            Job::Check => Reading::Model(ModelJob::Check),
            Job::Print => Reading::Model(ModelJob::Print),
            Job::Reduce => Reading::Model(ModelJob::Reduce),
            Job::Certify => Reading::Document(DocumentJob::Certify),
            Job::Uses => Reading::Model(ModelJob::Uses),
            Job::Conflicts => Reading::Model(ModelJob::Conflicts),
            Job::Fuse => Reading::Model(ModelJob::Fuse),
            Job::Narrow => Reading::Model(ModelJob::Narrow),
            Job::Describe => Reading::Model(ModelJob::Describe),
            Job::Run {
                until,
                seed,
                events,
                starts,
                room,
            } => Reading::Model(ModelJob::Run(RunOptions {
                until,
                seed,
                events,
                starts,
                room,
            })),
            Job::Replicate {
                until,
                seed,
                events,
                runs,
                starts,
                stride,
            } => Reading::Model(ModelJob::Replicate(ReplicateOptions {
                until,
                seed,
                events,
                runs,
                starts,
                stride,
            })),
            Job::Save {
                until,
                seed,
                events,
                starts,
            } => Reading::Model(ModelJob::Save(SaveOptions {
                until,
                seed,
                events,
                starts,
            })),
            Job::Compare {
                until,
                seed,
                events,
                starts,
                runs,
            } => Reading::Pair(PairJob::Compare(CompareOptions {
                until,
                seed,
                events,
                starts,
                runs,
            })),
            Job::Resume {
                until,
                events,
                room,
            } => Reading::Saved(SavedJob::Resume(ResumeOptions {
                until,
                events,
                room,
            })),
            Job::Trial {
                seed,
                vertices,
                until,
                events,
            } => Reading::Nothing(BareJob::Trial(TrialOptions {
                seed,
                vertices,
                until,
                events,
            })),
        }
    }
}
