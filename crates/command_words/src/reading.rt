//! What a job reads, if anything, and what it asks of that: one type for each thing that is read.

ghost use Rattle.std.specs.Prelude.{◌≡◌};
ghost use Rattle.command_words.specs.Readings.{limit_of};

use crate::compare_options::CompareOptions;
use crate::replicate_options::ReplicateOptions;
use crate::resume_options::ResumeOptions;
use crate::run_options::RunOptions;
use crate::save_options::SaveOptions;
use crate::trial_options::TrialOptions;
use sig_base::{DOCUMENT_MAX, TEXT_MAX};

/// What a job reads, and what it asks of that.
#[derive(Drop)]
pub enum Reading {
    /// The text of one model.
    Model(ModelJob),
    /// A document: two models and a certificate, one after the other.
    Document(DocumentJob),
    /// The texts of two models, one after the other.
    Pair(PairJob),
    /// A saved document: a model and what was saved of a run of it, one after the other.
    Saved(SavedJob),
    /// Nothing: the words say all.
    Nothing(BareJob),
}

/// What is asked of a model.
#[derive(Drop)]
pub enum ModelJob {
    /// Whether it is accepted.
    Check,
    /// Its canonical form.
    Print,
    /// It without what it doesn't need, and the certificate of that.
    Reduce,
    /// Who reads and who writes each of its variables, and whether it is watched.
    Uses,
    /// The pairs of its vertices whose events, where they are simultaneous, need priorities, and why.
    Conflicts,
    /// It with one left of vertices that do the same.
    Fuse,
    /// It with the ranges declared that it needs.
    Narrow,
    /// It in English sentences.
    Describe,
    /// The watched history of a run of it, as it happens.
    Run(RunOptions),
    /// The tallies of many runs of it, and their totals.
    Replicate(ReplicateOptions),
    /// A run of it, stopped while it goes on, as text from which it can go on.
    Save(SaveOptions),
}

/// What is asked of a document.
#[derive(Drop)]
pub enum DocumentJob {
    /// Whether its certificate holds between its two models.
    Certify,
}

/// What is asked of two models.
#[derive(Drop)]
pub enum PairJob {
    /// Whether they mean the same.
    Compare(CompareOptions),
}

/// What is asked of a saved document.
#[derive(Drop)]
pub enum SavedJob {
    /// The watched history of its run, from where it was saved.
    Resume(ResumeOptions),
}

/// What is asked without anything to read.
#[derive(Drop)]
pub enum BareJob {
    /// The results of a model that is generated from a number.
    Trial(TrialOptions),
}

impl Reading {
    /// The most bytes that the text may have: `None` of a job that reads none.
    pub fn limit(&self) -> Option<usize>
        ensures { result ≡ limit_of self.now }
    {
        match self {
            Reading::Model(_) => Some(TEXT_MAX),
            Reading::Document(_) | Reading::Pair(_) | Reading::Saved(_) => Some(DOCUMENT_MAX),
            Reading::Nothing(_) => None,
        }
    }
}
