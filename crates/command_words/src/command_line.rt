//! The job that the words of the command line ask for.

ghost use Rattle.std.specs.Prelude.{◌≡◌, nat_eq, map, codes, IfOk, Some, None};
ghost use Rattle.std.specs.List.{list_any};
ghost use Rattle.std.specs.Result.{IsErrOf};
ghost use lib.Pointwise.{pointwise};
ghost use Rattle.std.specs.String.{string_bytes};
ghost use Rattle.command_words.specs.ArgumentValues.{number_within, needed};
ghost use Rattle.command_words.specs.Inner.Asking.{Asked};
ghost use Rattle.command_words.specs.Inner.ClapCommand.{has_one_dash, rows_in};
ghost use Rattle.command_words.specs.Inner.MatchedJobs.{asked_by, has_only, may_be_given, matched_job, matched_values};
ghost use Rattle.command_words.specs.Readings.{reading_of};
ghost use Rattle.command_words.specs.KeptLimits.{KeepsLimits};
ghost use Rattle.command_words.specs.Jobs.{no_options, options_of, job_of, until_option, seed_option, events_option, runs_option, start_option, stride_option, room_option};

use crate::argument_values::{number_within, starting_values};
use crate::clap_matches::{matched, option_names, text_of, with_program};
use crate::job::Job;
use crate::run_options::{ROOM_MAX, ROOM_USUAL};
use crate::trial_options::VERTICES_MADE_MAX;
use crate::words_error::WordsError;
use clap::ArgMatches;
use sig_base::{EVENTS_MAX, List, RUNS_MAX, STOP_MAX};
use std::alloc::Global;

/// Whether the word begins with one `-` and no more.
fn has_one_dash(word: &[u8]) -> bool
    ensures { result ≡ has_one_dash word.now }
{
    word.starts_with(b"-") && !word.starts_with(b"--")
}

/// Whether one of the words does.
fn any_has_one_dash(words: &[String]) -> bool
    ensures { result ≡ list_any has_one_dash (map string_bytes words.now) }
{
    for word in words {
        if has_one_dash(word.as_bytes()) {
            return true;
        }
    }
    false
}

/// Whether the name is among the names.
fn is_among(names: &[&[u8]], name: &[u8]) -> bool
    ensures { result ≡ list_any (λ n. pointwise nat_eq name.now n) (map (λ n. n.now) names.now) }
{
    for other in names {
        if name == *other {
            return true;
        }
    }
    false
}

/// Whether the option isn't given, or is one of these.
fn may_be_given(options: &[&[u8]], matches: &ArgMatches<'_>, name: &str) -> bool
    ensures { result ≡ may_be_given (map (λ n. n.now) options.now) (rows_in matches.now) name.now }
{
    text_of(matches, name).is_none() || is_among(options, name.as_bytes())
}

/// Whether no option is given but these.
fn has_only(options: &[&[u8]], matches: &ArgMatches<'_>) -> bool
    ensures { result ≡ has_only (map (λ name. name.now) options.now) (rows_in matches.now) }
{
    for name in option_names() {
        if !may_be_given(options, matches, name) {
            return false;
        }
    }
    true
}

/// The number of an option that has to be given.
fn needed_number(
    matches: &ArgMatches<'_>,
    name: &str,
    lowest: u64,
    highest: u64,
) -> Result<u64, WordsError>
    ensures { Asked
        (needed (number_within lowest highest)
        (matched_values (rows_in matches.now) name.now)) result }
{
    match text_of(matches, name) {
        Some(value) => number_within(lowest, highest, value).ok_or(WordsError::BadWords),
        None => Err(WordsError::BadWords),
    }
}

/// The stop time of a run.
fn until_of(matches: &ArgMatches<'_>) -> Result<u64, WordsError>
    ensures { Asked (until_option.gives (matched_values (rows_in matches.now))) result }
{
    needed_number(matches, "until", 0, STOP_MAX)
}

/// The seed of the random streams.
fn seed_of(matches: &ArgMatches<'_>) -> Result<u64, WordsError>
    ensures { Asked (seed_option.gives (matched_values (rows_in matches.now))) result }
{
    needed_number(matches, "seed", 0, u64::MAX)
}

/// The event budget of a run.
fn events_of(matches: &ArgMatches<'_>) -> Result<u64, WordsError>
    ensures { Asked (events_option.gives (matched_values (rows_in matches.now))) result }
{
    needed_number(matches, "events", 1, EVENTS_MAX)
}

/// How many runs there are.
fn runs_of(matches: &ArgMatches<'_>) -> Result<u64, WordsError>
    ensures { Asked (runs_option.gives (matched_values (rows_in matches.now))) result }
{
    needed_number(matches, "runs", 1, RUNS_MAX)
}

/// The room of a run, in pending events.
fn room_of(matches: &ArgMatches<'_>) -> Result<usize, WordsError>
    ensures { Asked (room_option.gives (matched_values (rows_in matches.now))) result }
{
    match text_of(matches, "room") {
        Some(value) => match number_within(0, ROOM_MAX as u64, value) {
            Some(room) => Ok(room as usize),
            None => Err(WordsError::BadWords),
        },
        None => Ok(ROOM_USUAL),
    }
}

/// The starting values of a run.
fn starts_of(alloc: Global, matches: &ArgMatches<'_>) -> Result<List<i64>, WordsError>
    ensures { Asked (start_option.gives (matched_values (rows_in matches.now))) result }
{
    match text_of(matches, "start") {
        Some(value) => starting_values(alloc, value),
        None => Ok(List::new(alloc)),
    }
}

/// How far the seed of each run of `replicate` is from that of the run before.
fn stride_of(matches: &ArgMatches<'_>) -> Result<u64, WordsError>
    ensures { Asked (stride_option.gives (matched_values (rows_in matches.now))) result }
{
    match text_of(matches, "stride") {
        Some(value) => number_within(1, u64::MAX, value).ok_or(WordsError::BadWords),
        None => Ok(1),
    }
}

/// A job that takes no option.
fn alone(matches: &ArgMatches<'_>, job: Job) -> Result<Job, WordsError>
    ensures { Asked (asked_by (Some (no_options job)) (rows_in matches.now)) result }
{
    if !has_only(&[], matches) {
        return Err(WordsError::BadWords);
    }
    Ok(job)
}

/// The job `run`, by its options.
fn run_of(alloc: Global, matches: &ArgMatches<'_>) -> Result<Job, WordsError>
    ensures { Asked (asked_by (options_of (codes "run")) (rows_in matches.now)) result }
{
    if !has_only(&[b"until", b"seed", b"events", b"start", b"room"], matches) {
        return Err(WordsError::BadWords);
    }
    let until = until_of(matches)?;
    let seed = seed_of(matches)?;
    let events = events_of(matches)?;
    let room = room_of(matches)?;
    let starts = starts_of(alloc, matches)?;
    Ok(Job::Run {
        until,
        seed,
        events,
        starts,
        room,
    })
}

/// The job `replicate`, by its options.
fn replicate_of(alloc: Global, matches: &ArgMatches<'_>) -> Result<Job, WordsError>
    ensures { Asked (asked_by (options_of (codes "replicate")) (rows_in matches.now)) result }
{
    if !has_only(
        &[b"until", b"seed", b"events", b"runs", b"start", b"stride"],
        matches,
    ) {
        return Err(WordsError::BadWords);
    }
    let until = until_of(matches)?;
    let seed = seed_of(matches)?;
    let events = events_of(matches)?;
    let runs = runs_of(matches)?;
    let starts = starts_of(alloc, matches)?;
    let stride = stride_of(matches)?;
    Ok(Job::Replicate {
        until,
        seed,
        events,
        runs,
        starts,
        stride,
    })
}

/// The job `compare`, by its options.
fn compare_of(alloc: Global, matches: &ArgMatches<'_>) -> Result<Job, WordsError>
    ensures { Asked (asked_by (options_of (codes "compare")) (rows_in matches.now)) result }
{
    if !has_only(&[b"until", b"seed", b"events", b"start", b"runs"], matches) {
        return Err(WordsError::BadWords);
    }
    let until = until_of(matches)?;
    let seed = seed_of(matches)?;
    let events = events_of(matches)?;
    let starts = starts_of(alloc, matches)?;
    let runs = runs_of(matches)?;
    Ok(Job::Compare {
        until,
        seed,
        events,
        starts,
        runs,
    })
}

/// The job `save`, by its options.
fn save_of(alloc: Global, matches: &ArgMatches<'_>) -> Result<Job, WordsError>
    ensures { Asked (asked_by (options_of (codes "save")) (rows_in matches.now)) result }
{
    if !has_only(&[b"until", b"seed", b"events", b"start"], matches) {
        return Err(WordsError::BadWords);
    }
    let until = until_of(matches)?;
    let seed = seed_of(matches)?;
    let events = events_of(matches)?;
    let starts = starts_of(alloc, matches)?;
    Ok(Job::Save {
        until,
        seed,
        events,
        starts,
    })
}

/// The job `resume`, by its options.
fn resume_of(matches: &ArgMatches<'_>) -> Result<Job, WordsError>
    ensures { Asked (asked_by (options_of (codes "resume")) (rows_in matches.now)) result }
{
    if !has_only(&[b"until", b"events", b"room"], matches) {
        return Err(WordsError::BadWords);
    }
    let until = until_of(matches)?;
    let events = events_of(matches)?;
    let room = room_of(matches)?;
    Ok(Job::Resume {
        until,
        events,
        room,
    })
}

/// The job `trial`, by its options.
fn trial_of(matches: &ArgMatches<'_>) -> Result<Job, WordsError>
    ensures { Asked (asked_by (options_of (codes "trial")) (rows_in matches.now)) result }
{
    if !has_only(&[b"seed", b"vertices", b"until", b"events"], matches) {
        return Err(WordsError::BadWords);
    }
    let seed = seed_of(matches)?;
    let vertices = needed_number(matches, "vertices", 1, VERTICES_MADE_MAX as u64)? as usize;
    let until = until_of(matches)?;
    let events = events_of(matches)?;
    Ok(Job::Trial {
        seed,
        vertices,
        until,
        events,
    })
}

/// The job of the command that the word names, by its options.
fn command_job(alloc: Global, word: &[u8], matches: &ArgMatches<'_>) -> Result<Job, WordsError>
    ensures { Asked (asked_by (options_of word.now) (rows_in matches.now)) result }
{
    if word == b"check".as_slice() {
        alone(matches, Job::Check)
    } else if word == b"print".as_slice() {
        alone(matches, Job::Print)
    } else if word == b"reduce".as_slice() {
        alone(matches, Job::Reduce)
    } else if word == b"certify".as_slice() {
        alone(matches, Job::Certify)
    } else if word == b"uses".as_slice() {
        alone(matches, Job::Uses)
    } else if word == b"conflicts".as_slice() {
        alone(matches, Job::Conflicts)
    } else if word == b"fuse".as_slice() {
        alone(matches, Job::Fuse)
    } else if word == b"narrow".as_slice() {
        alone(matches, Job::Narrow)
    } else if word == b"describe".as_slice() {
        alone(matches, Job::Describe)
    } else if word == b"run".as_slice() {
        run_of(alloc, matches)
    } else if word == b"replicate".as_slice() {
        replicate_of(alloc, matches)
    } else if word == b"compare".as_slice() {
        compare_of(alloc, matches)
    } else if word == b"save".as_slice() {
        save_of(alloc, matches)
    } else if word == b"resume".as_slice() {
        resume_of(matches)
    } else if word == b"trial".as_slice() {
        trial_of(matches)
    } else {
        Err(WordsError::BadWords)
    }
}

/// The job that the matches ask for.
fn matched_job(alloc: Global, matches: &ArgMatches<'_>) -> Result<Job, WordsError>
    ensures { Asked (matched_job (rows_in matches.now)) result }
{
    match text_of(matches, "command") {
        Some(word) => command_job(alloc, word, matches),
        None => Err(WordsError::BadWords),
    }
}

/// The job that the words, without the program's name, ask for. `clap` reads them; but it takes a single `-` as the
/// value of an option, so words that begin with one `-`, which are part of no job, are refused before.
pub fn words(alloc: Global, words: &[String]) -> Result<Job, WordsError>
    ensures ok { IfOk result (λ job. job_of (map string_bytes words.now) ≡ Some job) }
    // What it asks for keeps its limits.
    ensures within { IfOk result (λ job. KeepsLimits (reading_of job)) }
    ensures bad_words { IsErrOf result WordsError.BadWords
        → job_of (map string_bytes words.now) ≡ None }
{
    if any_has_one_dash(words) {
        return Err(WordsError::BadWords);
    }
    let named = with_program(alloc, words)?;
    match matched(alloc, named.as_slice())? {
        Some(matches) => matched_job(alloc, &matches),
        None => Err(WordsError::BadWords),
    }
}
