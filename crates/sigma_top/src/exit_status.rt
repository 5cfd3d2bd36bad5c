//! The program over any input and outputs: from the words, or the error in place of words, to the exit status.

ghost use Rattle.std.specs.Prelude.{◌≡◌, ◌≢◌, map, vec_items, IfOk, IfErr, OnErr};
ghost use Rattle.std.specs.IoError.{error_kind};
ghost use Rattle.std.specs.Process.{exit_status};
ghost use Rattle.std.specs.String.{string_bytes};
ghost use Rattle.answer_delivery.specs.Statuses.{exit_status_of, failure_line};
ghost use Rattle.sigma_top.specs.Comparisons.{ComparesModels};
ghost use Rattle.sigma_top.specs.Promises.{PromisesOf};
ghost use Rattle.sigma_top.specs.StatusTable.{ReportsLine, Ends};

use crate::top_call::{sigma, write_line};
use answer_delivery::{Failure, Status};
use sig_base::{Sink, Source};
use std::alloc::Global;
use std::io;
use std::io::ErrorKind;
use std::process::ExitCode;

/// The failure for an error in place of words: memory was refused, or a word isn't UTF-8.
fn words_failure(kind: ErrorKind) -> Failure
    ensures no_memory { kind ≡ ErrorKind.OutOfMemory → result ≡ Failure.NoMemory }
    ensures usage { kind ≢ ErrorKind.OutOfMemory → result ≡ Failure.Usage }
{
    if kind == ErrorKind::OutOfMemory {
        Failure::NoMemory
    } else {
        Failure::Usage
    }
}

/// Does the job that the words ask for, as `sigma` does, and returns the exit status. Of an error in place of words, it
/// writes the line.
pub fn program<S: Source, K: Sink, E: Sink>(
    alloc: Global,
    words: io::Result<Vec<String>>,
    input: &mut S,
    output: &mut K,
    errors: &mut E,
) -> ExitCode
    // The exit status is the number of how the call of `sigma` ended.
    ensures ended { IfOk words
        (λ words. (status : Status) × (exit_status result ≡ exit_status_of status)
        × Ends S.seen K.seen E.seen (map string_bytes (vec_items words))
        input.old input.new output.old output.new errors.old errors.new status) }

    // The promises of `sigma` hold at the exit status: where that is 0, what `reduce` writes means the same as what it read.
    ensures promises { IfOk words
        (λ words. PromisesOf (map string_bytes (vec_items words)) (exit_status result)
        (S.seen input.old) (K.seen output.old) (K.seen output.new)) }

    // So does what the answers of `compare` mean: where the exit status is 0, two models that it compared mean the same.
    ensures compared { IfOk words
        (λ words. ComparesModels (λ status. exit_status result ≡ exit_status_of status)
        (map string_bytes (vec_items words)) (S.seen input.old) (K.seen output.old) (K.seen output.new)) }

    // Without words nothing is read, and nothing but the line is written.
    ensures untouched { OnErr words ((input.new ≡ input.old) × (output.new ≡ output.old)) }
    ensures without_memory { IfErr words (λ error. error_kind error ≡ ErrorKind.OutOfMemory
        → (exit_status result ≡ exit_status_of Status.NoMemory)
        × ReportsLine (E.seen errors.old) (E.seen errors.new) (failure_line Failure.NoMemory)) }
    ensures without_words { IfErr words (λ error. error_kind error ≢ ErrorKind.OutOfMemory
        → (exit_status result ≡ exit_status_of Status.Usage)
        × ReportsLine (E.seen errors.old) (E.seen errors.new) (failure_line Failure.Usage)) }
{
    match words {
        Ok(words) => ExitCode::from(sigma(alloc, &words, input, output, errors).number()),
        Err(error) => {
            let failure = words_failure(error.kind());
            write_line(errors, failure.line());
            ExitCode::from(failure.status().number())
        }
    }
}
