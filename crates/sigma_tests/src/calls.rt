//! One call of the program over memory, and what is seen of it.

use sig_base::{List, MemorySink, MemorySource, NoMemory, Text};
use sigma_top::{Status, sigma};
use std::alloc::{AllocError, Global};

/// The calls, counted from 1, at which each device fails; 0 is none.
#[derive(Clone, Copy)]
pub struct Failing {
    pub read: u64,
    pub write: u64,
    pub error: u64,
}

/// Devices that never fail.
pub const SOUND: Failing = Failing {
    read: 0,
    write: 0,
    error: 0,
};

/// What the program is to answer: a status, and the bytes on the output and on the error output.
#[derive(Clone, Copy)]
pub struct Answer<'a> {
    pub status: Status,
    pub output: &'a [u8],
    pub errors: &'a [u8],
}

/// Nothing but a status and its line.
pub fn refusal(status: Status, errors: &[u8]) -> Answer<'_> {
    Answer {
        status,
        output: b"",
        errors,
    }
}

/// The job done, with these bytes on the output.
pub fn done(output: &[u8]) -> Answer<'_> {
    Answer {
        status: Status::Done,
        output,
        errors: b"",
    }
}

/// What was seen of a call: whether it gave the wanted answer, and how often it called the input,
/// the output and the error output.
#[derive(Clone, Copy, Debug, PartialEq, Eq)]
pub struct Seen {
    pub is_wanted: bool,
    pub reads: u64,
    pub writes: u64,
    pub complaints: u64,
}

/// What is seen of the program with these words over these two devices, and over an error output
/// that takes a line at a write.
fn over_devices(
    alloc: Global,
    words: &[String],
    input: &mut MemorySource,
    output: &mut MemorySink,
    failing: Failing,
    wanted: Answer<'_>,
) -> Result<Seen, NoMemory> {
    let failing_calls = List::of_one(alloc, failing.error)?;
    let mut errors = MemorySink::begin(alloc, 1_000, 1_000, failing_calls)?;
    let status = sigma(alloc, words, input, output, &mut errors);
    Ok(Seen {
        is_wanted: status == wanted.status
            && output.written() == wanted.output
            && errors.written() == wanted.errors,
        reads: input.calls(),
        writes: output.calls(),
        complaints: errors.calls(),
    })
}

/// The same over this input, and over an output that takes one byte at a write.
fn over_input(
    alloc: Global,
    words: &[String],
    input: &mut MemorySource,
    failing: Failing,
    wanted: Answer<'_>,
) -> Result<Seen, NoMemory> {
    let failing_calls = List::of_one(alloc, failing.write)?;
    let mut output = MemorySink::begin(alloc, 100_000, 1, failing_calls)?;
    over_devices(alloc, words, input, &mut output, failing, wanted)
}

/// What is seen of the program with these words and this text, which is handed out in pieces of 7
/// bytes. The output takes one byte at a write, and the error output a line.
pub fn run(
    alloc: Global,
    words: &[String],
    text: Vec<u8>,
    failing: Failing,
    wanted: Answer<'_>,
) -> Result<Seen, NoMemory> {
    let failing_calls = List::of_one(alloc, failing.read)?;
    let mut input = MemorySource::new(Text::from_vec(text), 7, failing_calls);
    over_input(alloc, words, &mut input, failing, wanted)
}

/// So many bytes of these.
pub fn front(bytes: &[u8], length: usize) -> &[u8] {
    match bytes.get(..length) {
        Some(front) => front,
        None => bytes,
    }
}

/// The words of a command line.
pub fn words(alloc: Global, line: &str) -> Result<Vec<String>, AllocError> {
    let mut words = Vec::new(alloc);
    for word in line.split_whitespace() {
        words.push(word.to_string(alloc)?)?;
    }
    Ok(words)
}

/// What is seen of the program with the words of this line and this text.
pub fn called(
    alloc: Global,
    line: &str,
    text: &[u8],
    failing: Failing,
    wanted: Answer<'_>,
) -> Result<Seen, NoMemory> {
    let words = words(alloc, line)?;
    let text = Vec::from_slice(alloc, text)?;
    run(alloc, &words, text, failing, wanted)
}
