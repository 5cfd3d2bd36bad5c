//! A failing error output, for each status: it changes none, and no call is made on it after the
//! one that failed.

use crate::calls::{Answer, Failing, SOUND, called};
use crate::models::{BANK, ONE};
use sig_base::NoMemory;
use sigma_top::Status;
use std::alloc::Global;
use std::test::*;

const LOOP: &[u8] =
    b"model LOOP;\nvertex RUN {\n  urgent A;\n}\nvertex A {\n  urgent B;\n}\nvertex B {\n  urgent A;\n}\nend\n";

const EARLY: &[u8] = b"model EARLY; vertex RUN { schedule RUN after 0 - 1; } end";

/// A document whose certificate prunes an edge that the model doesn't have.
const NO_EDGE: &[u8] =
    b"model M; vertex V { } end model M; vertex V { } end certificate prune V 1 end";

const FAILING_READ: Failing = Failing { read: 1, ..SOUND };

const FAILING_WRITE: Failing = Failing { write: 1, ..SOUND };

/// The words, the text and the devices of a call; its status and output; and how often it calls the
/// error output.
type Case = (
    &'static str,
    &'static [u8],
    Failing,
    Status,
    &'static [u8],
    u64,
);

/// Each status but that of running out of memory, and of a snapshot that is too long.
const CASES: [Case; 10] = [
    ("reduce", b"", SOUND, Status::Refused, b"", 1),
    ("grow", ONE, SOUND, Status::Usage, b"", 1),
    ("check", ONE, FAILING_READ, Status::ReadFault, b"", 1),
    ("check", ONE, FAILING_WRITE, Status::WriteFault, b"", 1),
    (
        "run --seed 42 --events 1 --until 9 --start 3",
        BANK,
        SOUND,
        Status::BadStart,
        b"",
        1,
    ),
    (
        "save --seed 42 --events 9 --until 9",
        ONE,
        SOUND,
        Status::Finished,
        b"",
        1,
    ),
    ("check", ONE, SOUND, Status::Done, b"accepted ONE\n", 0),
    (
        "run --seed 42 --events 9 --until 9",
        EARLY,
        SOUND,
        Status::ModelFault,
        b"fault 0 delay\n",
        0,
    ),
    (
        "run --seed 42 --events 9 --until 9",
        LOOP,
        SOUND,
        Status::Budget,
        b"budget 9\n",
        0,
    ),
    (
        "certify",
        NO_EDGE,
        SOUND,
        Status::Rejected,
        b"rejected 1\n",
        0,
    ),
];

/// Whether the status and the output are the same where the first call of the error output fails,
/// and how often it is called.
fn with_failing_errors(alloc: Global, case: &Case) -> Result<(bool, u64), NoMemory> {
    let (line, text, failing, status, output, _) = *case;
    let wanted = Answer {
        status,
        output,
        errors: b"",
    };
    let seen = called(
        alloc,
        line,
        text,
        Failing {
            error: 1,
            ..failing
        },
        wanted,
    )?;
    Ok((seen.is_wanted, seen.complaints))
}

#[test]
fn a_failing_error_output_changes_no_status(rt: HostRuntime) -> Result<(), Fail> {
    for case in &CASES {
        assert!(rt; with_failing_errors(rt.alloc(), case)? == (true, case.5));
    }
    Ok(())
}
