//! Calls that end before a text is read whole, or before anything is written: which devices they
//! have called by then. And texts at the limit of their length.

use crate::calls::{Failing, SOUND, Seen, called, done, refusal};
use crate::models::{BANK, CLOCK, ONE, ONE_WRITTEN};
use sig_base::TEXT_MAX;
use sigma_top::Status;
use std::test::*;

/// A text that declares no variable.
const LOOSE: &[u8] = b"model M;vertex RUN{schedule RUN after(0)priority 5 when true;}end";

#[test]
fn finishing_may_fail_where_there_is_nothing_to_write(rt: HostRuntime) -> Result<(), Fail> {
    let failing = Failing { write: 1, ..SOUND };
    let wanted = refusal(Status::WriteFault, b"sigma: cannot write\n");
    assert!(rt; called(rt.alloc(), "uses", LOOSE, failing, wanted)?.is_wanted);
    Ok(())
}

#[test]
fn other_words_are_usage(rt: HostRuntime) -> Result<(), Fail> {
    let usage = refusal(Status::Usage, b"sigma: bad command line\n");
    for line in ["", "grow", "--", "reduce reduce", "reduce --seed 1"] {
        let untouched = Seen {
            is_wanted: true,
            reads: 0,
            writes: 0,
            complaints: 1,
        };
        assert!(rt; called(rt.alloc(), line, ONE, SOUND, usage)? == untouched);
    }
    Ok(())
}

/// Starting values that a text doesn't allow, and the line that says why.
const BAD_STARTS: [(&str, &[u8], &[u8]); 5] = [
    (
        "run --seed 42 --events 1000 --until 100",
        BANK,
        b"sigma: starting values needed 1 given 0\n",
    ),
    (
        "run --seed 42 --events 1000 --until 100 --start 1,1",
        BANK,
        b"sigma: starting values needed 1 given 2\n",
    ),
    (
        "run --seed 42 --events 1000 --until 100 --start 3",
        BANK,
        b"sigma: starting value 1 outside: 3\n",
    ),
    (
        "run --seed 42 --events 1000 --until 100 --start=-9223372036854775808",
        BANK,
        b"sigma: starting value 1 outside: -9223372036854775808\n",
    ),
    (
        "replicate --until 12 --seed 1 --events 100 --runs 2 --start 5",
        CLOCK,
        b"sigma: starting values needed 0 given 1\n",
    ),
];

#[test]
fn nothing_is_written_where_starting_values_are_refused(rt: HostRuntime) -> Result<(), Fail> {
    for (line, text, complaint) in BAD_STARTS {
        let wanted = refusal(Status::BadStart, complaint);
        let seen = called(rt.alloc(), line, text, SOUND, wanted)?;
        assert!(rt; seen.is_wanted && seen.writes == 0);
    }
    Ok(())
}

const TOO_LONG: &[u8] = b"sigma: text too long\n";

#[test]
fn a_text_ends_at_its_limit(rt: HostRuntime) -> Result<(), Fail> {
    for (length, word, wanted) in [
        (TEXT_MAX, "check", done(b"accepted ONE\n")),
        (TEXT_MAX, "reduce", done(ONE_WRITTEN)),
        (TEXT_MAX + 1, "check", refusal(Status::Refused, TOO_LONG)),
        (TEXT_MAX + 1, "reduce", refusal(Status::Refused, TOO_LONG)),
    ] {
        let mut text = Vec::from_slice(rt.alloc(), ONE)?;
        text.resize(length, b' ')?;
        assert!(rt; called(rt.alloc(), word, &text, SOUND, wanted)?.is_wanted);
    }
    Ok(())
}
