//! Devices that fail at one call, whichever that is: what is answered, and that no call is made on
//! a device after the one that failed.

use crate::calls::{Answer, Failing, SOUND, Seen, called, done, front, refusal};
use crate::models::{BANK, CLOCK, CLOCK_SAVED, ONE, ONE_DOCUMENT, ONE_WRITTEN};
use sig_base::NoMemory;
use sigma_top::Status;
use std::alloc::Global;
use std::test::*;

/// A job over devices that don't fail: its words, its text and what it writes. It reads in pieces
/// of 7 bytes, and once more to find the end. It writes byte by byte, and then finishes the output.
struct Job {
    line: &'static str,
    text: &'static [u8],
    written: &'static [u8],
    reads: u64,
    writes: u64,
}

/// Texts of 106, 205 and 178 bytes; of a trial nothing is read.
const JOBS: [Job; 9] = [
    Job {
        line: "run --until 12 --seed 42 --events 1000",
        text: CLOCK,
        written: b"at 0 N=1\nat 5 N=2\nat 10 N=3\nstopped 12\n",
        reads: 17,
        writes: 40,
    },
    Job {
        line: "run --seed 42 --events 1000 --until 12",
        text: CLOCK,
        written: b"at 0 N=1\nat 5 N=2\nat 10 N=3\nstopped 12\n",
        reads: 17,
        writes: 40,
    },
    Job {
        line: "reduce",
        text: ONE,
        written: ONE_WRITTEN,
        reads: 17,
        writes: 100,
    },
    Job {
        line: "replicate --until 12 --seed 1 --events 100 --runs 2",
        text: CLOCK,
        written: b"run,seed,outcome,time,item,least,greatest,last,area,count\n1,1,stopped,12,N,1,3,3,21,\n2,2,stopped,12,N,1,3,3,21,\ntotal,,,,N,1,3,,42,\n",
        reads: 17,
        writes: 133,
    },
    Job {
        line: "certify",
        text: ONE_DOCUMENT,
        written: b"sound\n",
        reads: 31,
        writes: 7,
    },
    Job {
        line: "trial --seed 42 --vertices 2 --until 20 --events 100",
        text: b"",
        written: b"original vertices 2 variables 9 edges 3\nreduced vertices 2 variables 2 edges 4\napplications 2\noriginal stopped 20 events 8 notes 1\nreduced stopped 20 events 7 notes 1\n",
        reads: 0,
        writes: 168,
    },
    Job {
        line: "trial --seed 42 --vertices 2 --until 20 --events 100",
        text: BANK,
        written: b"original vertices 2 variables 9 edges 3\nreduced vertices 2 variables 2 edges 4\napplications 2\noriginal stopped 20 events 8 notes 1\nreduced stopped 20 events 7 notes 1\n",
        reads: 0,
        writes: 168,
    },
    Job {
        line: "save --until 12 --seed 42 --events 2",
        text: CLOCK,
        written: CLOCK_SAVED,
        reads: 17,
        writes: 179,
    },
    Job {
        line: "resume --until 12 --events 100",
        text: CLOCK_SAVED,
        written: b"at 5 N=2\nat 10 N=3\nstopped 12\n",
        reads: 27,
        writes: 31,
    },
];

/// What is seen of the job over such devices.
fn seen_of(
    alloc: Global,
    job: &Job,
    failing: Failing,
    wanted: Answer<'_>,
) -> Result<Seen, NoMemory> {
    called(alloc, job.line, job.text, failing, wanted)
}

/// What is seen of the job where this read fails.
fn with_failing_read(alloc: Global, job: &Job, read: u64) -> Result<Seen, NoMemory> {
    let failing = Failing { read, ..SOUND };
    let wanted = refusal(Status::ReadFault, b"sigma: cannot read\n");
    seen_of(alloc, job, failing, wanted)
}

#[test]
fn a_failed_read_is_the_last(rt: HostRuntime) -> Result<(), Fail> {
    for job in &JOBS {
        for read in 1..=job.reads {
            let last = Seen {
                is_wanted: true,
                reads: read,
                writes: 0,
                complaints: 1,
            };
            assert!(rt; with_failing_read(rt.alloc(), job, read)? == last);
        }
    }
    Ok(())
}

/// What is seen of the job where this write fails, or at the last number the call that finishes the
/// output.
fn with_failing_write(alloc: Global, job: &Job, write: u64) -> Result<Seen, NoMemory> {
    let failing = Failing { write, ..SOUND };
    let wanted = Answer {
        status: Status::WriteFault,
        output: front(job.written, write.saturating_sub(1) as usize),
        errors: b"sigma: cannot write\n",
    };
    seen_of(alloc, job, failing, wanted)
}

#[test]
fn a_failed_write_is_the_last(rt: HostRuntime) -> Result<(), Fail> {
    for job in &JOBS {
        for write in 1..=job.writes {
            let last = Seen {
                is_wanted: true,
                reads: job.reads,
                writes: write,
                complaints: 1,
            };
            assert!(rt; with_failing_write(rt.alloc(), job, write)? == last);
        }
    }
    Ok(())
}

/// A call that would fail, but isn't made any more, changes nothing.
#[test]
fn no_call_is_made_behind_the_last(rt: HostRuntime) -> Result<(), Fail> {
    for job in &JOBS {
        let failing = Failing {
            read: job.reads.saturating_add(1),
            write: job.writes.saturating_add(1),
            error: 1,
        };
        let whole = Seen {
            is_wanted: true,
            reads: job.reads,
            writes: job.writes,
            complaints: 0,
        };
        assert!(rt; seen_of(rt.alloc(), job, failing, done(job.written))? == whole);
    }
    Ok(())
}
