//! An output that fails at one call and is sound at each other one: no call is made on it after the
//! one that failed, though bytes are left in the buffer.

use sig_base::{StdSink, StdSource};
use sigma_top::buffered;
use std::alloc::{AllocError, Global};
use std::io;
use std::io::{BufWriter, Error, ErrorKind, Write};
use std::process::ExitCode;
use std::test::*;

/// A writer whose call of this number fails, counted from 1. Each other call takes all bytes.
#[derive(Drop)]
struct FailsOnce {
    failing: u32,
    calls: u32,
    taken: Vec<u8>,
}

impl FailsOnce {
    /// Counts a call, and fails if it is the one.
    fn call(&mut self) -> io::Result<()> {
        self.calls = self.calls.saturating_add(1);
        if self.calls == self.failing {
            return Err(Error::from(ErrorKind::Other));
        }
        Ok(())
    }
}

impl Write for FailsOnce {
    fn write(&mut self, buf: &[u8]) -> io::Result<usize> {
        self.call()?;
        self.taken.write(buf)
    }

    fn flush(&mut self) -> io::Result<()> {
        self.call()
    }
}

/// A clock whose history up to 1,000 has 13,918 bytes. Its first lines fill the buffer of 8,192
/// bytes.
const CLOCK: &[u8] =
    b"model CLOCK; var N : 0..9999 = 1000; watch N; vertex RUN { set N := N + 1; schedule RUN after 1; } end";

/// The words of a run of it.
fn words(alloc: Global) -> Result<Vec<String>, AllocError> {
    let mut words = Vec::new(alloc);
    for word in ["run", "--until", "1000", "--seed", "1", "--events", "5000"] {
        words.push(word.to_string(alloc)?)?;
    }
    Ok(words)
}

/// The run over an output that fails at this call, or never at the call 0: the exit status, the
/// number of calls on the output, and how many bytes it took.
fn run_over(alloc: Global, failing: u32) -> io::Result<(ExitCode, u32, usize)> {
    let device = FailsOnce {
        failing,
        calls: 0,
        taken: Vec::new(alloc),
    };
    let words = words(alloc)?;
    let output = BufWriter::new(alloc, device)?;
    let mut input = StdSource::new(CLOCK);
    let mut errors = StdSink::new(Vec::new(alloc));
    let (code, device) = buffered(alloc, Ok(words), &mut input, output, &mut errors);
    Ok((code, device.calls, device.taken.len()))
}

/// Where no call fails there are three: for what fills the buffer, for the rest, and to finish.
#[test]
fn what_is_left_in_the_buffer_is_not_tried_again(rt: HostRuntime) -> Result<(), Fail> {
    for (failing, wanted) in [
        (0, (ExitCode::SUCCESS, 3, 13_918)),
        (1, (ExitCode::from(4), 1, 0)),
        (2, (ExitCode::from(4), 2, 8_192)),
        (3, (ExitCode::from(4), 3, 13_918)),
    ] {
        assert!(rt; run_over(rt.alloc(), failing)? == wanted, "at {failing}");
    }
    Ok(())
}
