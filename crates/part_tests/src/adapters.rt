//! Sources and sinks over readers and writers of std: how often a call is tried, and that all bytes get through.

ghost use Rattle.std.specs.Prelude.{◌≡◌, [], Some, IfOk, OnOk};

use crate::memory::BYTES;
use sig_base::{Failed, Sink, Source, StdSink, StdSource, TakeError, Text, put, take_all};
use std::alloc::Global;
use std::io;
use std::io::{Error, ErrorKind, Read, Write};
use std::test::*;

/// What a device does once it was interrupted as often as it is to be.
#[derive(Clone, Copy)]
enum Then {
    Serves,
    MovesNoByte,
    Fails(ErrorKind),
}

/// A reader and a writer whose first calls are interrupted, whose next call comes to `then`, and which is
/// sound from there on. It counts its calls.
#[derive(Drop)]
struct Device<I> {
    interruptions: u32,
    then: Then,
    calls: u32,
    inner: I,
}

impl<I> Device<I> {
    fn new(interruptions: u32, then: Then, inner: I) -> Device<I> {
        Device {
            interruptions,
            then,
            calls: 0,
            inner,
        }
    }

    /// What this call comes to before the inner device is asked.
    fn call(&mut self) -> io::Result<Then> {
        self.calls = self.calls.saturating_add(1);
        if self.interruptions > 0 {
            self.interruptions -= 1;
            return Err(Error::from(ErrorKind::Interrupted));
        }
        let now = self.then;
        self.then = Then::Serves;
        match now {
            Then::Fails(kind) => Err(Error::from(kind)),
            Then::Serves | Then::MovesNoByte => Ok(now),
        }
    }
}

impl<R: Read> Read for Device<R> {
    fn read(&mut self, buf: &mut [u8]) -> io::Result<usize> {
        match self.call()? {
            Then::MovesNoByte => Ok(0),
            _ => self.inner.read(buf),
        }
    }
}

impl<W: Write> Write for Device<W> {
    fn write(&mut self, buf: &[u8]) -> io::Result<usize> {
        match self.call()? {
            Then::MovesNoByte => Ok(0),
            _ => self.inner.write(buf),
        }
    }

    fn flush(&mut self) -> io::Result<()> {
        self.call()?;
        self.inner.flush()
    }
}

/// The bytes, taken from a reader whose first calls are interrupted.
fn taken(alloc: Global, interruptions: u32) -> Result<Text, TakeError> {
    let mut source = StdSource::new(Device::new(interruptions, Then::Serves, BYTES));
    take_all(alloc, &mut source, 100)
}

/// What a writer has whose first calls are interrupted, after all the bytes were put.
fn written(alloc: Global, interruptions: u32) -> Vec<u8> {
    let mut bytes = Vec::new(alloc);
    let mut sink = StdSink::new(Device::new(interruptions, Then::Serves, &mut bytes));
    let _ = put(&mut sink, BYTES);
    drop(sink);
    bytes
}

#[test]
fn interruptions_lose_no_byte(rt: HostRuntime) -> Result<(), Fail> {
    for interruptions in [0, 3, 99] {
        assert!(rt; taken(rt.alloc(), interruptions)?.as_slice() == BYTES);
        assert!(rt; written(rt.alloc(), interruptions).as_slice() == BYTES);
    }
    assert!(rt; taken(rt.alloc(), 100).is_err());
    assert!(rt; written(rt.alloc(), 100).is_empty());
    Ok(())
}

/// Whether a call of a source or a sink succeeded, and how many calls it made of its device.
type Outcome = (bool, u32);

fn outcome_of_read(interruptions: u32, then: Then) -> Outcome {
    let mut device = Device::new(interruptions, then, BYTES);
    let mut source = StdSource::new(&mut device);
    let is_read = source.read(&mut [0; 8]).is_ok();
    drop(source);
    (is_read, device.calls)
}

fn outcome_of_write(alloc: Global, interruptions: u32, then: Then) -> Outcome {
    let mut device = Device::new(interruptions, then, Vec::new(alloc));
    let mut sink = StdSink::new(&mut device);
    let is_written = sink.write(BYTES).is_ok();
    drop(sink);
    (is_written, device.calls)
}

fn outcome_of_finish(alloc: Global, interruptions: u32, then: Then) -> Outcome {
    let mut device = Device::new(interruptions, then, Vec::new(alloc));
    let mut sink = StdSink::new(&mut device);
    let is_finished = sink.finish().is_ok();
    drop(sink);
    (is_finished, device.calls)
}

/// Whether a read, a write and a finish each have this outcome.
fn all_come_out(alloc: Global, interruptions: u32, then: Then, wanted: Outcome) -> bool {
    outcome_of_read(interruptions, then) == wanted
        && outcome_of_write(alloc, interruptions, then) == wanted
        && outcome_of_finish(alloc, interruptions, then) == wanted
}

#[test]
fn an_interrupted_call_is_tried_100_times_in_all(rt: HostRuntime) {
    for (interruptions, wanted) in [
        (0, (true, 1)),
        (1, (true, 2)),
        (99, (true, 100)),
        (100, (false, 100)),
        (1_000, (false, 100)),
    ] {
        assert!(rt; all_come_out(rt.alloc(), interruptions, Then::Serves, wanted));
    }
}

#[test]
fn any_other_error_fails_at_once(rt: HostRuntime) {
    for kind in [
        ErrorKind::NotFound,
        ErrorKind::PermissionDenied,
        ErrorKind::BrokenPipe,
        ErrorKind::WouldBlock,
        ErrorKind::TimedOut,
        ErrorKind::WriteZero,
        ErrorKind::StorageFull,
        ErrorKind::UnexpectedEof,
        ErrorKind::OutOfMemory,
        ErrorKind::Other,
    ] {
        for (interruptions, calls) in [(0, 1), (3, 4), (99, 100)] {
            let wanted = (false, calls);
            assert!(rt; all_come_out(rt.alloc(), interruptions, Then::Fails(kind), wanted));
        }
    }
}

#[test]
fn a_write_of_no_byte_fails_at_once(rt: HostRuntime) {
    for (interruptions, calls) in [(0, 1), (3, 4), (99, 100)] {
        let outcome = outcome_of_write(rt.alloc(), interruptions, Then::MovesNoByte);
        assert!(rt; outcome == (false, calls));
    }
}

#[test]
fn a_read_of_no_byte_is_the_end(rt: HostRuntime) {
    assert!(rt; outcome_of_read(0, Then::MovesNoByte) == (true, 1));
}

// No test calls these two: by being proved they show that a client can promise so much from the clauses alone.

/// The bytes, through a reader of std.
fn through_reader(alloc: Global, bytes: &[u8]) -> Result<Text, TakeError>
    ensures { IfOk result (λ text. text ≡ bytes.now) }
{
    let mut source = StdSource::new(bytes);
    take_all(alloc, &mut source, usize::MAX)
}

/// The bytes, through a writer of std.
fn through_writer(sink: &mut StdSink<Vec<u8>>, bytes: &[u8]) -> Result<(), Failed>
    ensures { OnOk result ((⟦<StdSink<Vec<u8>> as Sink>⟧.seen sink.old).written ≡ Some []
        → (⟦<StdSink<Vec<u8>> as Sink>⟧.seen sink.new).written ≡ Some bytes.now) }
{
    put(sink, bytes)
}
