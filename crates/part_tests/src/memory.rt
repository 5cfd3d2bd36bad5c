//! Sources and sinks over memory, of which chosen calls fail.

ghost use Rattle.std.specs.Prelude.{◌≡◌, ◌<◌, ◌++◌, [], ◌∷◌, IfOk, OnOk};

use sig_base::{Failed, List, MemorySink, MemorySource, NoMemory, TakeError, Text, put, take_all};
use std::alloc::Global;
use std::mem::forget;
use std::test::*;

pub const BYTES: &[u8] = b"an event graph has vertices and edges";

/// Why not all of the bytes were taken, in pieces of 7 and up to a limit, or else whether they were; and how often the
/// source was called. One call fails.
fn taken(
    alloc: Global,
    limit: usize,
    failing: u64,
) -> Result<(Result<bool, TakeError>, u64), NoMemory> {
    let content = Text::from_vec(Vec::from_slice(alloc, BYTES)?);
    let mut source = MemorySource::new(content, 7, List::of_one(alloc, failing)?);
    let is_whole = match take_all(alloc, &mut source, limit) {
        Ok(text) => Ok(text.as_slice() == BYTES),
        Err(error) => Err(error),
    };
    let calls = source.calls();
    forget(source);
    Ok((is_whole, calls))
}

#[test]
fn a_limit_is_met_exactly(rt: HostRuntime) -> Result<(), Fail> {
    for limit in [37, 38, usize::MAX] {
        assert_eq!(rt; taken(rt.alloc(), limit, 0)?, (Ok(true), 7));
    }
    assert_eq!(rt; taken(rt.alloc(), 36, 0)?.0, Err(TakeError::TooLong));
    Ok(())
}

#[test]
fn a_failed_read_is_the_last(rt: HostRuntime) -> Result<(), Fail> {
    // 37 bytes in pieces of 7 are 6 reads, and a seventh that finds the end.
    for call in 1..=7 {
        assert_eq!(rt;
            taken(rt.alloc(), 100, call)?,
            (Err(TakeError::ReadFault), call)
        );
    }
    Ok(())
}

/// How many bytes a sink has, and how often it was called, after the bytes were put one by one and
/// one call failed.
fn put_failing(alloc: Global, failing: u64) -> Result<(usize, u64), NoMemory> {
    let mut sink = MemorySink::begin(alloc, 37, 1, List::of_one(alloc, failing)?)?;
    let _ = put(&mut sink, BYTES);
    Ok((sink.written().len(), sink.calls()))
}

#[test]
fn a_failed_write_is_the_last(rt: HostRuntime) -> Result<(), Fail> {
    for written in 0..37 {
        let call = written as u64 + 1;
        assert_eq!(rt; put_failing(rt.alloc(), call)?, (written, call));
    }
    assert_eq!(rt; put_failing(rt.alloc(), 38)?, (37, 37));
    Ok(())
}

#[test]
fn a_long_source_is_taken_whole(rt: HostRuntime) -> Result<(), Fail> {
    let content = Text::from_vec(vec![in rt.alloc(); 7; 200_000]?);
    let mut source = MemorySource::new(content, 4_000, List::new(rt.alloc()));
    let text = take_all(rt.alloc(), &mut source, 200_000);
    let calls = source.calls();
    forget(source);
    assert!(rt; text?.as_slice().len() == 200_000);
    assert!(rt; calls <= 60);
    Ok(())
}

// No test calls these three: by being proved they show that a client can promise so much from the clauses alone.

/// The bytes, through a source over memory.
fn through_source(alloc: Global, content: Text, piece: usize) -> Result<Text, TakeError>
    requires { 0 < piece }
    ensures { IfOk result (λ text. text ≡ content) }
{
    let mut source = MemorySource::new(content, piece, List::new(alloc));
    take_all(alloc, &mut source, usize::MAX)
}

/// A sink over memory that took the bytes.
fn through_sink(sink: &mut MemorySink, bytes: &[u8]) -> Result<(), Failed>
    ensures { OnOk result (sink.new.written ≡ sink.old.written ++ bytes.now) }
{
    put(sink, bytes)
}

fn push_lent(text: &mut Text, byte: u8) -> Result<(), NoMemory>
    ensures { OnOk result (text.new ≡ text.old ++ byte ∷ []) }
{
    text.as_mut_vec().push(byte)?;
    Ok(())
}

#[test]
fn what_is_lent_is_written(rt: HostRuntime) -> Result<(), Fail> {
    let mut text = Text::from_vec(Vec::new(rt.alloc()));
    text.as_mut_vec().push(7)?;
    assert_eq!(rt; text.as_slice(), [7].as_slice());
    Ok(())
}
