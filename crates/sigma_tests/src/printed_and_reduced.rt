//! Both calls of the headline over memory: what they write of one text.

use crate::calls::words;
use answer_laws::print_and_reduce;
use sig_base::{List, MemorySink, MemorySource, NoMemory, Text};
use std::alloc::Global;
use std::test::*;

const CHAIN: &[u8] =
    b"model CHAIN;\nvar N : 0..9 = 0;\nwatch N;\nvertex RUN {\n  urgent A;\n}\nvertex A {\n  set N := 1;\n  urgent B;\n}\nvertex B {\n  set N := 2;\n}\nend\n";

const CHAIN_REDUCED: &[u8] =
    b"model CHAIN;\nvar N : 0..9 = 0;\nwatch N;\nvertex RUN {\n  set N := 1;\n  set N := 2;\n}\nend\n";

/// A source over these bytes, which hands out 7 at a time and never fails.
fn source(alloc: Global, text: &[u8]) -> Result<MemorySource, NoMemory> {
    let text = Vec::from_slice(alloc, text)?;
    Ok(MemorySource::new(Text::from_vec(text), 7, List::of_one(alloc, 0)?))
}

/// A sink that takes as many bytes as it is given, and never fails.
fn sink(alloc: Global) -> Result<MemorySink, NoMemory> {
    MemorySink::begin(alloc, 100_000, 100_000, List::of_one(alloc, 0)?)
}

/// Whether `print` and `reduce` of this text write these bytes, and nothing on the error output.
fn are_written(
    alloc: Global,
    text: &[u8],
    printed: &[u8],
    reduced: &[u8],
) -> Result<bool, NoMemory> {
    let mut first = source(alloc, text)?;
    let mut second = source(alloc, text)?;
    let mut print_output = sink(alloc)?;
    let mut reduce_output = sink(alloc)?;
    let mut errors = sink(alloc)?;
    let _ = print_and_reduce(
        alloc,
        words(alloc, "print")?,
        words(alloc, "reduce")?,
        &mut first,
        &mut second,
        &mut print_output,
        &mut reduce_output,
        &mut errors,
    );
    Ok(
        print_output.written() == printed
            && reduce_output.written() == reduced
            && errors.written().is_empty(),
    )
}

#[test]
fn two_calls_write_a_model_and_its_reduction(rt: HostRuntime) -> Result<(), Fail> {
    let mut reduced = Vec::from_slice(rt.alloc(), CHAIN_REDUCED)?;
    reduced.extend_from_slice(b"certificate\nmerge A B\ndrop B\nmerge RUN A\ndrop A\nend\n")?;
    assert!(rt; are_written(rt.alloc(), CHAIN, CHAIN, reduced.as_slice())?);
    Ok(())
}
