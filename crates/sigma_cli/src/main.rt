//! The program `sigma`: the words after its name, standard input, output and error, and the exit status.
#![tactic(auto)]

use sig_base::{StdSink, StdSource};
use sigma_top::{buffered, program};
use std::io::{BufWriter, Stderr, Stdin, Stdout};
use std::process::ExitCode;
use std::{env, io};

/// The words after the program's name.
fn words(rt: &HostRuntime) -> io::Result<Vec<String>> {
    let words = env::args(rt)?.skip(1).collect(rt.alloc())?;
    Ok(words)
}

fn main(rt: HostRuntime) -> ExitCode {
    let mut input = StdSource::new(rt.stdin());
    let mut errors = StdSink::new(rt.stderr());
    match BufWriter::new(rt.alloc(), rt.stdout()) {
        Ok(output) => {
            // The types keep the two outputs apart: each other order of the streams is refused.
            buffered::<Stdin, Stdout, Stderr>(
                rt.alloc(),
                words(&rt),
                &mut input,
                output,
                &mut errors,
            ).0
        }
        Err(error) => program::<StdSource<Stdin>, StdSink<Stdout>, StdSink<Stderr>>(
            rt.alloc(),
            Err(error),
            &mut input,
            &mut StdSink::new(rt.stdout()),
            &mut errors,
        ),
    }
}
