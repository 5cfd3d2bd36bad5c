//! The program over three devices, whose output goes through a buffer.

use crate::exit_status::program;
use sig_base::{StdSink, StdSource};
use std::alloc::Global;
use std::io;
use std::io::{BufWriter, Read, Write};
use std::process::ExitCode;

/// Does what `program` does. Gives the exit status and the device of the output.
pub fn buffered<R: Read, W: Write + Drop, E: Write>(
    alloc: Global,
    words: io::Result<Vec<String>>,
    input: &mut StdSource<R>,
    output: BufWriter<W>,
    errors: &mut StdSink<E>,
) -> (ExitCode, W) {
    let mut output = output;
    let code = program::<StdSource<R>, StdSink<&mut BufWriter<W>>, StdSink<E>>(
        alloc,
        words,
        input,
        &mut StdSink::new(&mut output),
        errors,
    );
    // What a failed write left in the buffer isn't tried again.
    let (device, _left) = output.into_parts();
    (code, device)
}
