//! The call that other languages make.

ghost use Rattle.sigma_page.specs.PageCall.{AnswersBytes};

use crate::memory_call::call;
use crate::rooms::{Lengths, lay};
use std::alloc::Global;

/// Does the job that the words ask for, as `sigma` does, from the bytes of the input, and answers the exit status.
///
/// In `words` each word is ended by a byte of 0. The output is laid into the room `output`, and the error output into
/// `errors`; `lengths` says how many bytes each has. The output holds no more than its room: a write beyond it fails, and the
/// status is then 4. Status 4 comes with a full room alone, so a caller who finds it calls again, with a larger one.
#[unsafe(no_mangle)]
pub extern "C" fn sigma_page(
    alloc: Global,
    words: &[u8],
    input: &[u8],
    output: &mut [u8],
    errors: &mut [u8],
    lengths: &mut Lengths,
) -> u32
    // The table of statuses and the promises of `sigma`, for exactly these bytes; or a word isn't UTF-8.
    ensures { AnswersBytes words.now input.now result lengths.new output.new errors.new }
{
    match call(alloc, words, input, output.len(), errors.len()) {
        Ok(ended) => {
            lengths.output = lay(ended.output.as_slice(), output);
            lengths.errors = lay(ended.errors.as_slice(), errors);
            u32::from(ended.status.number())
        }
        Err(failure) => {
            lengths.output = 0;
            lengths.errors = lay(failure.line(), errors);
            u32::from(failure.status().number())
        }
    }
}
