//! A call of the program over memory.

ghost use Rattle.std.specs.Prelude.{◌≡◌, ◌⊎◌, map, All, IsUtf8, IfOk, IfErr};
ghost use Rattle.std.specs.String.{string_bytes};
ghost use Rattle.answer_delivery.specs.declared.status.Failure.TheVariants as failures;
ghost use Rattle.sigma_page.specs.PageCall.{EndsOverBytes};
ghost use Rattle.sigma_page.specs.PageWords.{ended_words};

use crate::room_sink::{Room, RoomSink};
use crate::word_list::words_of;
use answer_delivery::{Failure, Status};
use sig_base::{NoMemory, SureSource, Text};
use sigma_top::sigma;
use std::alloc::Global;
use std::marker::Brand;

/// The most bytes that a read gives.
const PIECE: usize = 0x10000;

/// How a call ended, and what it wrote.
#[derive(Drop)]
pub struct Ended {
    pub status: Status,
    pub output: Vec<u8>,
    pub errors: Vec<u8>,
}

/// Does the job that the words ask for, from a copy of the input. The outputs hold at most so many bytes: those of the rooms
/// `O` and `E`.
fn perform<O: Room, E: Room>(
    alloc: Global,
    words: &[String],
    input: &[u8],
    room: usize,
    errors_room: usize,
) -> Result<Ended, NoMemory>
    requires output { room ≡ O.size }
    requires errors { errors_room ≡ E.size }
    ensures { IfOk result (λ ended. EndsOverBytes (map string_bytes words.now) input.now room errors_room
        ended.output.items ended.errors.items ended.status) }
{
    let content = Text::from_vec(Vec::from_slice(alloc, input)?);
    let mut source = SureSource::new(content, PIECE);
    let mut output = RoomSink::<O>::begin(alloc, room)?;
    let mut errors = RoomSink::<E>::begin(alloc, errors_room)?;
    let status = sigma(alloc, words, &mut source, &mut output, &mut errors);
    Ok(Ended {
        status,
        output: output.into_bytes(),
        errors: errors.into_bytes(),
    })
}

/// Does the job that the bytes of the words ask for. The error is `NoMemory`, or `Usage` where a word isn't UTF-8.
pub fn call(
    alloc: Global,
    words: &[u8],
    input: &[u8],
    room: usize,
    errors_room: usize,
) -> Result<Ended, Failure>
    ensures ends { IfOk result (λ ended. EndsOverBytes (ended_words words.now) input.now room errors_room
        ended.output.items ended.errors.items ended.status) }
    ensures missing { IfErr result (λ why. (why ≡ failures.NoMemory)
        ⊎ ((why ≡ failures.Usage) × (All IsUtf8 (ended_words words.now) → ⊥))) }
{
    let words = words_of(alloc, words)?;
    Ok(perform::<Brand, Brand>(alloc, &words, input, room, errors_room)?)
}
