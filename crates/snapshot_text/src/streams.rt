//! How many words each stream gave, where all that a snapshot says of it is good.

ghost use Rattle.std.specs.Prelude.{◌≡◌, ◌<◌, map, replicate, IfSome};
ghost use Rattle.model_core.specs.Saved.GoodSnapshots.{stream_parts, with_taken};
ghost use Rattle.snapshot_text.specs.Inner.Judging.{if_good, Judged, stream_good, stream_taken};
ghost use Rattle.snapshot_text.specs.Inner.RawParts.{written_stream};

use crate::numbers::{at_most, from_one_to};
use crate::parts::RawStream;
use crate::snapshot_error::SnapshotError;
use sig_base::List;
use std::alloc::Global;

/// The most words that a stream may have given.
const WORDS_MAX: u64 = 4_503_599_627_370_496;

/// The number of the stream and how many words it gave, if it is good after the streams below `least`.
fn stream_of(stream: RawStream, least: u64) -> Option<(u64, u64)>
    ensures is { result
        ≡ if_good (stream_good least (written_stream stream))
        (stream_taken (written_stream stream)) }
    ensures within { IfSome result (λ s. s.0 < 64) }
{
    let number = at_most(stream.stream, 63)?;
    if number < least {
        return None;
    }
    let words = from_one_to(stream.words, WORDS_MAX)?;
    Some((number, words))
}

/// How many words each of the 64 streams gave.
pub(crate) fn taken_of(alloc: Global, streams: &[RawStream]) -> Result<List<u64>, SnapshotError>
    ensures { Judged result (stream_parts 0 (map written_stream streams.now))
        (λ taken. taken ≡ with_taken (map written_stream streams.now) (replicate 64 0)) }
{
    let mut taken = Vec::from_slice(alloc, &[0; 64])?;
    let mut least = 0;
    for stream in streams {
        let Some((number, words)) = stream_of(*stream, least) else {
            return Err(SnapshotError::Bad { at: stream.at });
        };
        taken[number as usize] = words;
        least = number + 1;
    }
    Ok(List::from_vec(taken))
}
