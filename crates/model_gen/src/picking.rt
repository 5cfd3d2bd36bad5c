//! The picks by the words of the stream that makes models.

ghost use Rattle.std.specs.Prelude.{◌≡◌, ◌<◌, ◌≤◌, ◌^◌, ◌+◌, length, slice_index_or};
ghost use Rattle.sig_base.specs.Stream.{share};
ghost use Rattle.random_streams.specs.Draws.{next_word, after_word, after_words};
ghost use Rattle.model_gen.specs.Generated.{picked_below};

use random_streams::Streams;

/// The picks that make a vertex: the place of a counter, a form of edges from 0 to 3, and the place of a vertex.
#[derive(Clone, Copy)]
pub(crate) struct Picks {
    pub counter: usize,
    pub form: usize,
    pub target: usize,
}

/// A number below `count`, by the next word.
fn pick_below(streams: &mut Streams, count: usize) -> usize
    requires some { 0 < count }
    requires count_fits { count ≤ 2 ^ 32 }
    requires countable { slice_index_or streams.old.taken 54 0 < 2 ^ 62 }
    ensures value { result ≡ share (next_word streams.old 54) count }
    ensures moved { streams.new ≡ after_word streams.old 54 }
{
    streams.uniform(54, 0, count as i64 - 1) as usize
}

/// The picks of the next three words for a vertex, of so many vertices.
pub(crate) fn next_picks(streams: &mut Streams, vertices: usize) -> Picks
    requires some { 0 < vertices }
    requires few_vertices { vertices ≤ 2 ^ 32 }
    requires there { 54 < length streams.old.taken }
    requires countable { slice_index_or streams.old.taken 54 0 < 2 ^ 61 }
    ensures counter { result.counter
        ≡ picked_below streams.old.seed (slice_index_or streams.old.taken 54 0) 8 }
    ensures form { result.form
        ≡ picked_below streams.old.seed (slice_index_or streams.old.taken 54 0 + 1) 4 }
    ensures target { result.target
        ≡ picked_below streams.old.seed (slice_index_or streams.old.taken 54 0 + 2) vertices }
    ensures moved { streams.new ≡ after_words streams.old 54 3 }
{
    let counter = pick_below(streams, 8);
    let form = pick_below(streams, 4);
    let target = pick_below(streams, vertices);
    Picks {
        counter,
        form,
        target,
    }
}
