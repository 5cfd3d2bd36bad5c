//! The games of the tournament between heaps: the vertex whose first event is due earlier wins.

ghost use Rattle.std.specs.Prelude.{◌≡◌, ◌≢◌, ℕ, ◌+◌, ◌/◌, ◌^◌, ◌*◌, ◌<◌, ◌≤◌, None, length, slice_index, slice_index_or};
ghost use Rattle.event_heap.specs.Inner.Games.{winner_of, IsPlayed, IsReplayed};

use event_list::Key;
use sig_base::Steps;
use std::sync::ledger::Ledger;

/// Of so many vertices there are games enough that it pays to look whether one has the winner that it had before.
const MANY: usize = 64;

/// The winner of a game: the vertex whose key comes before the other's, the left one where neither does. A vertex
/// without a key loses.
fn winner<L: Ledger>(keys: &[Option<Key>], left: usize, right: usize, steps: &mut Steps<L>) -> usize
    requires left { left < length keys.now }
    requires right { right < length keys.now }
    ensures winner { result ≡ winner_of keys.now left right }
    ensures ticks { steps.new ≤ steps.old + 1 }
{
    match &keys[right] {
        None => left,
        Some(challenger) => match &keys[left] {
            None => right,
            Some(holder) => {
                if challenger.before(holder, steps) {
                    right
                } else {
                    left
                }
            }
        },
    }
}

/// The two vertices of the game at a place, the left one first.
#[inline(always)]
fn players(winners: &[usize], place: usize) -> (usize, usize)
    requires { 2 * place + 1 < length winners.now }
    ensures left { result.0 ≡ slice_index winners.now (2 * place) }
    ensures right { result.1 ≡ slice_index winners.now (2 * place + 1) }
{
    let both = &winners[2 * place..2 * place + 2];
    (both[0], both[1])
}

/// Plays the games of a vertex with a new key, from the place above its own to the top. Once a game has the winner
/// that it had before, which isn't this vertex, no game above it changes; where vertices are few they are played all the
/// same.
pub fn play<L: Ledger>(
    keys: &[Option<Key>],
    winners: &mut [usize],
    vertex: usize,
    steps: &mut Steps<L>,
)
    requires vertex { vertex < length keys.now }
    requires others { IsReplayed keys.now winners.old vertex ((length keys.now + vertex) / 2) }
    ensures all { IsPlayed keys.now winners.new 0 }
    ensures ticks { (d : ℕ) → length keys.now ≤ 2 ^ d → steps.new ≤ steps.old + d }
{
    let looks = keys.len() >= MANY;
    let mut place = (keys.len() + vertex) / 2;
    while place > 0 {
        let (left, right) = players(winners, place);
        let won = winner(keys, left, right, steps);
        if looks && won == winners[place] && won != vertex {
            return;
        }
        winners[place] = won;
        place /= 2;
    }
}

/// Puts a vertex at each place from the one above its own to the top. It has won each game there, without a comparison,
/// where no other vertex has a key.
pub fn play_alone(keys: &[Option<Key>], winners: &mut [usize], vertex: usize)
    requires vertex { vertex < length keys.now }
    requires alone { (u : ℕ) → u ≢ vertex → slice_index_or keys.now u None ≡ None }
    requires others { IsReplayed keys.now winners.old vertex ((length keys.now + vertex) / 2) }
    ensures { IsPlayed keys.now winners.new 0 }
{
    let mut place = (keys.len() + vertex) / 2;
    while place > 0 {
        winners[place] = vertex;
        place /= 2;
    }
}
