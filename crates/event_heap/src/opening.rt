//! The tournament between heaps as it begins: no vertex has an event yet.

ghost use Rattle.std.specs.Prelude.{◌≡◌, replicate, None, IfOk};
ghost use Rattle.event_heap.specs.Inner.Games.{IsPlayed};
ghost use Rattle.event_heap.specs.Inner.Opening.{IsSeated, IsOpened};

use event_list::Key;
use sig_base::NoMemory;
use std::alloc::Global;

/// So many vertices without keys.
pub fn keyless(alloc: Global, vertices: usize) -> Result<Vec<Option<Key>>, NoMemory>
    ensures { IfOk result (λ keys. keys.items ≡ replicate vertices None) }
{
    let mut keys = Vec::with_capacity(alloc, vertices)?;
    for _ in 0..vertices {
        keys.push(None)?;
    }
    Ok(keys)
}

/// Each vertex at its own place, below the games.
fn seat(winners: &mut [usize], vertices: usize)
    requires { IsSeated vertices 0 winners.old }
    ensures { IsSeated vertices vertices winners.new }
{
    for vertex in 0..vertices {
        winners[vertices + vertex] = vertex;
    }
}

/// Each game is won by the left vertex, since none has a key.
fn win_left(winners: &mut [usize], vertices: usize)
    requires { IsSeated vertices vertices winners.old }
    ensures { IsOpened vertices winners.new 1 }
{
    for place in (1..vertices).rev() {
        winners[place] = winners[2 * place];
    }
}

/// The games of vertices without keys.
fn set_up(winners: &mut [usize], vertices: usize)
    requires { IsSeated vertices 0 winners.old }
    ensures { IsPlayed (replicate vertices None) winners.new 0 }
{
    seat(winners, vertices);
    win_left(winners, vertices);
}

/// The games of so many vertices without keys.
pub fn opened(alloc: Global, vertices: usize) -> Result<Vec<usize>, NoMemory>
    ensures { IfOk result (λ winners. IsPlayed (replicate vertices None) winners.items 0) }
{
    let places = vertices.checked_mul(2).ok_or(NoMemory)?;
    let mut winners = vec![in alloc; 0; places]?;
    set_up(winners.as_mut_slice(), vertices);
    Ok(winners)
}
