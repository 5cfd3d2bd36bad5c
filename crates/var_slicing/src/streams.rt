//! Pairs between the variables of one stream's draws, so few that they are linear in the draws.

ghost use Rattle.std.specs.Prelude.{◌≡◌, ◌++◌, OnOk, IfOk};
ghost use Rattle.std.specs.List.{flat_map};
ghost use Rattle.var_slicing.specs.Inner.Leading.{leader, next_leaders, leaders_of, leader_pairs};

use sig_base::NoMemory;
use std::alloc::Global;

/// A draw: its stream, and the place of the variable that is drawn.
pub(crate) type StreamDraw = (usize, usize);

/// The variable of the first draw from a stream.
fn leader(draws: &[StreamDraw], stream: usize) -> Option<usize>
    ensures { result ≡ leader draws.now stream }
{
    for draw in draws {
        let (drawn_from, var) = *draw;
        if drawn_from == stream {
            return Some(var);
        }
    }
    None
}

/// Adds a draw to the leaders if its variable is one of so many and its stream has no leader.
fn add_leader(
    leaders: &mut Vec<StreamDraw>,
    count: usize,
    stream: usize,
    var: usize,
) -> Result<(), NoMemory>
    ensures { OnOk result (leaders.new.items ≡ next_leaders count leaders.old.items stream var) }
{
    if var < count && leader(leaders.as_slice(), stream).is_none() {
        leaders.push((stream, var))?;
    }
    Ok(())
}

/// Of each stream the first draw whose variable is one of so many. There are few streams, so few leaders.
fn leaders_of(
    alloc: Global,
    draws: &[StreamDraw],
    count: usize,
) -> Result<Vec<StreamDraw>, NoMemory>
    ensures { IfOk result (λ leaders. leaders.items ≡ leaders_of count draws.now) }
{
    let mut leaders = Vec::new(alloc);
    for draw in draws {
        let (stream, var) = *draw;
        add_leader(&mut leaders, count, stream, var)?;
    }
    Ok(leaders)
}

/// Adds the pairs that lead from a draw's variable to the leader of its stream and back.
fn add_leader_pair(
    pairs: &mut Vec<(usize, usize)>,
    leaders: &[StreamDraw],
    stream: usize,
    var: usize,
) -> Result<(), NoMemory>
    ensures { OnOk result
        (pairs.new.items ≡ pairs.old.items ++ leader_pairs leaders.now (stream, var)) }
{
    match leader(leaders, stream) {
        Some(first) => {
            pairs.push((first, var))?;
            pairs.push((var, first))?;
            Ok(())
        }
        None => Ok(()),
    }
}

/// Adds for each draw the pairs that lead from its variable to the leader of its stream and back.
fn add_leader_pairs(
    pairs: &mut Vec<(usize, usize)>,
    leaders: &[StreamDraw],
    draws: &[StreamDraw],
) -> Result<(), NoMemory>
    ensures { OnOk result
        (pairs.new.items ≡ pairs.old.items ++ flat_map (leader_pairs leaders.now) draws.now) }
{
    for draw in draws {
        let (stream, var) = *draw;
        add_leader_pair(pairs, leaders, stream, var)?;
    }
    Ok(())
}

/// Adds pairs over which each variable that is drawn from a stream leads to all others drawn from it, where they are of so
/// many variables.
pub(crate) fn add_stream_pairs(
    alloc: Global,
    pairs: &mut Vec<(usize, usize)>,
    draws: &[StreamDraw],
    count: usize,
) -> Result<(), NoMemory>
    ensures { OnOk result
        (pairs.new.items
        ≡ pairs.old.items ++ flat_map (leader_pairs (leaders_of count draws.now)) draws.now) }
{
    let leaders = leaders_of(alloc, draws, count)?;
    add_leader_pairs(pairs, leaders.as_slice(), draws)
}
