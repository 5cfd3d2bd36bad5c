//! The first two vertices of a model that may be fused.

use crate::static_rules::checked;
use sig_base::NoMemory;
use std::alloc::Global;
use std::test::*;
use twin_rules::first_twins;

/// Two vertices that do the same, if what names the one is taken to name the other.
const TWINS: &[u8] = b"model M; var N : 0..9 clip = 0; watch N;
    vertex RUN { schedule A after 1; schedule B after 2; }
    vertex A { set N := N + 1; schedule B after 3; }
    vertex B { set N := N + 1; schedule A after 3; } end";

/// One of the two is watched.
const WATCHED: &[u8] = b"model M; var N : 0..9 clip = 0; watch N, A;
    vertex RUN { schedule A after 1; schedule B after 2; }
    vertex A { set N := N + 1; schedule B after 3; }
    vertex B { set N := N + 1; schedule A after 3; } end";

/// One of the two is cancelled.
const CANCELLED: &[u8] = b"model M; var N : 0..9 clip = 0; watch N;
    vertex RUN { schedule A after 1; schedule B after 2; cancel B; }
    vertex A { set N := N + 1; schedule B after 3; }
    vertex B { set N := N + 1; schedule A after 3; } end";

/// Of two pairs, the one whose first vertex comes first.
const TWO_PAIRS: &[u8] = b"model M; var N : 0..9 clip = 0; watch N;
    vertex RUN { schedule A after 1; schedule B after 2; schedule C after 3; schedule D after 4; }
    vertex A { set N := 1; } vertex B { set N := 2; } vertex C { set N := 2; } vertex D { set N := 1; } end";

/// The places of the first two in the model that a text reads as.
fn twins_in(alloc: Global, text: &[u8]) -> Result<Option<(usize, usize)>, NoMemory> {
    let model = checked(alloc, text).map_err(|_| NoMemory)?;
    Ok(first_twins(&model))
}

#[test]
fn the_first_twins_are_found(rt: HostRuntime) {
    for (text, twins) in [
        (TWINS, Some((1, 2))),
        (WATCHED, None),
        (CANCELLED, None),
        (TWO_PAIRS, Some((1, 4))),
    ] {
        assert_eq!(rt; twins_in(rt.alloc(), text), Ok(twins));
    }
}
