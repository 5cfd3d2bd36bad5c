//! Items taken out of a list in place: those that stay move up.

ghost use Rattle.std.specs.Prelude.{◌≡◌, ◌++◌, ◌+◌, ◌<◌, ◌≤◌, [], length, cond, take, drop};
ghost use Rattle.model_core.specs.Rules.MarkedPlaces.{marked_of};

use crate::staying_places::Staying;

/// Moves the item at a place up to the end of those that were kept, if it stays, and says how many are kept then.
pub fn keep<T>(items: &mut Vec<T>, stays: bool, kept: usize, place: usize) -> usize
    requires before { kept ≤ place }
    requires there { place < length items.old.items }
    ensures count { result ≡ kept + cond stays 1 0 }
    ensures front { take result items.new.items
        ≡ take kept items.old.items ++ cond stays (take 1 (drop place items.old.items)) [] }
    ensures rest { drop (place + 1) items.new.items ≡ drop (place + 1) items.old.items }
    ensures long { length items.new.items ≡ length items.old.items }
{
    if !stays {
        return kept;
    }
    items.swap(kept, place);
    kept + 1
}

/// Leaves the items alone whose places stay, in their order.
pub fn keep_staying<T: Drop>(staying: &Staying, items: &mut Vec<T>)
    ensures { items.new.items ≡ marked_of staying.now items.old.items }
{
    let mut kept = 0;
    for place in 0..items.len() {
        kept = keep(items, staying.keeps(place), kept, place);
    }
    items.truncate(kept);
}
