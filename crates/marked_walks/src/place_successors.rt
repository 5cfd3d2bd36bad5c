//! What a walk follows: the successors of each place, wherever they are kept.

ghost use Rattle.std.specs.Prelude.{◌≡◌, ℕ, List, length, slice_get};
ghost use Rattle.mark_laws.specs.PlacePairs.{successors_of};

/// For each of some places, counted from 0, its successors.
pub trait PlaceSuccessors {
    // The successors of each place.
    ghost lists: { Self → List (List ℕ) };

    /// How many places there are.
    fn place_count(&self) -> usize
        ensures { result ≡ length (lists self.now) };

    /// How many successors this place has: none if there is no such place.
    fn successor_count(&self, place: usize) -> usize
        ensures { result ≡ length (successors_of (lists self.now) place) };

    /// The successor of this place that has so many before it, if there is one.
    fn nth_successor(&self, place: usize, nth: usize) -> Option<usize>
        ensures { result ≡ slice_get (successors_of (lists self.now) place) nth };
}
