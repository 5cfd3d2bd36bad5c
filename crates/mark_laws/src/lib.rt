//! Laws of marks on places: the places that a walk from some first places has marked, and the new numbers of the places that
//! stay. They are in `proofs/`, for the crates that walk and those that read the marks.
#![tactic(auto)]
