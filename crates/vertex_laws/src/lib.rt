//! Laws of a model one of whose vertices is changed: what its canonical text has then, whether that needs version 2, and whether
//! the model stays single urgent. They are in `proofs/`, for the crates that change a vertex.
#![tactic(auto)]
