//! Laws of bounds: under any ranges and guard the value of an expression lies within its bounds, row by row of the table.
//! They are in `proofs/`, for the crates that compute bounds or rest on them.
#![tactic(auto)]
