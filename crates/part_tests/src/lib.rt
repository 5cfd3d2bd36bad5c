//! Tests of what no clause says of the lowest crates, of the printer, of uses and of the conflicts, through their public calls.
#![tactic(auto)]

#[cfg(test)]
mod adapters;
#[cfg(test)]
mod conflicts;
#[cfg(test)]
mod copies;
#[cfg(test)]
mod memory;
#[cfg(test)]
mod printing;
#[cfg(test)]
mod steps;
#[cfg(test)]
mod sums;
#[cfg(test)]
mod uses;
