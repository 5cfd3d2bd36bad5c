//! Tests of the parts of runs, through the public calls of the crates that have them.
#![tactic(auto)]

#[cfg(test)]
mod agenda;
#[cfg(test)]
mod both_lists;
#[cfg(test)]
mod histories;
#[cfg(test)]
mod parts;
#[cfg(test)]
mod saved_runs;
#[cfg(test)]
mod small_models;
#[cfg(test)]
mod tallies;
