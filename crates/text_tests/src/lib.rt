//! Tests of reading and checking model texts, of merging and fusing what they spell, and of checking
//! chains between models, through the public calls of the crates that do it.
#![tactic(auto)]

#[cfg(test)]
mod chains;
#[cfg(test)]
mod merged_models;
#[cfg(test)]
mod narrowed_models;
#[cfg(test)]
mod reading;
#[cfg(test)]
mod static_rules;
#[cfg(test)]
mod twins;
