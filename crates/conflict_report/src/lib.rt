//! Which simultaneous events need priorities: the vertices that are in conflict, and the law that events of others commute.
//! There are two ways: `conflict` asks of two vertices, and takes no memory; `conflict_list` notes first, in sets of bits, who
//! touches what, so that a pair costs it four bits however much its vertices do.
#![tactic(auto)]

mod conflict_tables;
mod holders;
mod law;
mod meeting;
mod pairs;
mod priorities;
mod sharing;
mod text;
mod touched_numbers;
mod two_vertices;
mod vertex_set;

pub use law::{events_without_conflict_commute, pending_events_have_own_priorities};
pub use model_core::{Pair, Reasons};
pub use pairs::conflict_list;
pub use text::conflict_text;
pub use two_vertices::conflict;
