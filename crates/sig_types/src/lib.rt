//! Decides whether a model as it is written keeps every static rule, and gives the model with numbers in place of
//! names, or else the first fault.
#![tactic(auto)]

mod changes;
mod checking;
mod declaring;
mod edges;
mod error;
mod expressions;
mod first_fault;
mod kinds;
mod names;
mod numbers;
mod part_places;
mod repeats;
mod tables;
mod uses;
mod variables;
mod versions;
mod vertices;
mod watch;

pub use changes::{change, source, wanted_at};
pub use checking::{CheckedLists, check, check_lists, declared, report_long_text};
pub use declaring::report_long_name;
pub use edges::{edge, items};
pub use error::StaticError;
pub use first_fault::FirstFault;
pub use kinds::{Typed, kinds_differ, known_or, operand_kind, result_kind, right_kind};
pub use names::Names;
pub use numbers::bounded;
pub use part_places::{HasPlace, report_too_many};
pub use uses::{spelled_variable, spelled_vertex};
pub use versions::{is_version_two, report_drawn_delay, report_target_count, report_version};
pub use vertices::{parameter_kinds, parameters};
