//! Two models side by side: whether they declare the same, and whether their runs with one seed show the same.
#![tactic(auto)]

mod apart_law;
mod declarations;
mod declared_lines;
mod growing_sink;
mod line_pair;
mod lines_apart;
mod shown_run;
mod two_runs;

pub use apart_law::{declared_lines_decide, lines_apart_are_looks_apart};
pub use declarations::declared_apart;
pub use line_pair::LinePair;
pub use lines_apart::LinesApart;
pub use two_runs::runs_apart;
