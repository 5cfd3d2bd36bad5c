//! The base of every crate of SIGMA: limits, fault kinds, small list types, tables of weights, and the
//! sources and sinks of bytes by which the program reads and writes.
#![tactic(auto)]

mod count;
mod fault;
mod filling;
mod held_value;
mod limits;
mod list;
mod memory_sink;
mod memory_source;
mod name;
mod no_memory;
mod null_sink;
mod printing;
mod putting;
mod sink;
mod source;
mod std_sink;
mod std_source;
mod steps;
mod sure_source;
mod table;
mod take_error;
mod taking;
mod text;

pub use fault::FaultKind;
pub use filling::append;
pub use held_value::HeldValue;
pub use limits::{
    ARRAY_CELLS_MAX, ARRAY_CELLS_MAX_VERSION_1, CELLS_MAX, CHANGES_MAX, DOCUMENT_MAX, EDGES_MAX,
    EVENTS_MAX, LITERAL_MAX, NAME_MAX, OPENINGS_MAX, PARAMETERS_MAX, PARAMETERS_MAX_VERSION_1,
    ROWS_MAX, RUNS_MAX, STOP_MAX, TABLES_MAX, TARGETS_MAX, TARGETS_MAX_VERSION_1, TEXT_MAX,
    VARIABLES_MAX, VERTICES_MAX, WEIGHTS_MAX,
};
pub use list::List;
pub use memory_sink::MemorySink;
pub use memory_source::MemorySource;
pub use name::Name;
pub use no_memory::{Failed, NoMemory};
pub use null_sink::NullSink;
pub use printing::{put_bytes, put_counted, put_number, put_signed, put_texts};
pub use putting::put;
pub use sink::Sink;
pub use source::Source;
pub use std_sink::StdSink;
pub use std_source::StdSource;
pub use steps::Steps;
pub use sure_source::SureSource;
pub use table::{Carried, Row, Table, share_of};
pub use take_error::TakeError;
pub use taking::take_all;
pub use text::Text;
