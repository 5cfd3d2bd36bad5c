//! Which vertices use which variable: what edges and changes read, what vertices write, a table of both, and its text; and how
//! many parts use each, kept up to date as parts come and go. And which random streams parts draw from.
#![tactic(auto)]

mod collecting;
mod counts;
mod drawing;
mod moving;
mod number_test;
mod reading;
mod table;
mod use_lines;
mod writing;

pub use collecting::{
    add_all_variables, add_deciding_reads, add_index_reads, add_places, add_variables,
    add_vertex_reads, add_vertex_writes,
};
pub use counts::UseCounts;
pub use drawing::{draws_of_change, draws_of_edge, one_stream_passes};
pub use number_test::{Is, NumberTest};
pub use reading::{reads_of_change, reads_of_edge, reads_of_vertex};
pub use table::{UseRow, UseTable, use_table};
pub use use_lines::put_uses;
pub use writing::{one_written_passes, writes_of_vertex};
