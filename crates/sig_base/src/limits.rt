//! The limits of a model, a text and a run. Where a limit depends on the version of a text, that of version 2 has the
//! plain name, and that of version 1 is next to it.

/// Bytes of a model text, and of its canonical text.
pub const TEXT_MAX: usize = 4_194_304;

/// Bytes of a document, which is a model text, a second one and a certificate.
pub const DOCUMENT_MAX: usize = 25_165_824;

/// Bytes of a name.
pub const NAME_MAX: usize = 32;

/// Vertices of a model.
pub const VERTICES_MAX: usize = 2_000;

/// Variables of a model.
pub const VARIABLES_MAX: usize = 2_000;

/// Cells of an array, in a text of version 2.
pub const ARRAY_CELLS_MAX: usize = 65_536;

/// Cells of an array, in any other text.
pub const ARRAY_CELLS_MAX_VERSION_1: usize = 4_096;

/// Cells of all arrays together. The other limits of version 1 allow no more than 8,192,000.
pub const CELLS_MAX: usize = 16_777_216;

/// Changes of a vertex.
pub const CHANGES_MAX: usize = 1_000;

/// Edges of a vertex.
pub const EDGES_MAX: usize = 1_000;

/// Parameters of a vertex, and so values that an edge carries, in a text of version 2.
pub const PARAMETERS_MAX: usize = 16;

/// Parameters of a vertex, in any other text.
pub const PARAMETERS_MAX_VERSION_1: usize = 8;

/// Targets of one `set`, in a text of version 2.
pub const TARGETS_MAX: usize = 16;

/// Targets of one `set`, in any other text.
pub const TARGETS_MAX_VERSION_1: usize = 8;

/// Tables of a model.
pub const TABLES_MAX: usize = 100;

/// Rows of a table.
pub const ROWS_MAX: usize = 1_000;

/// Openings of one part of a text: operators, `if`, `min`, `max` and opening brackets.
pub const OPENINGS_MAX: usize = 256;

/// The magnitude of a bound, an initial value, a table value or a draw bound.
pub const LITERAL_MAX: i64 = 4_611_686_018_427_387_904;

/// The sum of a table's weights, and the number of values of a uniform draw.
pub const WEIGHTS_MAX: u64 = 4_294_967_296;

/// The stop time of a run, in ticks.
pub const STOP_MAX: u64 = 281_474_976_710_656;

/// The event budget of a run.
pub const EVENTS_MAX: u64 = 1_099_511_627_776;

/// Runs of one replication.
pub const RUNS_MAX: u64 = 65_536;
