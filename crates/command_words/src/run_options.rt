//! The options of `run`.

use sig_base::List;

/// The most pending events for which a run can be asked to have room from its beginning.
pub const ROOM_MAX: usize = 4_194_304;

/// The pending events for which a run has room from its beginning where none is asked for.
pub const ROOM_USUAL: usize = 4_096;

/// The options of `run`.
#[derive(Drop)]
pub struct RunOptions {
    /// The stop time, in ticks.
    pub until: u64,
    /// The seed of the random streams.
    pub seed: u64,
    /// The event budget: the most steps that are made.
    pub events: u64,
    /// A value for each parameter of the vertex that begins the run, in order.
    pub starts: List<i64>,
    /// The pending events for which there is room from the beginning.
    pub room: usize,
}
