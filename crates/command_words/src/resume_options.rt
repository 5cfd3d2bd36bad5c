//! The options of `resume`.

/// The options of `resume`.
#[derive(Clone, Copy, Debug)]
pub struct ResumeOptions {
    /// The stop time, in ticks.
    pub until: u64,
    /// The event budget: the most further steps that are made.
    pub events: u64,
    /// The pending events for which there is room from the beginning, or for all that were saved where those are more.
    pub room: usize,
}
