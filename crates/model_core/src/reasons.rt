//! Why two vertices are in conflict.

ghost use Rattle.std.specs.Prelude.{◌≡◌};
ghost use Rattle.model_core.specs.Conflicts.Conflict.{is_conflict};

/// Whether events of two vertices may meet, and which of them changes what the other uses.
#[derive(Clone, Copy, Debug, PartialEq, Eq)]
pub struct Reasons {
    /// Whether they have a priority in common.
    pub meet: bool,
    /// Whether one writes a variable that the other reads or writes.
    pub variables: bool,
    /// Whether both draw from one random stream.
    pub streams: bool,
    /// Whether one cancels events of the other, or of a vertex that an edge of the other names.
    pub cancels: bool,
}

impl Reasons {
    /// Whether the vertices are in conflict: they meet, and there is a reason.
    pub fn is_conflict(&self) -> bool
        ensures { result ≡ is_conflict self.now }
    {
        self.meet && (self.variables || self.streams || self.cancels)
    }
}

/// Two vertices in conflict, by their places from 0, which may be one and the same, and the reasons.
#[derive(Clone, Copy, Debug, PartialEq, Eq)]
pub struct Pair {
    pub a: usize,
    pub b: usize,
    pub reasons: Reasons,
}
