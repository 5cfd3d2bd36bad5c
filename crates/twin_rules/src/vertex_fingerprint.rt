//! The fingerprint of one vertex, as it is kept while twins are fused.

/// What is kept of a vertex, by which most vertices that do something else are found different at once. Fingerprints are kept
/// by halves, so that those of all vertices take little room.
#[derive(Clone, Copy)]
pub(crate) struct VertexFingerprint {
    /// The print of its parameters, its changes, and its edges without their targets.
    pub(crate) doing: u32,
    /// The print of the numbers of the vertices that its edges lead to.
    pub(crate) aims: u32,
    /// Its number in the fingerprints of edges that lead to it. It stays when the vertex moves up.
    pub(crate) number: u16,
    /// Whether it is watched, or its events are cancelled.
    pub(crate) barred: bool,
}
