/// Why a list of edges makes no cycle.
#[derive(Clone, Copy, Debug, thiserror::Error)]
pub enum CycleError {
    /// There is no edge.
    #[error("a cycle has at least one edge")]
    Empty,
    /// There are more than `MAX_EDGES` edges.
    #[error("a cycle has too many edges")]
    TooLong,
    /// The edge at position `at`, the first such, doesn't join the next one, cyclically.
    #[error("edge {at} doesn't join the next one")]
    DoesNotCompose { at: u8 },
}

/// Why two paths make no path.
#[derive(Clone, Copy, Debug, thiserror::Error)]
pub enum JoinError {
    /// The two have more than `MAX_EDGES` edges.
    #[error("a path has too many edges")]
    TooLong,
    /// The last edge of the first path doesn't join the first edge of the second.
    #[error("the last edge of a path doesn't join the first of the next")]
    DoesNotCompose,
}

/// The last edge of a path doesn't join its first.
#[derive(Clone, Copy, Debug, thiserror::Error)]
#[error("the last edge of a path doesn't join its first")]
pub struct NotClosed;
