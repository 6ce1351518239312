/// Why a cycle has no resolution.
#[derive(Clone, Copy, Debug, thiserror::Error)]
pub enum ResolveError {
    /// Fewer than two edges are external.
    #[error("a cycle has at least two external edges")]
    TooFewThreads,
    /// One thread has all edges to another location, or no edge leads to one: coherence by itself
    /// decides which executions of such a cycle are possible.
    #[error("the edges to another location lie in one thread")]
    CoherenceOnly,
}
