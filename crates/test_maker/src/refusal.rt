ghost use Rattle.std.specs.Prelude.{◌≡◌};
ghost use Rattle.test_maker.specs.Refusals.{composing_refusal, crowded_refusal, foreign_refusal, make_refusal, need_refusal, resolve_refusal};

use coherence_values::NeedsObserver;
use cycle_resolve::ResolveError;
use edge_algebra::CycleError;
use thiserror::Error;

/// Edge `at`, counted from 0, is the first that isn't of the architecture.
#[derive(Clone, Copy, Debug, Error)]
#[error("edge {at} isn't of the architecture")]
pub struct ForeignEdge {
    pub at: u8,
}

/// Thread `thread`, counted from 0, is the first that needs more registers than the architecture has.
#[derive(Clone, Copy, Debug, Error)]
#[error("thread {thread} needs too many registers")]
pub struct CrowdedThread {
    pub thread: u8,
}

/// Why a cycle has no test. Edges, events, threads and locations are counted from 0.
#[derive(Clone, Copy, Debug, Error)]
pub enum MakeRefusal {
    /// Edge `at`, the first such, isn't of the architecture.
    #[error("edge {at} isn't of the architecture")]
    NotOfArch { at: u8 },
    /// Fewer than two edges are external.
    #[error("fewer than two edges are external")]
    TooFewThreads,
    /// All edges to another location lie in one thread, or there is none.
    #[error("all edges to another location lie in one thread")]
    CoherenceOnly,
    /// The mode is avoid, and this write, an event of the resolved cycle, needs an observer.
    #[error("event {event} at location {location} needs an observer")]
    NeedsObserver { location: u8, event: u8 },
    /// Thread `thread`, the first such, needs more registers than the architecture has.
    #[error("thread {thread} needs too many registers")]
    TooManyRegisters { thread: u8 },
}

impl From<ForeignEdge> for MakeRefusal {
    ghost from_gives = { λ edge refusal. make_refusal refusal ≡ foreign_refusal edge };

    fn from(edge: ForeignEdge) -> MakeRefusal {
        MakeRefusal::NotOfArch { at: edge.at }
    }
}

impl From<&ResolveError> for MakeRefusal {
    ghost from_gives = { λ error refusal. make_refusal refusal ≡ resolve_refusal error.now };

    fn from(error: &ResolveError) -> MakeRefusal {
        match error {
            ResolveError::TooFewThreads => MakeRefusal::TooFewThreads,
            ResolveError::CoherenceOnly => MakeRefusal::CoherenceOnly,
        }
    }
}

impl From<&NeedsObserver> for MakeRefusal {
    ghost from_gives = { λ need refusal. make_refusal refusal ≡ need_refusal need.now };

    fn from(need: &NeedsObserver) -> MakeRefusal {
        MakeRefusal::NeedsObserver {
            location: need.location,
            event: need.event,
        }
    }
}

impl From<CrowdedThread> for MakeRefusal {
    ghost from_gives = { λ crowded refusal. make_refusal refusal ≡ crowded_refusal crowded };

    fn from(crowded: CrowdedThread) -> MakeRefusal {
        MakeRefusal::TooManyRegisters {
            thread: crowded.thread,
        }
    }
}

/// Why a list of edges or a cycle is refused, by any tool: what a call of this crate or of those above returns
/// can be turned into it. Edges, events, threads and locations are counted from 0.
#[derive(Clone, Copy, Debug, Error)]
pub enum Refusal {
    /// There is no edge.
    #[error("there is no edge")]
    Empty,
    /// There are more than `MAX_EDGES` edges.
    #[error("there are too many edges")]
    TooLong,
    /// Edge `at`, the first such, isn't of the architecture.
    #[error("edge {at} isn't of the architecture")]
    NotOfArch { at: u8 },
    /// Edge `at`, the first such, doesn't join the next, or the last the first.
    #[error("edge {at} doesn't join the next")]
    DoesNotCompose { at: u8 },
    /// Fewer than two edges are external.
    #[error("fewer than two edges are external")]
    TooFewThreads,
    /// All edges to another location lie in one thread, or there is none.
    #[error("all edges to another location lie in one thread")]
    CoherenceOnly,
    /// The mode is avoid, and this write, an event of the resolved cycle, needs an observer.
    #[error("event {event} at location {location} needs an observer")]
    NeedsObserver { location: u8, event: u8 },
    /// Thread `thread`, the first such, needs more registers than the architecture has.
    #[error("thread {thread} needs too many registers")]
    TooManyRegisters { thread: u8 },
    /// No write needs an observer, so there is nothing to show.
    #[error("no write needs an observer")]
    NothingToShow,
    /// A coherence test is requested, and an edge leads to another location, or every internal edge is
    /// a communication.
    #[error("an edge leads to another location, or every internal edge is a communication")]
    NotCoherence,
    /// A coherence test is requested, and there are more than two writes.
    #[error("there are more than two writes")]
    ManyWrites,
}

impl From<CycleError> for Refusal {
    ghost from_gives = { λ error refusal. refusal ≡ composing_refusal error };

    fn from(error: CycleError) -> Refusal {
        match error {
            CycleError::Empty => Refusal::Empty,
            CycleError::TooLong => Refusal::TooLong,
            CycleError::DoesNotCompose { at } => Refusal::DoesNotCompose { at },
        }
    }
}

impl From<ForeignEdge> for Refusal {
    ghost from_gives = { λ edge refusal. refusal ≡ foreign_refusal edge };

    fn from(edge: ForeignEdge) -> Refusal {
        Refusal::NotOfArch { at: edge.at }
    }
}

impl From<MakeRefusal> for Refusal {
    ghost from_gives = { λ made refusal. refusal ≡ make_refusal made };

    fn from(made: MakeRefusal) -> Refusal {
        match made {
            MakeRefusal::NotOfArch { at } => Refusal::NotOfArch { at },
            MakeRefusal::TooFewThreads => Refusal::TooFewThreads,
            MakeRefusal::CoherenceOnly => Refusal::CoherenceOnly,
            MakeRefusal::NeedsObserver { location, event } => {
                Refusal::NeedsObserver { location, event }
            }
            MakeRefusal::TooManyRegisters { thread } => Refusal::TooManyRegisters { thread },
        }
    }
}
