ghost use Rattle.std.specs.Prelude.{◌≡◌};
ghost use Rattle.test_maker.specs.Refusals.{foreign_refusal};
ghost use Rattle.co_tests.specs.CoRefusals.{co_refusal};

use test_maker::{ForeignEdge, Refusal};
use thiserror::Error;

/// Why a cycle has no coherence test. Edges and threads are counted from 0.
#[derive(Clone, Copy, Debug, Error)]
pub enum CoRefusal {
    /// Edge `at`, the first such, isn't of the architecture.
    #[error("edge {at} isn't of the architecture")]
    NotOfArch { at: u8 },
    /// Fewer than two edges are external.
    #[error("fewer than two edges are external")]
    TooFewThreads,
    /// An edge leads to another location, or every internal edge is a communication.
    #[error("an edge leads to another location, or every internal edge is a communication")]
    NotCoherence,
    /// There are more than two writes.
    #[error("there are more than two writes")]
    ManyWrites,
    /// Thread `thread`, the first such, needs more registers than the architecture has.
    #[error("thread {thread} needs too many registers")]
    TooManyRegisters { thread: u8 },
}

impl From<ForeignEdge> for CoRefusal {
    ghost from_gives = { λ edge refusal. co_refusal refusal ≡ foreign_refusal edge };

    fn from(edge: ForeignEdge) -> CoRefusal {
        CoRefusal::NotOfArch { at: edge.at }
    }
}

impl From<CoRefusal> for Refusal {
    ghost from_gives = { λ refused refusal. refusal ≡ co_refusal refused };

    fn from(refused: CoRefusal) -> Refusal {
        match refused {
            CoRefusal::NotOfArch { at } => Refusal::NotOfArch { at },
            CoRefusal::TooFewThreads => Refusal::TooFewThreads,
            CoRefusal::NotCoherence => Refusal::NotCoherence,
            CoRefusal::ManyWrites => Refusal::ManyWrites,
            CoRefusal::TooManyRegisters { thread } => Refusal::TooManyRegisters { thread },
        }
    }
}
