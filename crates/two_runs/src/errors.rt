ghost use Rattle.std.specs.Prelude.{◌≡◌, IfSome, Some};
ghost use Rattle.test_maker.specs.{Made.{NamesLocation}, Refusals.{crowded_refusal, foreign_refusal, resolve_refusal}};
ghost use Rattle.two_runs.specs.Shown.{why_refusal};
ghost use Rattle.two_runs.specs.declared.errors.WhyError.TheVariants.{NoMemory as NoMemoryForRuns};
ghost use Rattle.two_runs.specs.declared.errors.IntendedError.TheVariants as intended;
ghost use Rattle.two_runs.specs.declared.errors.CoherenceError.TheVariants as coherence;

use co_tests::CoRefusal;
use cycle_resolve::ResolveError;
use diy_io::NoMemory;
use test_maker::{CrowdedThread, ForeignEdge, MakeRefusal, Refusal};

/// Why two executions aren't given. Edges and threads are counted from 0.
#[derive(Clone, Copy)]
pub enum WhyError {
    /// Edge `at`, the first such, isn't of the architecture.
    NotOfArch { at: u8 },
    /// Fewer than two edges are external.
    TooFewThreads,
    /// All edges to another location lie in one thread, or there is none.
    CoherenceOnly,
    /// No write needs an observer, so there is nothing to show.
    NothingToShow,
    /// Thread `thread`, the first such, needs more registers than the architecture has. There are no
    /// observers among the threads.
    TooManyRegisters { thread: u8 },
    /// There is no memory, and there is no reason for a refusal.
    NoMemory,
}

impl WhyError {
    /// The refusal among those of all tools, or `None` for `NoMemory`.
    pub fn refusal(self) -> Option<Refusal>
        ensures given { result ≡ why_refusal self }
        ensures located { IfSome result NamesLocation }
    {
        match self {
            WhyError::NotOfArch { at } => Some(Refusal::NotOfArch { at }),
            WhyError::TooFewThreads => Some(Refusal::TooFewThreads),
            WhyError::CoherenceOnly => Some(Refusal::CoherenceOnly),
            WhyError::NothingToShow => Some(Refusal::NothingToShow),
            WhyError::TooManyRegisters { thread } => Some(Refusal::TooManyRegisters { thread }),
            WhyError::NoMemory => None,
        }
    }
}

impl From<ForeignEdge> for WhyError {
    ghost from_gives = { λ edge error. why_refusal error ≡ Some (foreign_refusal edge) };

    fn from(edge: ForeignEdge) -> WhyError {
        WhyError::NotOfArch { at: edge.at }
    }
}

impl From<&ResolveError> for WhyError {
    ghost from_gives = { λ unresolved error. why_refusal error ≡ Some (resolve_refusal unresolved.now) };

    fn from(unresolved: &ResolveError) -> WhyError {
        match unresolved {
            ResolveError::TooFewThreads => WhyError::TooFewThreads,
            ResolveError::CoherenceOnly => WhyError::CoherenceOnly,
        }
    }
}

impl From<CrowdedThread> for WhyError {
    ghost from_gives = { λ crowded error. why_refusal error ≡ Some (crowded_refusal crowded) };

    fn from(crowded: CrowdedThread) -> WhyError {
        WhyError::TooManyRegisters {
            thread: crowded.thread,
        }
    }
}

impl From<NoMemory> for WhyError {
    ghost from_gives = { λ _ error. error ≡ NoMemoryForRuns };

    fn from(_error: NoMemory) -> WhyError {
        WhyError::NoMemory
    }
}

/// Why the execution that the test of a cycle asks for isn't given.
#[derive(Clone, Copy)]
pub enum IntendedError {
    /// The first reason why the cycle has no test.
    Refused(MakeRefusal),
    /// There is no memory, and there is no reason for a refusal.
    NoMemory,
}

impl From<MakeRefusal> for IntendedError {
    ghost from_gives = { λ refusal error. error ≡ intended.Refused refusal };

    fn from(refusal: MakeRefusal) -> IntendedError {
        IntendedError::Refused(refusal)
    }
}

impl From<NoMemory> for IntendedError {
    ghost from_gives = { λ _ error. error ≡ intended.NoMemory };

    fn from(_error: NoMemory) -> IntendedError {
        IntendedError::NoMemory
    }
}

/// Why the execution that the coherence test of a cycle asks for isn't given.
#[derive(Clone, Copy)]
pub enum CoherenceError {
    /// The first reason why the cycle has no coherence test.
    Refused(CoRefusal),
    /// There is no memory, and there is no reason for a refusal.
    NoMemory,
}

impl From<CoRefusal> for CoherenceError {
    ghost from_gives = { λ refusal error. error ≡ coherence.Refused refusal };

    fn from(refusal: CoRefusal) -> CoherenceError {
        CoherenceError::Refused(refusal)
    }
}

impl From<NoMemory> for CoherenceError {
    ghost from_gives = { λ _ error. error ≡ coherence.NoMemory };

    fn from(_error: NoMemory) -> CoherenceError {
        CoherenceError::NoMemory
    }
}
