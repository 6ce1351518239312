ghost use Rattle.std.specs.Prelude.{◌≡◌, ◌<◌, ◌⊎◌, ℕ, IsFalse, IsTrue};
ghost use Rattle.cycle_enum.specs.RelaxSets.{HasOne, InSet};

/// A set of relaxations, each by its position in a list of at most 64: a bit for each, so that two sets are intersected by one
/// instruction. A list of ten edges is read in some 500 instructions; comparing it with each of 35 relaxations takes 26,000.
#[derive(Clone, Copy)]
pub(crate) struct RelaxSet {
    bits: u64,
}

impl RelaxSet {
    /// The empty set.
    pub(crate) fn none() -> RelaxSet
        ensures { (i : ℕ) → InSet result i → ⊥ }
    {
        RelaxSet { bits: 0 }
    }

    /// The set of all positions below 64.
    pub(crate) fn all() -> RelaxSet
        ensures { (i : ℕ) → i < 64 → InSet result i }
    {
        RelaxSet { bits: u64::MAX }
    }

    /// The set with one relaxation more.
    pub(crate) fn with(self, relax: u8) -> RelaxSet
        requires { relax < 64 }
        ensures added { InSet result relax }
        ensures kept { (i : ℕ) → InSet self i → InSet result i }
        ensures other { (i : ℕ) → InSet result i → (InSet self i) ⊎ (i ≡ relax) }
    {
        RelaxSet {
            bits: self.bits | 1 << relax,
        }
    }

    /// The relaxations that are in both sets.
    pub(crate) fn common(self, other: RelaxSet) -> RelaxSet
        ensures both { (i : ℕ) → InSet self i → InSet other i → InSet result i }
        ensures each { (i : ℕ) → InSet result i → (InSet self i) × InSet other i }
    {
        RelaxSet {
            bits: self.bits & other.bits,
        }
    }

    pub(crate) fn is_empty(self) -> bool
        ensures none { IsTrue result → (i : ℕ) → InSet self i → ⊥ }
        ensures some { IsFalse result → HasOne self }
    {
        self.bits == 0
    }
}
