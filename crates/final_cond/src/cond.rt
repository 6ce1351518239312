use arrayvec::{ArrayString, ArrayVec};

/// The name of a register, of at most 16 bytes.
pub type RegName = ArrayString<16>;

/// The name of a location, of at most 16 bytes.
pub type PlaceName = ArrayString<16>;

/// The most terms that a condition can have.
pub const MAX_TERMS: usize = 128;

/// Over which executions a condition ranges, by the litmus format of the herdtools manual.
#[derive(Clone, Copy, Default)]
pub enum Quantifier {
    /// `exists`: the terms hold in some execution.
    #[default]
    Exists,
    /// `~exists`: the terms hold in no execution.
    NotExists,
    /// `forall`: the terms hold in every execution.
    Forall,
}

/// The left side of a term: what it compares with its value.
#[derive(Drop)]
pub enum Left {
    /// A register of a thread, at the end of the thread.
    Register { thread: u8, name: RegName },
    /// A location, at the end of all threads.
    Place { name: PlaceName },
}

impl Default for Left {
    fn default() -> Left {
        Left::Place {
            name: PlaceName::new(),
        }
    }
}

/// A register or location, and the value that it must have.
#[derive(Default, Drop)]
pub struct Term {
    pub left: Left,
    pub value: u32,
}

/// A conjunction of terms, under a quantifier.
#[derive(Default, Drop)]
pub struct Cond {
    pub quantifier: Quantifier,
    pub terms: ArrayVec<Term, MAX_TERMS>,
}
