use thiserror::Error;

/// Why a text of relaxations is refused.
#[derive(Clone, Copy, Debug, Error)]
pub enum RelaxKind {
    #[error("a word names no edge")]
    UnknownEdge,
    #[error("a bracket is not closed, has no word, holds a bracket, or closes nothing")]
    BadBracket,
    #[error("a bracket has more than 8 words")]
    RelaxTooLong,
    #[error("no choice of the edges joins")]
    DoesNotJoin,
    #[error("there are more than 64 relaxations")]
    TooManyRelaxes,
}

/// A refusal of a text of relaxations: the byte, from 0, where the item with the error begins, and why.
#[derive(Clone, Copy, Debug, Error)]
#[error("byte {at}: {kind}")]
pub struct RelaxError {
    pub at: usize,
    pub kind: RelaxKind,
}
