use thiserror::Error;

/// What is wrong with a line of cycles: the first of these that applies, in this order. All but the
/// first and the last are about what follows the label of a line of edges.
#[derive(Clone, Copy, Debug, Error)]
pub enum LineKind {
    /// It has more than `MAX_CYCLE_LINE` bytes.
    #[error("the line has too many bytes")]
    LineTooLong,
    /// A name in it is not that of an edge.
    #[error("a word of the line is no edge")]
    UnknownEdge,
    /// There is no edge after its label.
    #[error("the line has no edge")]
    Empty,
    /// It has more than `MAX_EDGES` edges.
    #[error("the line has too many edges")]
    TooLong,
    /// An edge is not of the architecture.
    #[error("an edge of the line isn't of the architecture")]
    NotOfArch,
    /// The edges don't compose to a cycle.
    #[error("the edges of the line compose to no cycle")]
    DoesNotCompose,
    /// Its first word, which is to be a name, is that of no cycle of the architecture.
    #[error("no cycle of the architecture has this name")]
    UnknownName,
}

/// Why the lines of a source weren't read to its end.
#[derive(Clone, Copy, Debug, Error)]
pub enum LinesError {
    /// The line of this number, counted from 1, has an error, and no line before it has one.
    #[error("line {line}: {kind}")]
    Wrong { line: u64, kind: LineKind },
    /// There are more than `MAX_INPUT` bytes. The line is the one after the last line feed among the first
    /// `MAX_INPUT` of them, and no line before it has an error.
    #[error("line {line}: there are too many bytes")]
    TooMuch { line: u64 },
    /// The source failed, and no line that had ended by then has an error.
    #[error("the source failed")]
    InputFault,
}

/// Why the names of cycles weren't all written.
#[derive(Clone, Copy, Debug, Error)]
pub enum NormError {
    /// The lines weren't read to the end.
    #[error("{0}")]
    Lines(LinesError),
    /// The sink failed.
    #[error("the sink failed")]
    OutFault,
}

/// Why the families of cycles weren't all written.
#[derive(Clone, Copy, Debug, Error)]
pub enum ClassifyError {
    /// The lines weren't read to the end.
    #[error("{0}")]
    Lines(LinesError),
    /// The sink failed.
    #[error("the sink failed")]
    OutFault,
    /// There is no memory.
    #[error("no memory")]
    NoMemory,
}
