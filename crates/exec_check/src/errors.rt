use exec_text::ExecKind;

/// Why there is no verdict on a text.
#[derive(Clone, Copy)]
pub enum CheckError {
    /// The text is no execution: the first line with an error, and the leftmost error in it.
    Exec {
        /// The number of the line, from 1: for a missing line, the number that it would have; for a text that is
        /// too large, 1.
        line: u64,
        kind: ExecKind,
    },
    /// There is no memory.
    NoMemory,
}
